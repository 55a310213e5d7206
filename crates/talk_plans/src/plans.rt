//! What look-ups come to by what was replied so far.
ghost use Rattle.std.specs.Prelude.{◌≡◌, [], IfOk, map};
ghost use Rattle.look_ups.specs.Needs.{need_of as found_of};
ghost use Rattle.machine_model.specs.Lookups.{plan};
ghost use Rattle.machine_model.specs.Plans.{after, has, need};
ghost use Rattle.machine_model.specs.declared.parts.Finding.TheVariants.{Hits as hits_found};
ghost use Rattle.machine_model.specs.declared.parts.Finding.TheVariants.{Variables as variables_found};
ghost use Rattle.talk_look_ups.specs.Planning.{need_of, sight_in};

use crate::values::{value_need, write_need};
use child_pages::variables_need;
use look_ups::{Asked, Sight};
use machine_model::{Finding, Lookup, ShownVariable, Strike, Texts};
use std::alloc::Global;
use talk_look_ups::{Need, classes_need, exception_need, frames_need, text_need, threads_need};
use talk_state::State;
use wire_core::{List, NoMemory};

// Children of a container, as a look-up finds them.
fn children_found(found: look_ups::Need<List<ShownVariable>>) -> Need
    ensures { need_of result ≡ after (found_of found) (λ shown. has (variables_found shown)) }
{
    match found {
        look_ups::Need::Has(shown) => Need::Has(Finding::Variables(shown)),
        look_ups::Need::Fails { place, code } => Need::Fails { place, code },
        look_ups::Need::Lacks { first, others } => Need::Lacks { first, others },
    }
}

// The ids of breakpoints that threads came to.
fn passed_by(alloc: Global, strikes: &[Strike]) -> Result<List<u64>, NoMemory>
    ensures { IfOk result (λ ids. ids ≡ map (λ strike. strike.entry.id) strikes.now) }
{
    let mut ids = List::new(alloc);
    for strike in strikes {
        ids.push(strike.entry.id)?;
    }
    Ok(ids)
}

// Each breakpoint that a thread came to is passed, logs nothing and stops it.
fn hits_need(alloc: Global, strikes: &[Strike]) -> Result<Need, NoMemory>
    ensures { IfOk result (λ found. need_of found ≡ has (hits_found
        (map (λ strike. strike.entry.id) strikes.now) [] strikes.now)) }
{
    Ok(Need::Has(Finding::Hits {
        passed: passed_by(alloc, strikes)?,
        logged: Texts::new(alloc),
        stops: List::from_slice(alloc, strikes)?,
    }))
}

/// What a look-up comes to by what was replied so far.
#[tactic(auto, using(machine_model::proofs::PlanIds::need_made), unfolding(talk_look_ups::specs::FramePlanning::stack_in))]
pub(crate) fn found_for(
    alloc: Global,
    lookup: &Lookup,
    state: &State,
    asked: &Asked,
) -> Result<Need, NoMemory>
    ensures { IfOk result (λ found. need_of found ≡ need (sight_in state.now asked.now) (plan lookup.now state.now)) }
{
    match lookup {
        Lookup::Threads => threads_need(alloc, state, asked),
        Lookup::Frames {
            thread,
            start,
            levels,
        } => frames_need(alloc, state, asked, *thread, *start, *levels),
        Lookup::Variables {
            thing,
            filter,
            start,
            count,
        } => {
            let sight = Sight {
                classes: &state.classes,
                asked,
            };
            let types = state.options.shows_types;
            let found = variables_need(alloc, sight, types, *thing, *filter, *start, *count)?;
            Ok(children_found(found))
        }
        Lookup::Value { frame, expression } => value_need(alloc, state, asked, *frame, expression),
        Lookup::Write { thing, name, text } => write_need(alloc, state, asked, *thing, name, text),
        Lookup::ExceptionText { object, .. } => text_need(alloc, state, asked, *object),
        Lookup::Exception(thrown) => exception_need(alloc, state, asked, *thrown),
        Lookup::Hits(strikes) => hits_need(alloc, strikes.as_slice()),
        Lookup::Classes => classes_need(alloc, state, asked),
    }
}
