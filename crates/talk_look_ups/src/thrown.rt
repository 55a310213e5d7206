//! What the look-ups of what was thrown come to by what was replied so far.
ghost use Rattle.std.specs.Prelude.{◌≡◌, IfOk};
ghost use Rattle.look_ups.specs.Needs.{need_of as found_of};
ghost use Rattle.machine_model.specs.Exceptions.{exception_plan, mode_of, text_plan};
ghost use Rattle.machine_model.specs.Plans.{after, has, need};
ghost use Rattle.machine_model.specs.declared.parts.Finding.TheVariants.{Exception as exception_said};
ghost use Rattle.machine_model.specs.declared.parts.Finding.TheVariants.{ExceptionText as text_said};
ghost use Rattle.talk_look_ups.specs.Planning.{need_of, sight_in};

use crate::need::Need;
use dap_messages::BreakMode;
use jdwp_values::ObjectId;
use look_ups::{Asked, Sight, thrown_name, thrown_text};
use machine_model::{Finding, Thrown};
use std::alloc::Global;
use talk_state::State;
use wire_core::{NoMemory, Text};

// The name of the type of what was thrown, for an event.
fn text_found(found: look_ups::Need<Option<Text>>) -> Need
    ensures { need_of result ≡ after (found_of found) (λ text. has (text_said text)) }
{
    match found {
        look_ups::Need::Has(text) => Need::Has(Finding::ExceptionText(text)),
        look_ups::Need::Fails { place, code } => Need::Fails { place, code },
        look_ups::Need::Lacks { first, others } => Need::Lacks { first, others },
    }
}

/// What the look-up of the name of an object's type comes to, for an event. `NoMemory` comes where memory is refused (DAP
/// specification, Events, Stopped, text).
#[tactic(auto, using(machine_model::proofs::PlanIds::need_made))]
pub fn text_need(
    alloc: Global,
    state: &State,
    asked: &Asked,
    object: ObjectId,
) -> Result<Need, NoMemory>
    ensures { IfOk result (λ found. need_of found ≡ need (sight_in state.now asked.now) (text_plan object.0)) }
{
    let sight = Sight {
        classes: &state.classes,
        asked,
    };
    Ok(text_found(thrown_text(alloc, sight, object)?))
}

// When a thread stops at what was thrown (DAP specification, Types, ExceptionBreakMode).
fn mode_of(caught: bool) -> BreakMode
    ensures { result ≡ mode_of caught }
{
    if caught {
        BreakMode::Always
    } else {
        BreakMode::Unhandled
    }
}

// The name of the type of what was thrown, for a response.
fn exception_found(caught: bool, found: look_ups::Need<Text>) -> Need
    ensures { need_of result ≡ after (found_of found) (λ id. has (exception_said id (mode_of caught))) }
{
    match found {
        look_ups::Need::Has(id) => Need::Has(Finding::Exception {
            id,
            mode: mode_of(caught),
        }),
        look_ups::Need::Fails { place, code } => Need::Fails { place, code },
        look_ups::Need::Lacks { first, others } => Need::Lacks { first, others },
    }
}

/// What the look-up of the type of what was thrown comes to, for a response. `NoMemory` comes where memory is refused (DAP
/// specification, ExceptionInfo request).
#[tactic(auto, using(machine_model::proofs::PlanIds::need_made))]
pub fn exception_need(
    alloc: Global,
    state: &State,
    asked: &Asked,
    thrown: Thrown,
) -> Result<Need, NoMemory>
    ensures { IfOk result (λ found. need_of found
        ≡ need (sight_in state.now asked.now) (exception_plan thrown)) }
{
    let sight = Sight {
        classes: &state.classes,
        asked,
    };
    let name = thrown_name(alloc, sight, thrown.object)?;
    Ok(exception_found(thrown.caught, name))
}
