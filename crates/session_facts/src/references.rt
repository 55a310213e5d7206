//! The numbers of frames and containers: those that a response tells, and what a request names by one.
ghost use Rattle.std.specs.Prelude.{◌≡◌, ◌++◌, filter_map, map, option_to_list, IfOk, OnOk};
ghost use Rattle.machine_model.specs.Lookups.{body_of, shown_by};
ghost use Rattle.machine_model.specs.References.{has_room, things_of, with_things};
ghost use Rattle.machine_model.specs.declared.parts.ShownFrame.{ShownFrame as AFrame};
ghost use Rattle.machine_model.specs.declared.parts.ShownVariable.{ShownVariable as AVariable};
ghost use Rattle.stop_refs.specs.Numbers.{container, frame, with_thing};
ghost use Rattle.stop_refs.specs.declared.thing.Thing.TheVariants.{Frame as a_frame};
ghost use Rattle.session_facts.specs.Numbering.{grown, has_stop, stop_of};

use crate::numbers::Numbers;
use dap_messages::Failure;
use indexmap::IndexSet;
use machine_model::{Body, Finding, Outcome, ShownFrame, ShownVariable};
use std::alloc::Global;
use stop_refs::{FrameThing, NumberFault, RefFault, Stop, Thing};
use wire_core::{List, NoMemory};

/// The frames that are shown, as things that have numbers.
pub fn frame_things(alloc: Global, frames: &[ShownFrame]) -> Result<List<Thing>, NoMemory>
    ensures { IfOk result (λ things. things ≡ map (λ (shown : AFrame). a_frame shown.frame) frames.now) }
{
    let mut things = List::new(alloc);
    for shown in frames {
        things.push(Thing::Frame(shown.frame))?;
    }
    Ok(things)
}

/// The containers among what is shown, as things that have numbers.
pub fn variable_things(alloc: Global, variables: &[ShownVariable]) -> Result<List<Thing>, NoMemory>
    ensures { IfOk result (λ things. things ≡ filter_map (λ (one : AVariable). one.seen.thing) variables.now) }
{
    let mut things = List::new(alloc);
    for shown in variables {
        if let Some(thing) = shown.seen.thing {
            things.push(thing)?;
        }
    }
    Ok(things)
}

/// The container that a value is, as things that have numbers.
pub fn value_things(alloc: Global, thing: Option<Thing>) -> Result<List<Thing>, NoMemory>
    ensures { IfOk result (λ things. things ≡ option_to_list thing) }
{
    match thing {
        None => Ok(List::new(alloc)),
        Some(thing) => Ok(List::from_slice(alloc, &[thing])?),
    }
}

// What a body tells by numbers, in order.
fn things_of(alloc: Global, body: &Body) -> Result<List<Thing>, NoMemory>
    ensures { IfOk result (λ things. things ≡ things_of body.now) }
{
    match body {
        Body::Nothing => Ok(List::new(alloc)),
        Body::Capabilities => Ok(List::new(alloc)),
        Body::Breakpoints { .. } => Ok(List::new(alloc)),
        Body::Continued => Ok(List::new(alloc)),
        Body::Exception { .. } => Ok(List::new(alloc)),
        Body::StackFrames { frames, .. } => frame_things(alloc, frames.as_slice()),
        Body::Scopes(frame) => Ok(List::from_slice(alloc, &[Thing::Locals(*frame)])?),
        Body::Variables(shown) => variable_things(alloc, shown.as_slice()),
        Body::Value(seen) => value_things(alloc, seen.thing),
        Body::Written(_) => Ok(List::new(alloc)),
        Body::Threads(_) => Ok(List::new(alloc)),
    }
}

// A thing is put among those that have no number yet, once.
#[tactic(auto, using(crate::proofs::ReferenceLemmas::grown_known, crate::proofs::ReferenceLemmas::grown_new))]
fn add_fresh(stop: &Stop, fresh: &mut IndexSet<Thing>, thing: Thing) -> Result<(), NoMemory>
    ensures { OnOk result (grown stop.now fresh.new.keys ≡ with_thing thing (grown stop.now fresh.old.keys)) }
{
    if stop.is_new(&thing) {
        fresh.insert(thing)?;
    }
    Ok(())
}

// Those of these things that have no number yet.
fn fresh_among(alloc: Global, stop: &Stop, things: &[Thing]) -> Result<IndexSet<Thing>, NoMemory>
    ensures { IfOk result (λ fresh. grown stop.now fresh.keys ≡ with_things things.now stop.now) }
{
    let mut fresh = IndexSet::new(alloc);
    for thing in things {
        add_fresh(stop, &mut fresh, *thing)?;
    }
    Ok(fresh)
}

// Whether all of these things that have no number yet get one.
#[tactic(auto, using(crate::proofs::ReferenceLemmas::has_room_for))]
fn has_room(alloc: Global, stop: &Stop, things: &[Thing]) -> Result<bool, NoMemory>
    ensures { IfOk result (λ room. room ≡ has_room things.now stop.now) }
{
    let fresh = fresh_among(alloc, stop, things)?;
    Ok(fresh.len() <= stop.room() as usize)
}

/// A response that tells numbers; where too few are left it fails. `NoMemory` comes where memory is refused, and where no
/// stop is in hand (DAP specification, Types, StackFrame, id; Types, Variable, variablesReference).
pub fn shown_by(alloc: Global, numbers: &Numbers, body: Body) -> Result<Outcome, NoMemory>
    ensures { IfOk result (λ outcome. outcome ≡ shown_by (stop_of numbers.now) body) }
{
    let Numbers::Stopped(stop) = numbers else {
        return Err(NoMemory);
    };
    let things = things_of(alloc, &body)?;
    if has_room(alloc, stop, things.as_slice())? {
        return Ok(Outcome::Success(body));
    }
    Ok(Outcome::Failure(Failure::references_spent()))
}

/// What a response shows that was found.
pub fn body_of(finding: Finding) -> Body
    ensures { result ≡ body_of finding }
{
    match finding {
        Finding::Threads(named) => Body::Threads(named),
        Finding::Frames { total, frames } => Body::StackFrames { total, frames },
        Finding::Variables(shown) => Body::Variables(shown),
        Finding::Value(seen) => Body::Value(seen),
        Finding::NoValue(_) => Body::Nothing,
        Finding::Write { .. } => Body::Nothing,
        Finding::ExceptionText(_) => Body::Nothing,
        Finding::Exception { id, mode } => Body::Exception { id, mode },
        Finding::Hits { .. } => Body::Nothing,
        Finding::Classes(_) => Body::Nothing,
    }
}

// A thing has a number from now on. One that has no room comes to no memory.
fn add_thing(stop: &mut Stop, thing: Thing) -> Result<(), NoMemory>
    ensures { OnOk result (stop.new ≡ with_thing thing stop.old) }
{
    match stop.number(thing) {
        Ok(_) => Ok(()),
        Err(NumberFault::NoMemory) => Err(NoMemory),
        Err(NumberFault::Spent) => Err(NoMemory),
    }
}

fn add_things(stop: &mut Stop, things: &[Thing]) -> Result<(), NoMemory>
    ensures { OnOk result (stop.new ≡ with_things things.now stop.old) }
{
    for thing in things {
        add_thing(stop, *thing)?;
    }
    Ok(())
}

/// Things have numbers from now on, each the one that it has or the next. `NoMemory` comes where memory is refused, where
/// a number has no room, and where no stop is in hand (DAP specification, Overview, Lifetime of Objects References).
pub fn number_things(numbers: &mut Numbers, things: &[Thing]) -> Result<(), NoMemory>
    ensures numbers { OnOk result (stop_of numbers.new ≡ with_things things.now (stop_of numbers.old)) }
    ensures stopped { OnOk result (has_stop numbers.new ≡ has_stop numbers.old) }
{
    match numbers {
        Numbers::Running(_) => Err(NoMemory),
        Numbers::Stopped(stop) => add_things(stop, things),
    }
}

/// The frame that a number stands for in the stop in hand, or why for none (DAP specification, Scopes request, frameId).
pub fn frame_with(numbers: &Numbers, number: u32) -> Result<FrameThing, RefFault>
    ensures { result ≡ frame number (stop_of numbers.now) }
{
    match numbers {
        Numbers::Running(running) => Err(running.look(number)),
        Numbers::Stopped(stop) => match stop.frame(number) {
            Ok(found) => Ok(*found.thing),
            Err(fault) => Err(fault),
        },
    }
}

/// The container that a number stands for in the stop in hand, or why for none (DAP specification, Variables request,
/// variablesReference).
pub fn container_with(numbers: &Numbers, number: u32) -> Result<Thing, RefFault>
    ensures { result ≡ container number (stop_of numbers.now) }
{
    match numbers {
        Numbers::Running(running) => Err(running.look(number)),
        Numbers::Stopped(stop) => match stop.container(number) {
            Ok(found) => Ok(*found.thing),
            Err(fault) => Err(fault),
        },
    }
}
