//! What a composite does when its turn comes.
ghost use Rattle.std.specs.Prelude.{◌≡◌, ◌∷◌, [], fold, IfOk, OnOk};
ghost use Rattle.std.specs.List.{flat_map};
ghost use Rattle.machine_model.specs.Classes.{with_listed};
ghost use Rattle.machine_model.specs.Composites.{binding_parts, composite_parts, composite_row, dying_row, events_row};
ghost use Rattle.machine_model.specs.Composites.{has_death, is_death, learnt_in, prepared_by, prepared_in};
ghost use Rattle.machine_model.specs.Composites.{prepared_under};
ghost use Rattle.session_facts.specs.OpenClasses.{left_in, with_told};

use crate::open_classes::OpenClasses;
use crate::told_classes::learn_told;
use class_tables::Classes;
use jdwp_events::{Composite, Event as TargetEvent, Policy};
use machine_model::{Choice, Event, Finish, Lookup, Part, Phase};
use std::alloc::Global;
use std::collections::VecDeque;
use wire_core::NoMemory;
use wish_sets::Wishes;

// Learns the class that an event tells of, where it was prepared (JDWP, Event command set, Composite, ClassPrepare).
fn learn_event(
    alloc: Global,
    event: &TargetEvent,
    classes: &mut Classes,
    wishes: &Wishes,
    left: Option<OpenClasses>,
) -> Result<Option<OpenClasses>, NoMemory>
    ensures known { OnOk result (classes.new ≡ fold with_listed classes.old (prepared_by event.now)) }
    ensures left { IfOk result (λ later. (classes.new, later)
        ≡ fold (with_told wishes.now.wanted) (classes.old, left) (prepared_by event.now)) }
{
    match event {
        TargetEvent::ClassPrepare {
            tag,
            class,
            signature,
            status,
            ..
        } => {
            let signature = signature.as_slice();
            learn_told(
                alloc, classes, wishes, left, *class, *tag, signature, *status,
            )
        }
        _ => Ok(left),
    }
}

fn learn_events(
    alloc: Global,
    events: &[TargetEvent],
    classes: &mut Classes,
    wishes: &Wishes,
    mut left: Option<OpenClasses>,
) -> Result<Option<OpenClasses>, NoMemory>
    ensures known { OnOk result (classes.new ≡ fold with_listed classes.old (flat_map prepared_by events.now)) }
    ensures left { IfOk result (λ later. (classes.new, later)
        ≡ fold (with_told wishes.now.wanted) (classes.old, left) (flat_map prepared_by events.now)) }
{
    for event in events {
        left = learn_event(alloc, event, classes, wishes, left)?;
    }
    Ok(left)
}

// The target's end (JDWP, Event command set, Composite, VMDeath).
fn is_death(event: &TargetEvent) -> bool
    ensures { result ≡ is_death event.now }
{
    matches!(event, TargetEvent::VMDeath { .. })
}

/// Whether one of these events tells of the target's end (JDWP, Event command set, Composite, VMDeath).
pub fn has_death(events: &[TargetEvent]) -> bool
    ensures { result ≡ has_death events.now }
{
    for event in events {
        if is_death(event) {
            return true;
        }
    }
    false
}

// Learns the classes that events under a suspend policy tell of; one that suspends a single thread tells of none.
fn learn_under(
    alloc: Global,
    policy: Policy,
    events: &[TargetEvent],
    classes: &mut Classes,
    wishes: &Wishes,
    left: Option<OpenClasses>,
) -> Result<Option<OpenClasses>, NoMemory>
    ensures known { OnOk result (classes.new
        ≡ fold with_listed classes.old (prepared_under policy (flat_map prepared_by events.now))) }
    ensures left { IfOk result (λ later. (classes.new, later) ≡ fold (with_told wishes.now.wanted) (classes.old, left)
        (prepared_under policy (flat_map prepared_by events.now))) }
{
    match policy {
        Policy::NoThread => learn_events(alloc, events, classes, wishes, left),
        Policy::EventThread => Ok(left),
        Policy::All => learn_events(alloc, events, classes, wishes, left),
    }
}

// Learns the classes that a composite tells of; beside the target's end nothing is learnt.
fn learn_prepared(
    alloc: Global,
    composite: &Composite,
    classes: &mut Classes,
    wishes: &Wishes,
    left: Option<OpenClasses>,
) -> Result<Option<OpenClasses>, NoMemory>
    ensures known { OnOk result (classes.new ≡ fold with_listed classes.old (prepared_in composite.now)) }
    ensures left { IfOk result (λ later. (classes.new, later)
        ≡ fold (with_told wishes.now.wanted) (classes.old, left) (prepared_in composite.now)) }
{
    if has_death(composite.events.as_slice()) {
        return Ok(left);
    }
    learn_under(
        alloc,
        composite.policy,
        composite.events.as_slice(),
        classes,
        wishes,
        left,
    )
}

/// Learns the classes that a composite tells of, where the session is attached, and gives the classes that may lack
/// something by then: a class that is new joins them, one that was known leaves them as they are, unless it stands
/// higher than before. Where no class is told they stay. `NoMemory` comes where memory is refused (JDWP, Event command
/// set, Composite, ClassPrepare).
pub fn learn_in(
    alloc: Global,
    phase: Phase,
    composite: &Composite,
    classes: &mut Classes,
    wishes: &Wishes,
    left: Option<OpenClasses>,
) -> Result<Option<OpenClasses>, NoMemory>
    ensures known { OnOk result (classes.new ≡ learnt_in phase composite.now classes.old) }
    ensures left { IfOk result (λ later.
        (classes.new, later) ≡ left_in wishes.now.wanted phase composite.now classes.old left) }
{
    match phase {
        Phase::Fresh => Ok(left),
        Phase::Attached => learn_prepared(alloc, composite, classes, wishes, left),
        Phase::Gone => Ok(left),
    }
}

fn alone(alloc: Global, part: Part) -> Result<VecDeque<Part>, NoMemory>
    ensures { IfOk result (λ parts. parts.items ≡ part ∷ []) }
{
    Ok(VecDeque::from_array(alloc, [part])?)
}

// What a composite does by its suspend policy (JDWP, Constants, SuspendPolicy).
fn composite_row(
    alloc: Global,
    policy: Policy,
    at: u64,
    below: u64,
) -> Result<VecDeque<Part>, NoMemory>
    ensures { IfOk result (λ parts. parts.items ≡ composite_row policy at below) }
{
    match policy {
        Policy::NoThread => binding(alloc, below),
        Policy::EventThread => alone(alloc, Part::Ends(Finish::OneThread(at))),
        Policy::All => {
            let mut parts = binding(alloc, below)?;
            parts.push_back(Part::Unfolds(Choice::Judges))?;
            Ok(parts)
        }
    }
}

// Breakpoints are bound in the classes, and the client is told of those that are verified by it.
fn binding(alloc: Global, below: u64) -> Result<VecDeque<Part>, NoMemory>
    ensures { IfOk result (λ parts. parts.items ≡ binding_parts below []) }
{
    Ok(VecDeque::from_array(
        alloc,
        [
            Part::Looks(Lookup::Classes),
            Part::Updates,
            Part::Unfolds(Choice::TellsNews(below)),
        ],
    )?)
}

// The target's end is told, and nothing else of its composite (DAP specification, Events, Terminated).
fn dying_row(alloc: Global, policy: Policy, at: u64) -> Result<VecDeque<Part>, NoMemory>
    ensures { IfOk result (λ parts. parts.items ≡ dying_row policy at) }
{
    match policy {
        Policy::NoThread => alone(alloc, Part::Tells(Event::Terminated)),
        Policy::EventThread => alone(alloc, Part::Ends(Finish::OneThread(at))),
        Policy::All => alone(alloc, Part::Tells(Event::Terminated)),
    }
}

fn events_row(
    alloc: Global,
    dies: bool,
    policy: Policy,
    at: u64,
    below: u64,
) -> Result<VecDeque<Part>, NoMemory>
    ensures { IfOk result (λ parts. parts.items ≡ events_row dies policy at below) }
{
    if dies {
        return dying_row(alloc, policy, at);
    }
    composite_row(alloc, policy, at, below)
}

/// What a composite does whose packet stands at this offset, in bytes, in the target's stream, and which tells of the
/// target's end or doesn't; where the session isn't attached it does nothing. `NoMemory` comes where memory is refused
/// (JDWP, Event command set, Composite).
pub fn composite_parts(
    alloc: Global,
    phase: Phase,
    dies: bool,
    policy: Policy,
    at: u64,
    below: u64,
) -> Result<VecDeque<Part>, NoMemory>
    ensures { IfOk result (λ parts. parts.items ≡ composite_parts phase dies policy at below) }
{
    match phase {
        Phase::Fresh => Ok(VecDeque::new(alloc)),
        Phase::Attached => events_row(alloc, dies, policy, at, below),
        Phase::Gone => Ok(VecDeque::new(alloc)),
    }
}
