//! Which threads threw something or ended a step by what a composite tells of, and what they threw.
ghost use Rattle.std.specs.Prelude.{◌≡◌, ◌++◌, ◌∷◌, [], cond, IfOk, OnOk, find};
ghost use Rattle.std.specs.List.{flat_map};
ghost use Rattle.machine_model.specs.Stops.{first_of, first_with, hit_by, hits_in, is_live, is_thrown};
ghost use Rattle.machine_model.specs.Stops.{thrown_by, thrown_in};

use jdwp_events::{Event as TargetEvent, EventKind};
use jdwp_values::ObjectId;
use look_ups::object_named;
use machine_model::{Halt, HaltCause, Thrown};
use std::alloc::Global;
use wire_core::{List, NoMemory};
use wish_sets::Wishes;

/// An event request of this kind is installed under this id (JDWP, Event command set, Composite, requestID).
pub(crate) fn is_live(wishes: &Wishes, kind: EventKind, request: u32) -> bool
    ensures { result ≡ is_live wishes.now kind request }
{
    match wishes.owner_of(kind, request) {
        None => false,
        Some(_) => true,
    }
}

// A thread halted for this reason, where an event request of this kind is installed under this id.
fn add_live(
    hits: &mut List<Halt>,
    wishes: &Wishes,
    kind: EventKind,
    request: u32,
    halt: Halt,
) -> Result<(), NoMemory>
    ensures { OnOk result (hits.new ≡ hits.old ++ cond (is_live wishes.now kind request) (halt ∷ []) []) }
{
    if is_live(wishes, kind, request) {
        hits.push(halt)?;
    }
    Ok(())
}

// A thread halted otherwise than at a breakpoint, under an event request that is installed: it threw something, or its
// step has ended (JDWP, Event command set, Composite, Exception and SingleStep).
fn add_hit(hits: &mut List<Halt>, wishes: &Wishes, event: &TargetEvent) -> Result<(), NoMemory>
    ensures { OnOk result (hits.new ≡ hits.old ++ hit_by wishes.now event.now) }
{
    match event {
        TargetEvent::Exception {
            request,
            thread,
            exception,
            ..
        } => {
            let halt = Halt {
                cause: HaltCause::Exception(ObjectId(object_named(*exception))),
                thread: *thread,
            };
            add_live(hits, wishes, EventKind::Exception, *request, halt)
        }
        TargetEvent::SingleStep {
            request,
            thread,
            ..
        } => {
            let halt = Halt {
                cause: HaltCause::Step,
                thread: *thread,
            };
            add_live(hits, wishes, EventKind::SingleStep, *request, halt)
        }
        _ => Ok(()),
    }
}

/// The threads that threw something or ended a step by these events, in order.
pub(crate) fn hits_in(
    alloc: Global,
    wishes: &Wishes,
    events: &[TargetEvent],
) -> Result<List<Halt>, NoMemory>
    ensures { IfOk result (λ hits. hits ≡ hits_in wishes.now events.now) }
{
    let mut hits = List::new(alloc);
    for event in events {
        add_hit(&mut hits, wishes, event)?;
    }
    Ok(hits)
}

fn is_thrown(cause: HaltCause) -> bool
    ensures { result ≡ is_thrown cause }
{
    match cause {
        HaltCause::Breakpoint(_) => false,
        HaltCause::Exception(_) => true,
        HaltCause::Step => false,
    }
}

// The first hit of an exception.
fn thrown_hit(hits: &[Halt]) -> Option<Halt>
    ensures { result ≡ find (λ hit. is_thrown hit.cause) hits.now }
{
    for hit in hits {
        if is_thrown(hit.cause) {
            return Some(*hit);
        }
    }
    None
}

#[tactic(auto, using(crate::proofs::StopLaws::first_is))]
fn first_of(hits: &[Halt]) -> Option<Halt>
    ensures { result ≡ first_of hits.now }
{
    hits.first().copied()
}

/// The first hit of an exception, else the first.
pub(crate) fn thrown_or_first(hits: &[Halt]) -> Option<Halt>
    ensures { result ≡ first_with is_thrown hits.now (first_of hits.now) }
{
    match thrown_hit(hits) {
        Some(hit) => Some(hit),
        None => first_of(hits),
    }
}

// What was thrown under an event request that is installed, and whether something catches it: nothing does, where the
// class of the place where it is caught is null (JDWP, Event command set, Composite, Exception, catchLocation).
fn add_thrown(
    thrown: &mut List<Thrown>,
    wishes: &Wishes,
    event: &TargetEvent,
) -> Result<(), NoMemory>
    ensures { OnOk result (thrown.new ≡ thrown.old ++ thrown_by wishes.now event.now) }
{
    match event {
        TargetEvent::Exception {
            request,
            thread,
            exception,
            catch,
            ..
        } => {
            if !is_live(wishes, EventKind::Exception, *request) {
                return Ok(());
            }
            thrown.push(Thrown {
                thread: *thread,
                object: ObjectId(object_named(*exception)),
                caught: catch.class.0 != 0,
            })
        }
        _ => Ok(()),
    }
}

/// What was thrown by these events, in order.
pub(crate) fn thrown_in(
    alloc: Global,
    wishes: &Wishes,
    events: &[TargetEvent],
) -> Result<List<Thrown>, NoMemory>
    ensures { IfOk result (λ thrown. thrown ≡ thrown_in wishes.now events.now) }
{
    let mut thrown = List::new(alloc);
    for event in events {
        add_thrown(&mut thrown, wishes, event)?;
    }
    Ok(thrown)
}
