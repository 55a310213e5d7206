//! What becomes of a composite that has suspended the whole target: it is a stop, the target's entry is held, or the
//! target runs on.
ghost use Rattle.std.specs.Prelude.{◌≡◌, ◌∷◌, [], IfOk};
ghost use Rattle.machine_model.specs.Stops.{decided, decided_by, decided_of, has_start, hit_parts, hits_in};
ghost use Rattle.machine_model.specs.Stops.{holds_entry, is_start, judged, logged_first, quiet_parts, stop_among};
ghost use Rattle.machine_model.specs.Stops.{strikes_in, told_part};
ghost use Rattle.machine_model.specs.declared.parts.Lookup.TheVariants.{Hits as breakpoint_hits};
ghost use Rattle.machine_model.specs.declared.parts.Part.TheVariants.{Looks as is_looked_up};

use crate::hits::{hits_in, thrown_in};
use crate::strikes::{stop_among, stopping_at, strikes_in};
use jdwp_events::Event as TargetEvent;
use jdwp_values::ThreadId;
use machine_model::{
    Choice, Deed, Event, Halt, HaltCause, Item, Lookup, Note, Part, StopCause, Stopping, Strike,
    Suspension, Texts, Thrown,
};
use std::alloc::Global;
use std::collections::VecDeque;
use talk_state::State;
use wire_core::{List, NoMemory};
use wish_sets::Wishes;

// The target's start (JDWP, Event command set, Composite, VMStart).
fn is_start(event: &TargetEvent) -> bool
    ensures { result ≡ is_start event.now }
{
    matches!(event, TargetEvent::VMStart { .. })
}

fn has_start(events: &[TargetEvent]) -> bool
    ensures { result ≡ has_start events.now }
{
    for event in events {
        if is_start(event) {
            return true;
        }
    }
    false
}

// The entry is held until the client has configured all, once (DAP specification, ConfigurationDone request).
fn holds_entry(state: &State, events: &[TargetEvent]) -> bool
    ensures { result ≡ holds_entry state.now events.now }
{
    if state.configured || state.entry {
        return false;
    }
    has_start(events)
}

// With no hit the entry is held, where it may be; else the target runs on.
fn quiet_parts(alloc: Global, holds: bool) -> Result<VecDeque<Part>, NoMemory>
    ensures { IfOk result (λ parts. parts.items ≡ quiet_parts holds) }
{
    if holds {
        return Ok(VecDeque::from_array(alloc, [Part::Notes(Note::EntryHeld)])?);
    }
    Ok(VecDeque::from_array(alloc, [Part::Sends(Deed::Resume(Suspension::Composite))])?)
}

// How a hit is told: a breakpoint with all that stop there; of what was thrown the type is looked up first.
fn told_part(
    alloc: Global,
    stops: &[Strike],
    cause: HaltCause,
    thread: ThreadId,
) -> Result<Part, NoMemory>
    ensures { IfOk result (λ part. part ≡ told_part stops.now cause thread) }
{
    match cause {
        HaltCause::Breakpoint(at) => Ok(Part::Tells(Event::Stopped(Stopping {
            cause: StopCause::Hit(stopping_at(alloc, at, stops)?),
            thread,
        }))),
        HaltCause::Exception(object) => Ok(Part::Looks(Lookup::ExceptionText { thread, object })),
        HaltCause::Step => Ok(Part::Tells(Event::Stopped(Stopping {
            cause: StopCause::Step,
            thread,
        }))),
    }
}

// What was thrown is written down, a step that is in flight is cleared, and the hit is told: with no stop in hand it
// begins one; else the stop goes on, and the suspension that it has too much is undone.
fn hit_parts(
    alloc: Global,
    stopped: bool,
    thrown: List<Thrown>,
    stops: &[Strike],
    halt: Halt,
) -> Result<VecDeque<Part>, NoMemory>
    ensures { IfOk result (λ parts. parts.items ≡ hit_parts stopped thrown stops.now halt) }
{
    let noted = Part::Notes(Note::Thrown(thrown));
    let cleared = Part::Notes(Note::Step(None));
    let told = told_part(alloc, stops, halt.cause, halt.thread)?;
    if !stopped {
        return Ok(VecDeque::from_array(alloc, [noted, cleared, Part::Updates, told])?);
    }
    Ok(VecDeque::from_array(
        alloc,
        [
            noted,
            cleared,
            Part::Updates,
            told,
            Part::Sends(Deed::Resume(Suspension::Composite)),
        ],
    )?)
}

fn decided_by(
    alloc: Global,
    stopped: bool,
    holds: bool,
    thrown: List<Thrown>,
    stops: &[Strike],
    stop: Option<Halt>,
) -> Result<VecDeque<Part>, NoMemory>
    ensures { IfOk result (λ parts. parts.items ≡ decided_by stopped holds thrown stops.now stop) }
{
    match stop {
        None => quiet_parts(alloc, holds),
        Some(halt) => hit_parts(alloc, stopped, thrown, stops, halt),
    }
}

// The hit that is told, where these breakpoints stop, of these events.
fn stop_in(
    alloc: Global,
    stops: &[Strike],
    wishes: &Wishes,
    events: &[TargetEvent],
) -> Result<Option<Halt>, NoMemory>
    ensures { IfOk result (λ stop. stop ≡ stop_among stops.now (hits_in wishes.now events.now)) }
{
    let hits = hits_in(alloc, wishes, events)?;
    Ok(stop_among(stops, hits.as_slice()))
}

// What becomes of these events, where this was thrown by them, and these breakpoints stop.
fn decided_with(
    alloc: Global,
    state: &State,
    stops: &[Strike],
    events: &[TargetEvent],
    thrown: List<Thrown>,
) -> Result<VecDeque<Part>, NoMemory>
    ensures { IfOk result (λ parts. parts.items ≡ decided_by state.now.stopped (holds_entry state.now events.now)
        thrown stops.now (stop_among stops.now (hits_in state.now.wishes events.now))) }
{
    let stop = stop_in(alloc, stops, &state.wishes, events)?;
    let holds = holds_entry(state, events);
    decided_by(alloc, state.is_stopped(), holds, thrown, stops, stop)
}

fn decided_of(
    alloc: Global,
    state: &State,
    stops: &[Strike],
    events: &[TargetEvent],
) -> Result<VecDeque<Part>, NoMemory>
    ensures { IfOk result (λ parts. parts.items ≡ decided_of state.now stops.now events.now) }
{
    let thrown = thrown_in(alloc, &state.wishes, events)?;
    decided_with(alloc, state, stops, events, thrown)
}

// What is logged is told, one text after the other, before it is decided.
fn logged_first(
    alloc: Global,
    state: &State,
    mut logged: Texts,
    stops: List<Strike>,
    events: &[TargetEvent],
) -> Result<VecDeque<Part>, NoMemory>
    ensures { IfOk result (λ parts. parts.items ≡ logged_first state.now logged stops events.now) }
{
    match logged.take() {
        None => decided_of(alloc, state, stops.as_slice(), events),
        Some(text) => Ok(VecDeque::from_array(
            alloc,
            [
                Part::Tells(Event::Logged(text)),
                Part::Unfolds(Choice::Decides { logged, stops }),
            ],
        )?),
    }
}

/// What becomes of the suspension of the composite in hand, as long as the session is attached, where breakpoints log
/// this and these stop: first what is logged is told; then a hit is told, the entry is held, or the target runs on.
/// `NoMemory` comes where memory is refused (JDWP, Event command set, Composite; DAP specification, Events, Output and
/// Stopped).
pub fn decided(
    alloc: Global,
    state: &State,
    logged: Texts,
    stops: List<Strike>,
    item: &Item,
) -> Result<VecDeque<Part>, NoMemory>
    ensures { IfOk result (λ parts. parts.items ≡ decided state.now logged stops item.now) }
{
    if !state.is_attached() {
        return Ok(VecDeque::new(alloc));
    }
    match item {
        Item::Request(_) => logged_first(alloc, state, logged, stops, &[]),
        Item::Composite { composite, .. } => {
            logged_first(alloc, state, logged, stops, composite.events.as_slice())
        }
        Item::Raw { .. } => logged_first(alloc, state, logged, stops, &[]),
        Item::TargetEnd => logged_first(alloc, state, logged, stops, &[]),
    }
}

// The breakpoints to which threads came by these events are looked up: which are passed, what they log, which stop.
fn hits_part(
    alloc: Global,
    state: &State,
    events: &[TargetEvent],
) -> Result<VecDeque<Part>, NoMemory>
    ensures { IfOk result (λ parts. parts.items
        ≡ is_looked_up (breakpoint_hits (strikes_in state.now.wishes events.now)) ∷ []) }
{
    let strikes = strikes_in(alloc, &state.wishes, events)?;
    Ok(VecDeque::from_array(alloc, [Part::Looks(Lookup::Hits(strikes))])?)
}

/// What judges the breakpoints to which threads came by the composite in hand, as long as the session is attached.
/// `NoMemory` comes where memory is refused (JDWP, Event command set, Composite, Breakpoint).
pub fn judged(alloc: Global, state: &State, item: &Item) -> Result<VecDeque<Part>, NoMemory>
    ensures { IfOk result (λ parts. parts.items ≡ judged state.now item.now) }
{
    if !state.is_attached() {
        return Ok(VecDeque::new(alloc));
    }
    match item {
        Item::Request(_) => hits_part(alloc, state, &[]),
        Item::Composite { composite, .. } => {
            hits_part(alloc, state, composite.events.as_slice())
        }
        Item::Raw { .. } => hits_part(alloc, state, &[]),
        Item::TargetEnd => hits_part(alloc, state, &[]),
    }
}
