//! At which breakpoints threads arrived by what a composite tells of, and which of those that stop are told.
ghost use Rattle.std.specs.Prelude.{◌≡◌, ◌++◌, IfOk, OnOk, find, map};
ghost use Rattle.machine_model.specs.Stops.{first_strike, halt_at, stop_among, stopping_at, strike_at};
ghost use Rattle.machine_model.specs.Stops.{strike_told, strikes_by, strikes_in};

use crate::hits::{is_live, thrown_or_first};
use jdwp_events::{Event as TargetEvent, EventKind};
use jdwp_values::{Location, ThreadId};
use machine_model::{Halt, HaltCause, Strike};
use std::alloc::Global;
use wire_core::{List, NoMemory};
use wish_sets::{EntryAt, Wish, Wishes, add_entry};

// A thread came to a place at which these breakpoints stand.
fn add_at(
    strikes: &mut List<Strike>,
    thread: ThreadId,
    at: Location,
    entries: &[EntryAt],
) -> Result<(), NoMemory>
    ensures { OnOk result (strikes.new ≡ strikes.old ++ map (strike_at thread at) entries.now) }
{
    for entry in entries {
        strikes.push(Strike {
            thread,
            at,
            entry: *entry,
        })?;
    }
    Ok(())
}

// A thread came to a place under an event request that is installed: each breakpoint that stands there is to be judged
// (JDWP, Event command set, Composite, Breakpoint).
fn add_strikes(
    alloc: Global,
    strikes: &mut List<Strike>,
    wishes: &Wishes,
    event: &TargetEvent,
) -> Result<(), NoMemory>
    ensures { OnOk result (strikes.new ≡ strikes.old ++ strikes_by wishes.now event.now) }
{
    match event {
        TargetEvent::Breakpoint {
            request,
            thread,
            at,
        } => {
            if !is_live(wishes, EventKind::Breakpoint, *request) {
                return Ok(());
            }
            let entries = wishes.entries_at(alloc, at)?;
            add_at(strikes, *thread, *at, entries.as_slice())
        }
        _ => Ok(()),
    }
}

/// The breakpoints to which threads came by these events, in order.
pub(crate) fn strikes_in(
    alloc: Global,
    wishes: &Wishes,
    events: &[TargetEvent],
) -> Result<List<Strike>, NoMemory>
    ensures { IfOk result (λ strikes. strikes ≡ strikes_in wishes.now events.now) }
{
    let mut strikes = List::new(alloc);
    for event in events {
        add_strikes(alloc, &mut strikes, wishes, event)?;
    }
    Ok(strikes)
}

// The first at which a breakpoint of a source stops.
fn line_strike(stops: &[Strike]) -> Option<Strike>
    ensures { result ≡ find (λ strike. strike.entry.line) stops.now }
{
    for strike in stops {
        if strike.entry.line {
            return Some(*strike);
        }
    }
    None
}

#[tactic(auto, using(crate::proofs::StopLaws::first_strike_is))]
fn first_strike(stops: &[Strike]) -> Option<Strike>
    ensures { result ≡ first_strike stops.now }
{
    stops.first().copied()
}

// The first at which a breakpoint of a source stops, else the first at which one of a function does.
fn strike_told(stops: &[Strike]) -> Option<Strike>
    ensures { result ≡ strike_told stops.now }
{
    match line_strike(stops) {
        Some(strike) => Some(strike),
        None => first_strike(stops),
    }
}

fn halt_at(strike: Strike) -> Halt
    ensures { result ≡ halt_at strike }
{
    Halt {
        cause: HaltCause::Breakpoint(strike.at),
        thread: strike.thread,
    }
}

/// The hit that is told: the first of a breakpoint of a source, else of a function, else of an exception, else of a step.
pub(crate) fn stop_among(stops: &[Strike], hits: &[Halt]) -> Option<Halt>
    ensures { result ≡ stop_among stops.now hits.now }
{
    match strike_told(stops) {
        Some(strike) => Some(halt_at(strike)),
        None => thrown_or_first(hits),
    }
}

/// The breakpoints that stop at a place, in order of their ids, each once (DAP specification, Events, Stopped,
/// hitBreakpointIds).
pub(crate) fn stopping_at(
    alloc: Global,
    at: Location,
    stops: &[Strike],
) -> Result<List<EntryAt>, NoMemory>
    ensures { IfOk result (λ entries. entries ≡ stopping_at at stops.now) }
{
    let mut entries = Vec::new(alloc);
    let wish = Wish::Stop(at);
    for strike in stops {
        if wish == Wish::Stop(strike.at) {
            add_entry(&mut entries, strike.entry)?;
        }
    }
    Ok(List::from_vec(entries))
}
