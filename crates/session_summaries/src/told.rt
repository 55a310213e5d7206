//! What a client is told.
ghost use Rattle.std.specs.Prelude.{◌≡◌, ◌+◌, IfOk};
ghost use Rattle.serde_json.specs.View.{view};
ghost use Rattle.wire_core.specs.Streams.{left};
ghost use Rattle.dap_frames.specs.Frames.{frame_front};
ghost use Rattle.session_summaries.specs.Bodies.{bodies_of};
ghost use Rattle.session_summaries.specs.Told.{none_told, one_if, told_at, told_by, told_in, told_of, with_told};

use crate::values::{is_event, is_response, is_stop, n_shown};
use dap_frames::Cutter;
use serde_json::Value;
use std::alloc::Global;
use wire_core::NoMemory;

/// How many responses, events and stops are told, and the sum of the values of `n` that are shown.
#[derive(Clone, Copy, Debug, PartialEq, Eq)]
pub struct Tally {
    pub responses: u64,
    pub events: u64,
    pub stops: u64,
    pub sum: u64,
}

/// What some bytes tell the client. `NoMemory` comes where memory is refused, or a number has no room.
pub(crate) fn sum_told(alloc: Global, bytes: &[u8]) -> Result<Tally, NoMemory>
    ensures { IfOk result (λ told. told ≡ told_in (bodies_of bytes.now)) }
{
    let mut cutter = Cutter::new(alloc);
    cutter.feed(bytes)?;
    let mut told = none_told();
    for _step in bytes {
        match next_told(alloc, &mut cutter)? {
            Some(one) => told = with_told(told, one)?,
            None => return Ok(told),
        }
    }
    Ok(told)
}

// Takes the next frame, and gives what it tells.
fn next_told(alloc: Global, cutter: &mut Cutter) -> Result<Option<Tally>, NoMemory>
    ensures told { IfOk result (λ told. told ≡ told_at (frame_front cutter.old.pending)) }
    ensures left { cutter.new ≡ left (frame_front cutter.old.pending) cutter.old }
{
    match cutter.take() {
        Ok(Some(body)) => Ok(Some(told_by(alloc, body.bytes)?)),
        Ok(None) => Ok(None),
        Err(_) => Ok(None),
    }
}

fn told_by(alloc: Global, body: &[u8]) -> Result<Tally, NoMemory>
    ensures { IfOk result (λ told. told ≡ told_by body.now) }
{
    match Value::from_slice(alloc, body) {
        Ok(value) => told_of(&value),
        Err(error) => if error.is_memory() {
            Err(NoMemory)
        } else {
            Ok(none_told())
        },
    }
}

fn told_of(value: &Value) -> Result<Tally, NoMemory>
    ensures { IfOk result (λ told. told ≡ told_of (view value.now)) }
{
    Ok(Tally {
        responses: one_if(is_response(value)),
        events: one_if(is_event(value)),
        stops: one_if(is_stop(value)),
        sum: n_shown(value)?,
    })
}

fn none_told() -> Tally
    ensures { result ≡ none_told }
{
    Tally {
        responses: 0,
        events: 0,
        stops: 0,
        sum: 0,
    }
}

fn with_told(a: Tally, b: Tally) -> Result<Tally, NoMemory>
    ensures { IfOk result (λ both. both ≡ with_told a b) }
{
    Ok(Tally {
        responses: plus(a.responses, b.responses)?,
        events: plus(a.events, b.events)?,
        stops: plus(a.stops, b.stops)?,
        sum: plus(a.sum, b.sum)?,
    })
}

/// A sum, where it has room.
pub(crate) fn plus(a: u64, b: u64) -> Result<u64, NoMemory>
    ensures { IfOk result (λ sum. sum ≡ a + b) }
{
    match a.checked_add(b) {
        Some(sum) => Ok(sum),
        None => Err(NoMemory),
    }
}

fn one_if(so: bool) -> u64
    ensures { result ≡ one_if so }
{
    if so { 1 } else { 0 }
}
