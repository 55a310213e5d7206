//! What becomes of a look-up that is done.
ghost use Rattle.std.specs.Prelude.{◌≡◌, ◌∷◌, [], IfOk};
ghost use Rattle.machine_model.specs.Lookups.{classes_of, finished, logged_of, refusal, stops_of};
ghost use Rattle.machine_model.specs.Lookups.{text_of, valued_by, write_parts};
ghost use Rattle.session_facts.specs.Numbering.{stop_of};
ghost use Rattle.machine_model.specs.Plans.{gave, refused};
ghost use Rattle.machine_model.specs.declared.parts.Choice.TheVariants.{Decides};
ghost use Rattle.machine_model.specs.declared.parts.Event.TheVariants.{Stopped as a_stop};
ghost use Rattle.machine_model.specs.declared.parts.Part.TheVariants as parts;
ghost use Rattle.machine_model.specs.declared.parts.Part.TheVariants.{Unfolds as some_choice};
ghost use Rattle.machine_model.specs.declared.parts.StopCause.TheVariants.{Exception as by_exception};

use crate::rows::failing;
use dap_messages::Failure;
use jdwp_values::{ClassId, ThreadId};
use machine_model::{
    Body, Choice, Deed, Event, Finding, Lookup, Note, Outcome, Part, StopCause, Stopping, Strike,
    Texts,
};
use session_facts::{Numbers, body_of, shown_by};
use std::alloc::Global;
use std::collections::VecDeque;
use talk_state::State;
use wire_core::{List, NoMemory, Text};

/// The failure of a request whose question or effect was refused with an error (JDWP, Error Constants, INVALID_THREAD).
pub(crate) fn refusal(code: u16) -> Failure
    ensures { result ≡ refusal code }
{
    if code == 10 {
        Failure::unknown_thread()
    } else {
        Failure::target_error(code)
    }
}

// The classes that were found.
fn classes_of(alloc: Global, finding: Finding) -> List<ClassId>
    ensures { result ≡ classes_of (gave finding) }
{
    match finding {
        Finding::Threads(_) => List::new(alloc),
        Finding::Frames { .. } => List::new(alloc),
        Finding::Variables(_) => List::new(alloc),
        Finding::Value(_) => List::new(alloc),
        Finding::NoValue(_) => List::new(alloc),
        Finding::Write { .. } => List::new(alloc),
        Finding::ExceptionText(_) => List::new(alloc),
        Finding::Exception { .. } => List::new(alloc),
        Finding::Hits { .. } => List::new(alloc),
        Finding::Classes(classes) => classes,
    }
}

// The text that was found.
fn text_of(finding: Finding) -> Option<Text>
    ensures { result ≡ text_of (gave finding) }
{
    match finding {
        Finding::Threads(_) => None,
        Finding::Frames { .. } => None,
        Finding::Variables(_) => None,
        Finding::Value(_) => None,
        Finding::NoValue(_) => None,
        Finding::Write { .. } => None,
        Finding::ExceptionText(text) => text,
        Finding::Exception { .. } => None,
        Finding::Hits { .. } => None,
        Finding::Classes(_) => None,
    }
}

// A thread threw something whose type has this name, where that is known (DAP specification, Events, Stopped, text).
fn told_thrown(thread: ThreadId, text: Option<Text>) -> Part
    ensures { result ≡ parts.Tells (a_stop (record { cause = by_exception text; thread = thread })) }
{
    Part::Tells(Event::Stopped(Stopping {
        cause: StopCause::Exception(text),
        thread,
    }))
}

// A value, unless there is none.
fn valued_by(alloc: Global, numbers: &Numbers, finding: Finding) -> Result<Outcome, NoMemory>
    ensures { IfOk result (λ outcome. outcome ≡ valued_by (stop_of numbers.now) finding) }
{
    match finding {
        Finding::NoValue(failure) => Ok(Outcome::Failure(failure)),
        finding => shown_by(alloc, numbers, body_of(finding)),
    }
}

// A value is written, and by the reply it is decided how it goes on; unless there is none to write.
fn write_parts(alloc: Global, finding: Finding) -> Result<VecDeque<Part>, NoMemory>
    ensures { IfOk result (λ parts. parts.items ≡ write_parts finding) }
{
    match finding {
        Finding::Write { write, seen } => Ok(VecDeque::from_array(
            alloc,
            [
                Part::Sends(Deed::Writes(write)),
                Part::Unfolds(Choice::Written(seen)),
            ],
        )?),
        Finding::NoValue(failure) => failing(alloc, failure),
        _ => Ok(VecDeque::from_array(alloc, [Part::Responds(Outcome::Success(Body::Nothing))])?),
    }
}

// It is decided on the composite in hand, by what is logged and what stops.
fn decides(alloc: Global, logged: Texts, stops: List<Strike>) -> Result<VecDeque<Part>, NoMemory>
    ensures { IfOk result (λ parts. parts.items ≡ some_choice (Decides logged stops) ∷ []) }
{
    Ok(VecDeque::from_array(alloc, [Part::Unfolds(Choice::Decides { logged, stops })])?)
}

// Nothing is logged, and nothing stops.
fn none_stops(alloc: Global) -> Result<VecDeque<Part>, NoMemory>
    ensures { IfOk result (λ parts. parts.items ≡ some_choice (Decides [] []) ∷ []) }
{
    decides(alloc, Texts::new(alloc), List::new(alloc))
}

// Breakpoints were judged.
fn judged_parts(alloc: Global, finding: Finding) -> Result<VecDeque<Part>, NoMemory>
    ensures { IfOk result (λ parts. parts.items
        ≡ some_choice (Decides (logged_of (gave finding)) (stops_of (gave finding))) ∷ []) }
{
    match finding {
        Finding::Hits {
            passed: _,
            logged,
            stops,
        } => decides(alloc, logged, stops),
        _ => none_stops(alloc),
    }
}

/// The parts that a look-up becomes that found something. `NoMemory` comes where memory is refused (DAP specification,
/// Requests).
pub fn found_parts(
    alloc: Global,
    lookup: &Lookup,
    finding: Finding,
    state: &State,
) -> Result<VecDeque<Part>, NoMemory>
    ensures { IfOk result (λ parts. parts.items ≡ finished lookup.now (gave finding) state.now) }
{
    match lookup {
        Lookup::Threads => Ok(VecDeque::from_array(
            alloc,
            [Part::Responds(Outcome::Success(body_of(finding)))],
        )?),
        Lookup::Frames { .. } => Ok(VecDeque::from_array(
            alloc,
            [Part::Responds(shown_by(alloc, &state.numbers, body_of(finding))?)],
        )?),
        Lookup::Variables { .. } => Ok(VecDeque::from_array(
            alloc,
            [Part::Responds(shown_by(alloc, &state.numbers, body_of(finding))?)],
        )?),
        Lookup::Value { .. } => Ok(VecDeque::from_array(
            alloc,
            [Part::Responds(valued_by(alloc, &state.numbers, finding)?)],
        )?),
        Lookup::Write { .. } => write_parts(alloc, finding),
        Lookup::ExceptionText { thread, .. } => Ok(VecDeque::from_array(
            alloc,
            [told_thrown(*thread, text_of(finding))],
        )?),
        Lookup::Exception(_) => Ok(VecDeque::from_array(
            alloc,
            [Part::Responds(Outcome::Success(body_of(finding)))],
        )?),
        Lookup::Hits(_) => judged_parts(alloc, finding),
        Lookup::Classes => Ok(VecDeque::from_array(
            alloc,
            [Part::Notes(Note::Classes(classes_of(alloc, finding)))],
        )?),
    }
}

/// The parts that a look-up becomes that was refused with an error. `NoMemory` comes where memory is refused (JDWP, Error
/// Constants).
pub fn refused_parts(
    alloc: Global,
    lookup: &Lookup,
    code: u16,
    state: &State,
) -> Result<VecDeque<Part>, NoMemory>
    ensures { IfOk result (λ parts. parts.items ≡ finished lookup.now (refused code) state.now) }
{
    match lookup {
        Lookup::Threads => Ok(VecDeque::from_array(
            alloc,
            [Part::Responds(Outcome::Failure(refusal(code)))],
        )?),
        Lookup::Frames { .. } => Ok(VecDeque::from_array(
            alloc,
            [Part::Responds(Outcome::Failure(refusal(code)))],
        )?),
        Lookup::Variables { .. } => Ok(VecDeque::from_array(
            alloc,
            [Part::Responds(Outcome::Failure(refusal(code)))],
        )?),
        Lookup::Value { .. } => failing(alloc, refusal(code)),
        Lookup::Write { .. } => failing(alloc, refusal(code)),
        Lookup::ExceptionText { thread, .. } => {
            Ok(VecDeque::from_array(alloc, [told_thrown(*thread, None)])?)
        }
        Lookup::Exception(_) => Ok(VecDeque::from_array(
            alloc,
            [Part::Responds(Outcome::Failure(refusal(code)))],
        )?),
        Lookup::Hits(_) => none_stops(alloc),
        Lookup::Classes => Ok(VecDeque::from_array(
            alloc,
            [Part::Notes(Note::Classes(List::new(alloc)))],
        )?),
    }
}
