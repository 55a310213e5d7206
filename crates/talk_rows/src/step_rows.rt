//! What the requests do that step, and those of exceptions.
ghost use Rattle.std.specs.Prelude.{◌≡◌, IfOk, option_and_then};
ghost use Rattle.machine_model.specs.Rows.{code_in, exception_parts, exceptions_parts, refused_with, step_parts};
ghost use Rattle.machine_model.specs.Rows.{stepped_by, stepped_thread, thread_there, thread_with, thrown_first};

use crate::found::refusal;
use crate::rows::failing;
use dap_messages::{Failure, SetExceptionBreakpointsArguments, ThreadArguments};
use jdwp_commands::Replied;
use jdwp_values::ThreadId;
use machine_model::{Body, Choice, Deed, Doing, Lookup, Note, Outcome, Part, Suspension, Thrown};
use std::alloc::Global;
use std::collections::VecDeque;
use talk_state::State;
use wire_core::NoMemory;
use wish_sets::{Depth, StepWish};

/// Which exceptions stop a thread is written down, and their event request is cleared and set. `NoMemory` comes where
/// memory is refused (DAP specification, SetExceptionBreakpoints request).
pub(crate) fn exceptions_row(
    alloc: Global,
    arguments: SetExceptionBreakpointsArguments,
) -> Result<VecDeque<Part>, NoMemory>
    ensures { IfOk result (λ parts. parts.items ≡ exceptions_parts arguments.caught arguments.uncaught) }
{
    let noted = Note::Exceptions {
        caught: arguments.caught,
        uncaught: arguments.uncaught,
    };
    Ok(VecDeque::from_array(
        alloc,
        [
            Part::Notes(noted),
            Part::Updates,
            Part::Responds(Outcome::Success(Body::Nothing)),
        ],
    )?)
}

// The event request of a step is set, where the thread is known; by the reply it is decided how the step goes on.
fn step_parts(
    alloc: Global,
    depth: Depth,
    thread: Option<ThreadId>,
) -> Result<VecDeque<Part>, NoMemory>
    ensures { IfOk result (λ parts. parts.items ≡ step_parts depth thread) }
{
    match thread {
        None => failing(alloc, Failure::unknown_thread()),
        Some(thread) => Ok(VecDeque::from_array(
            alloc,
            [
                Part::Notes(Note::Step(Some(StepWish { thread, depth }))),
                Part::Updates,
                Part::Unfolds(Choice::Stepped),
            ],
        )?),
    }
}

// No thread has the id 0, and a step of it may end the target's process.
fn thread_there(thread: ThreadId) -> Option<ThreadId>
    ensures { result ≡ thread_there thread }
{
    if thread.0 == 0 { None } else { Some(thread) }
}

// The thread of a number that can step.
fn stepped_thread(state: &State, number: u32) -> Option<ThreadId>
    ensures { result ≡ stepped_thread state.now number }
{
    thread_there(state.threads.with_number(number)?)
}

/// A step of a thread. `NoMemory` comes where memory is refused (DAP specification, Next, StepIn and StepOut requests;
/// JDWP, EventRequest command set, Set, Step).
pub(crate) fn step_row(
    alloc: Global,
    depth: Depth,
    arguments: ThreadArguments,
    state: &State,
) -> Result<VecDeque<Part>, NoMemory>
    ensures { IfOk result (λ parts. parts.items ≡ step_parts depth (stepped_thread state.now arguments.thread_id)) }
{
    step_parts(alloc, depth, stepped_thread(state, arguments.thread_id))
}

// The error in a reply.
fn code_in(replied: &Replied) -> Option<u16>
    ensures { result ≡ code_in (Some replied.now) }
{
    match replied {
        Replied::Answer(_) => None,
        Replied::Error(code) => Some(*code),
    }
}

/// The error that the last effect was refused with (JDWP, JDWP Packets, reply packet).
pub fn refused_with(effect: &Option<Doing>) -> Option<u16>
    ensures { result ≡ refused_with effect.now }
{
    match effect {
        None => None,
        Some(doing) => match &doing.reply {
            None => None,
            Some(replied) => code_in(replied),
        },
    }
}

/// Once the event request of a step is set the stop is over, and the whole target runs on; where it was refused the
/// request fails, and the stop goes on. `NoMemory` comes where memory is refused (JDWP, VirtualMachine command set,
/// Resume).
pub fn stepped_by(alloc: Global, code: Option<u16>) -> Result<VecDeque<Part>, NoMemory>
    ensures { IfOk result (λ parts. parts.items ≡ stepped_by code) }
{
    match code {
        None => Ok(VecDeque::from_array(
            alloc,
            [
                Part::Sends(Deed::Resume(Suspension::Stop)),
                Part::Responds(Outcome::Success(Body::Nothing)),
            ],
        )?),
        Some(code) => Ok(VecDeque::from_array(
            alloc,
            [
                Part::Notes(Note::Step(None)),
                Part::Updates,
                Part::Responds(Outcome::Failure(refusal(code))),
            ],
        )?),
    }
}

// What a thread threw first in the stop.
fn thrown_first(thrown: &[Thrown], thread: ThreadId) -> Option<Thrown>
    ensures { result ≡ thrown_first thrown.now thread }
{
    for one in thrown {
        if one.thread.0 == thread.0 {
            return Some(*one);
        }
    }
    None
}

fn exception_parts(alloc: Global, thrown: Option<Thrown>) -> Result<VecDeque<Part>, NoMemory>
    ensures { IfOk result (λ parts. parts.items ≡ exception_parts thrown) }
{
    match thrown {
        None => failing(alloc, Failure::unknown_thread()),
        Some(thrown) => Ok(VecDeque::from_array(alloc, [Part::Looks(Lookup::Exception(thrown))])?),
    }
}

// What the thread of a number threw first in the stop.
fn thrown_by(state: &State, number: u32) -> Option<Thrown>
    ensures { result ≡ option_and_then (thrown_first state.now.thrown) (thread_with state.now.threads number) }
{
    let thread = state.threads.with_number(number)?;
    thrown_first(state.thrown.as_slice(), thread)
}

/// The type of what a thread threw is looked up, where it threw something in the stop in hand. `NoMemory` comes where
/// memory is refused (DAP specification, ExceptionInfo request).
pub(crate) fn exception_row(
    alloc: Global,
    arguments: ThreadArguments,
    state: &State,
) -> Result<VecDeque<Part>, NoMemory>
    ensures { IfOk result (λ parts. parts.items
        ≡ exception_parts (option_and_then (thrown_first state.now.thrown)
        (thread_with state.now.threads arguments.thread_id))) }
{
    exception_parts(alloc, thrown_by(state, arguments.thread_id))
}
