//! What the requests do that let the target run on, or have it stand still.
ghost use Rattle.std.specs.Prelude.{◌≡◌, IfOk};
ghost use Rattle.machine_model.specs.Rows.{configured_parts, continue_parts, pause_parts, paused_parts, stack_parts};
ghost use Rattle.machine_model.specs.Rows.{thread_with};

use crate::rows::failing;
use dap_messages::{Failure, StackTraceArguments, ThreadArguments};
use jdwp_values::ThreadId;
use machine_model::{
    Body, Deed, Event, Lookup, Note, Outcome, Part, StopCause, Stopping, Suspension,
};
use std::alloc::Global;
use std::collections::VecDeque;
use talk_state::State;
use wire_core::NoMemory;

/// The client has configured all: the target's entry, where it is held, is held no longer (DAP specification,
/// ConfigurationDone request; JDWP, VirtualMachine command set, Resume).
pub(crate) fn configured_row(alloc: Global, entry: bool) -> Result<VecDeque<Part>, NoMemory>
    ensures { IfOk result (λ parts. parts.items ≡ configured_parts entry) }
{
    let noted = Part::Notes(Note::Configured);
    let response = Part::Responds(Outcome::Success(Body::Nothing));
    if !entry {
        return Ok(VecDeque::from_array(alloc, [noted, response])?);
    }
    Ok(VecDeque::from_array(
        alloc,
        [
            Part::Sends(Deed::Resume(Suspension::Entry)),
            noted,
            response,
        ],
    )?)
}

// The stop is over, and the whole target runs on, where the thread is known.
fn continue_parts(alloc: Global, thread: Option<ThreadId>) -> Result<VecDeque<Part>, NoMemory>
    ensures { IfOk result (λ parts. parts.items ≡ continue_parts thread) }
{
    match thread {
        None => failing(alloc, Failure::unknown_thread()),
        Some(_) => Ok(VecDeque::from_array(
            alloc,
            [
                Part::Sends(Deed::Resume(Suspension::Stop)),
                Part::Responds(Outcome::Success(Body::Continued)),
            ],
        )?),
    }
}

/// The stop is over, and the whole target runs on (DAP specification, Continue request; JDWP, VirtualMachine command
/// set, Resume).
pub(crate) fn continue_row(
    alloc: Global,
    arguments: ThreadArguments,
    state: &State,
) -> Result<VecDeque<Part>, NoMemory>
    ensures { IfOk result (λ parts. parts.items
        ≡ continue_parts (thread_with state.now.threads arguments.thread_id)) }
{
    continue_parts(alloc, state.threads.with_number(arguments.thread_id))
}

// The whole target is suspended, for a stop that is told of this thread, and a step that is in flight is cleared; in a
// stop nothing has to be done.
fn paused_parts(alloc: Global, stopped: bool, thread: ThreadId) -> Result<VecDeque<Part>, NoMemory>
    ensures { IfOk result (λ parts. parts.items ≡ paused_parts stopped thread) }
{
    let response = Part::Responds(Outcome::Success(Body::Nothing));
    if stopped {
        return Ok(VecDeque::from_array(alloc, [response])?);
    }
    let stopping = Stopping {
        cause: StopCause::Pause,
        thread,
    };
    Ok(VecDeque::from_array(
        alloc,
        [
            Part::Sends(Deed::Suspend),
            Part::Notes(Note::Step(None)),
            Part::Updates,
            response,
            Part::Tells(Event::Stopped(stopping)),
        ],
    )?)
}

fn pause_parts(
    alloc: Global,
    stopped: bool,
    thread: Option<ThreadId>,
) -> Result<VecDeque<Part>, NoMemory>
    ensures { IfOk result (λ parts. parts.items ≡ pause_parts stopped thread) }
{
    match thread {
        None => failing(alloc, Failure::unknown_thread()),
        Some(thread) => paused_parts(alloc, stopped, thread),
    }
}

/// The whole target is suspended, for a stop (DAP specification, Pause request; JDWP, VirtualMachine command set,
/// Suspend).
pub(crate) fn pause_row(
    alloc: Global,
    arguments: ThreadArguments,
    state: &State,
) -> Result<VecDeque<Part>, NoMemory>
    ensures { IfOk result (λ parts. parts.items
        ≡ pause_parts state.now.stopped (thread_with state.now.threads arguments.thread_id)) }
{
    pause_parts(
        alloc,
        state.is_stopped(),
        state.threads.with_number(arguments.thread_id),
    )
}

fn stack_parts(
    alloc: Global,
    thread: Option<ThreadId>,
    arguments: StackTraceArguments,
) -> Result<VecDeque<Part>, NoMemory>
    ensures { IfOk result (λ parts. parts.items ≡ stack_parts thread arguments) }
{
    match thread {
        None => failing(alloc, Failure::unknown_thread()),
        Some(thread) => {
            let lookup = Lookup::Frames {
                thread,
                start: arguments.start_frame,
                levels: arguments.levels,
            };
            Ok(VecDeque::from_array(alloc, [Part::Looks(lookup)])?)
        }
    }
}

/// The frames of a thread are looked up, where the thread is known (DAP specification, StackTrace request).
pub(crate) fn stack_row(
    alloc: Global,
    arguments: StackTraceArguments,
    state: &State,
) -> Result<VecDeque<Part>, NoMemory>
    ensures { IfOk result (λ parts. parts.items
        ≡ stack_parts (thread_with state.now.threads arguments.thread_id) arguments) }
{
    stack_parts(
        alloc,
        state.threads.with_number(arguments.thread_id),
        arguments,
    )
}
