//! What the client is told, with numbers in place of the target's ids.
ghost use Rattle.std.specs.Prelude.{◌≡◌, IfOk, OnOk, map};
ghost use Rattle.std.specs.List.{list_any};
ghost use Rattle.machine_model.specs.Breakpoints.{breakpoint_told, with_told};
ghost use Rattle.machine_model.specs.State.{State as AState};
ghost use Rattle.machine_model.specs.Telling.{body_told, event_told, hit_told, numbered, numbered_by, outcome_told};
ghost use Rattle.machine_model.specs.Telling.{reason_told, response_to, thread_told, with_threads};
ghost use Rattle.machine_model.specs.declared.parts.Body.TheVariants.{StackFrames};
ghost use Rattle.machine_model.specs.declared.parts.Event.TheVariants.{Stopped as a_stop};

use dap_messages::{
    Breakpoint, Event as EventTold, Outcome as OutcomeTold, Request, Response, Shape, StopReason,
    Stopped, Thread, Told,
};
use jdwp_values::lossy;
use machine_model::{
    Body, Event, ListedBreakpoint, NamedThread, Outcome, ShownFrame, StopCause, Stopping,
};
use session_facts::{
    BoundIds, ThreadNumbers, frames_told, scope_told, value_told, variables_told, written_told,
};
use std::alloc::Global;
use talk_events::news_told;
use talk_rows::breakpoint_told;
use talk_state::State;
use wire_core::{List, NoMemory, Text};
use wish_sets::{EntryAt, Wishes};

fn add_threads(threads: &mut ThreadNumbers, named: &[NamedThread]) -> Result<(), NoMemory>
    ensures { OnOk result (threads.new ≡ with_threads threads.old named.now) }
{
    for first in named {
        threads.add(first.thread)?;
    }
    Ok(())
}

// The client knows of those that are told to be verified.
fn add_told(bound: &mut BoundIds, told: &[Breakpoint]) -> Result<(), NoMemory>
    ensures { OnOk result (bound.new ≡ with_told bound.old told.now) }
{
    for breakpoint in told {
        bound.add_told(*breakpoint)?;
    }
    Ok(())
}

fn threads_told(
    alloc: Global,
    threads: &ThreadNumbers,
    named: &[NamedThread],
) -> Result<List<Thread>, NoMemory>
    ensures { IfOk result (λ told. told ≡ map (thread_told threads.now) named.now) }
{
    let mut told = List::new(alloc);
    for first in named {
        told.push(Thread {
            id: threads.number(first.thread),
            name: lossy(alloc, first.name.as_slice())?,
        })?;
    }
    Ok(told)
}

fn breakpoints_told(
    alloc: Global,
    rooted: bool,
    wishes: &Wishes,
    listed: &[ListedBreakpoint],
) -> Result<List<Breakpoint>, NoMemory>
    ensures { IfOk result (λ told. told ≡ map (breakpoint_told rooted wishes.now) listed.now) }
{
    let mut told = List::new(alloc);
    for breakpoint in listed {
        told.push(breakpoint_told(rooted, wishes, breakpoint))?;
    }
    Ok(told)
}

// How frames are told, once they have their numbers.
fn stack_told(
    alloc: Global,
    total: u32,
    frames: &[ShownFrame],
    state: &mut State,
) -> Result<Shape, NoMemory>
    ensures told { IfOk result (λ shape. shape
        ≡ body_told (StackFrames total frames.now) (numbered (StackFrames total frames.now) state.old)) }
    ensures numbered { OnOk result (state.new ≡ numbered (StackFrames total frames.now) state.old) }
{
    let told = frames_told(alloc, state.options, &mut state.numbers, frames)?;
    Ok(Shape::StackFrames {
        frames: told,
        total,
    })
}

// How a body is told, once its threads have their numbers; the client knows of its breakpoints from there on.
fn body_told(alloc: Global, body: &Body, state: &mut State) -> Result<Shape, NoMemory>
    ensures told { IfOk result (λ shape. shape ≡ body_told body.now (numbered body.now state.old)) }
    ensures numbered { OnOk result (state.new ≡ numbered body.now state.old) }
{
    match body {
        Body::Nothing => Ok(Shape::Nothing),
        Body::Capabilities => Ok(Shape::Capabilities),
        Body::Breakpoints { rooted, listed } => {
            let told = breakpoints_told(alloc, *rooted, &state.wishes, listed.as_slice())?;
            state.told = false;
            add_told(&mut state.bound, told.as_slice())?;
            Ok(Shape::Breakpoints(told))
        }
        Body::Continued => Ok(Shape::Continued),
        Body::StackFrames { total, frames } => stack_told(alloc, *total, frames.as_slice(), state),
        Body::Scopes(frame) => Ok(Shape::Scopes(scope_told(&mut state.numbers, *frame)?)),
        Body::Exception { id, mode } => Ok(Shape::ExceptionInfo {
            id: Text::from_str(alloc, id.as_str())?,
            mode: *mode,
        }),
        Body::Variables(shown) => {
            let told = variables_told(alloc, &mut state.numbers, shown.as_slice())?;
            Ok(Shape::Variables(told))
        }
        Body::Value(seen) => Ok(Shape::Evaluated(value_told(alloc, &mut state.numbers, seen)?)),
        Body::Written(seen) => Ok(Shape::Written(written_told(alloc, seen)?)),
        Body::Threads(named) => {
            add_threads(&mut state.threads, named.as_slice())?;
            Ok(Shape::Threads(threads_told(alloc, &state.threads, named.as_slice())?))
        }
    }
}

/// How an outcome is told, once its threads have their numbers; the client knows of its breakpoints from there on.
/// `NoMemory` comes where memory is refused (DAP specification, Base Protocol, Response).
pub fn outcome_told(
    alloc: Global,
    outcome: Outcome,
    state: &mut State,
) -> Result<OutcomeTold, NoMemory>
    ensures told { IfOk result (λ told. told ≡ outcome_told outcome state.old) }
    ensures numbered { OnOk result (state.new ≡ numbered_by outcome state.old) }
{
    match outcome {
        Outcome::Success(body) => Ok(OutcomeTold::Success(body_told(alloc, &body, state)?)),
        Outcome::Failure(failure) => Ok(OutcomeTold::Failure(failure)),
    }
}

/// The response to a request: its sequence number and its command come back. `NoMemory` comes where memory is refused
/// (DAP specification, Base Protocol, Response).
pub fn response_to(alloc: Global, request: &Request, outcome: OutcomeTold) -> Result<Told, NoMemory>
    ensures { IfOk result (λ told. told ≡ response_to request.now outcome) }
{
    Ok(Told::Response(Response {
        request_seq: request.seq,
        command: Text::from_str(alloc, request.name.as_str())?,
        outcome,
    }))
}

fn entry_ids(alloc: Global, entries: &[EntryAt]) -> Result<List<u64>, NoMemory>
    ensures { IfOk result (λ ids. ids ≡ map (λ entry. entry.id) entries.now) }
{
    let mut ids = List::new(alloc);
    for entry in entries {
        ids.push(entry.id)?;
    }
    Ok(ids)
}

// Whether one of these breakpoints is of a source (DAP specification, SetBreakpoints request).
fn has_line(entries: &[EntryAt]) -> bool
    ensures { result ≡ list_any (λ entry. entry.line) entries.now }
{
    entries.iter().any(|entry| entry.line)
}

// A hit is told with the breakpoints that stop there (DAP specification, Events, Stopped, hitBreakpointIds).
fn hit_told(alloc: Global, entries: &[EntryAt]) -> Result<StopReason, NoMemory>
    ensures { IfOk result (λ reason. reason ≡ hit_told entries.now) }
{
    let ids = entry_ids(alloc, entries)?;
    if has_line(entries) {
        return Ok(StopReason::Breakpoint(ids));
    }
    Ok(StopReason::FunctionBreakpoint(ids))
}

fn reason_told(alloc: Global, cause: StopCause) -> Result<StopReason, NoMemory>
    ensures { (state : AState) → IfOk result (λ reason. reason ≡ reason_told cause state) }
{
    match cause {
        StopCause::Hit(entries) => hit_told(alloc, entries.as_slice()),
        StopCause::Exception(text) => Ok(StopReason::Exception(text)),
        StopCause::Step => Ok(StopReason::Step),
        StopCause::Pause => Ok(StopReason::Pause),
    }
}

// How a stop is told: its thread by its number (DAP specification, Events, Stopped).
fn stop_told(alloc: Global, stopping: Stopping, state: &State) -> Result<EventTold, NoMemory>
    ensures { IfOk result (λ told. told ≡ event_told (a_stop stopping) state.now) }
{
    Ok(EventTold::Stopped(Stopped {
        reason: reason_told(alloc, stopping.cause)?,
        thread: state.threads.number(stopping.thread),
    }))
}

/// How an event is told. `NoMemory` comes where memory is refused (DAP specification, Events).
pub fn event_told(alloc: Global, event: Event, state: &State) -> Result<EventTold, NoMemory>
    ensures { IfOk result (λ told. told ≡ event_told event state.now) }
{
    match event {
        Event::Initialized => Ok(EventTold::Initialized),
        Event::News(news) => Ok(news_told(news, state)),
        Event::Stopped(stopping) => stop_told(alloc, stopping, state),
        Event::Logged(text) => Ok(EventTold::Output(text)),
        Event::Terminated => Ok(EventTold::Terminated),
    }
}
