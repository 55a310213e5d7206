//! What each item does, part by part.
ghost use Rattle.std.specs.Prelude.{◌≡◌, ◌∷◌, ◌||◌, [], List as Parts, IfOk};
ghost use Rattle.machine_model.specs.Lookups.{lookup_responds};
ghost use Rattle.machine_model.specs.Rows.{choice_responds, end_parts, failure_of, gone_parts, gone_row, gone_tail};
ghost use Rattle.machine_model.specs.Rows.{has_response, if_attached, if_stopped, is_response, options_of, parts_of};
ghost use Rattle.machine_model.specs.Rows.{request_parts, row_of, unless_attached, unless_stopped, wanting};
ghost use Rattle.machine_model.specs.declared.parts.Outcome.TheVariants.{Failure as Failed};
ghost use Rattle.talk_rows.specs.Attaching.{attach_parts, disconnect_parts};
ghost use Rattle.machine_model.specs.declared.parts.Part.TheVariants.{Responds};

use crate::breakpoints::breakpoints_row;
use crate::function_rows::functions_row;
use crate::run_rows::{configured_row, continue_row, pause_row, stack_row};
use crate::step_rows::{exception_row, exceptions_row, step_row};
use crate::variable_rows::{evaluate_row, scopes_row, variables_row, write_row};
use dap_messages::{Command, Failure, InitializeArguments};
use machine_model::{
    Body, Choice, ClientOptions, Event, Finish, Guard, Item, Lookup, Note, Outcome, Part, Phase,
};
use session_facts::{composite_parts, has_death, text_copies};
use std::alloc::Global;
use std::collections::VecDeque;
use talk_state::State;
use wire_core::{NoMemory, Text};
use wish_sets::Depth;

fn options_of(arguments: &InitializeArguments) -> ClientOptions
    ensures { result ≡ options_of arguments.now }
{
    ClientOptions {
        lines_from_one: arguments.lines_start_at1,
        columns_from_one: arguments.columns_start_at1,
        shows_types: arguments.supports_variable_type,
    }
}

fn attach_row(alloc: Global, roots: &[Text]) -> Result<VecDeque<Part>, NoMemory>
    ensures { IfOk result (λ parts. parts.items
        ≡ attach_parts roots.now) }
{
    Ok(VecDeque::from_array(
        alloc,
        [
            Part::Notes(Note::Roots(text_copies(alloc, roots)?)),
            Part::Awaits(Guard::Handshake),
            Part::Awaits(Guard::IdSizes),
            Part::Updates,
            Part::Responds(Outcome::Success(Body::Nothing)),
            Part::Tells(Event::Initialized),
        ],
    )?)
}

fn disconnect_row(alloc: Global, exits: bool) -> Result<VecDeque<Part>, NoMemory>
    ensures { IfOk result (λ parts. parts.items ≡ disconnect_parts exits) }
{
    Ok(VecDeque::from_array(
        alloc,
        [
            Part::Unfolds(Choice::Leaves(exits)),
            Part::Responds(Outcome::Success(Body::Nothing)),
            Part::Ends(Finish::Done),
        ],
    )?)
}

/// A request fails.
pub(crate) fn failing(alloc: Global, failure: Failure) -> Result<VecDeque<Part>, NoMemory>
    ensures { IfOk result (λ parts. parts.items ≡ Responds (Failed failure) ∷ []) }
{
    Ok(VecDeque::from_array(alloc, [Part::Responds(Outcome::Failure(failure))])?)
}

// What a request does that doesn't fail beforehand.
fn row_of(alloc: Global, command: &Command, state: &State) -> Result<VecDeque<Part>, NoMemory>
    ensures { IfOk result (λ parts. parts.items ≡ row_of command.now state.now) }
{
    match command {
        Command::Initialize(arguments) => Ok(VecDeque::from_array(
            alloc,
            [
                Part::Responds(Outcome::Success(Body::Capabilities)),
                Part::Notes(Note::Options(options_of(arguments))),
            ],
        )?),
        Command::Attach(arguments) => attach_row(alloc, arguments.source_roots.as_slice()),
        Command::ConfigurationDone => configured_row(alloc, state.entry),
        Command::SetBreakpoints(arguments) => breakpoints_row(alloc, arguments, state),
        Command::SetFunctionBreakpoints(arguments) => functions_row(alloc, arguments, state),
        Command::SetExceptionBreakpoints(arguments) => exceptions_row(alloc, *arguments),
        Command::Threads => Ok(VecDeque::from_array(alloc, [Part::Looks(Lookup::Threads)])?),
        Command::Continue(arguments) => continue_row(alloc, *arguments, state),
        Command::Next(arguments) => step_row(alloc, Depth::Over, *arguments, state),
        Command::StepIn(arguments) => step_row(alloc, Depth::Into, *arguments, state),
        Command::StepOut(arguments) => step_row(alloc, Depth::Out, *arguments, state),
        Command::Pause(arguments) => pause_row(alloc, *arguments, state),
        Command::ExceptionInfo(arguments) => exception_row(alloc, *arguments, state),
        Command::StackTrace(arguments) => stack_row(alloc, *arguments, state),
        Command::Scopes(arguments) => scopes_row(alloc, *arguments, state),
        Command::Variables(arguments) => variables_row(alloc, *arguments, state),
        Command::SetVariable(arguments) => write_row(alloc, arguments, state),
        Command::Evaluate(arguments) => evaluate_row(alloc, arguments, state),
        Command::Disconnect(arguments) => disconnect_row(alloc, arguments.terminate_debuggee),
        Command::Unsupported => failing(alloc, Failure::unsupported()),
        Command::BadArguments(name) => {
            let name = Text::from_str(alloc, name.as_str())?;
            failing(alloc, Failure::bad_arguments(name))
        }
    }
}

// A session is attached once.
fn unless_attached(phase: Phase) -> Option<Failure>
    ensures { result ≡ unless_attached phase }
{
    match phase {
        Phase::Fresh => None,
        Phase::Attached => Some(Failure::already_attached()),
        Phase::Gone => Some(Failure::target_gone()),
    }
}

// What asks the target needs one.
fn if_attached(phase: Phase) -> Option<Failure>
    ensures { result ≡ if_attached phase }
{
    match phase {
        Phase::Fresh => Some(Failure::not_attached()),
        Phase::Attached => None,
        Phase::Gone => Some(Failure::target_gone()),
    }
}

fn unless_stopped(stopped: bool) -> Option<Failure>
    ensures { result ≡ unless_stopped stopped }
{
    if stopped {
        return None;
    }
    Some(Failure::not_stopped())
}

// What lets the target run on needs a stop.
fn if_stopped(stopped: bool, phase: Phase) -> Option<Failure>
    ensures { result ≡ if_stopped stopped phase }
{
    match phase {
        Phase::Fresh => Some(Failure::not_attached()),
        Phase::Attached => unless_stopped(stopped),
        Phase::Gone => Some(Failure::target_gone()),
    }
}

// The failure that is known before anything is done.
fn failure_of(command: &Command, state: &State) -> Option<Failure>
    ensures { result ≡ failure_of (wanting command.now) state.now }
{
    match command {
        Command::Initialize(_) => None,
        Command::Attach(_) => unless_attached(state.phase),
        Command::ConfigurationDone => if_attached(state.phase),
        Command::SetBreakpoints(_) => if_attached(state.phase),
        Command::SetFunctionBreakpoints(_) => if_attached(state.phase),
        Command::SetExceptionBreakpoints(_) => if_attached(state.phase),
        Command::Threads => if_attached(state.phase),
        Command::Continue(_) => if_stopped(state.is_stopped(), state.phase),
        Command::Next(_) => if_stopped(state.is_stopped(), state.phase),
        Command::StepIn(_) => if_stopped(state.is_stopped(), state.phase),
        Command::StepOut(_) => if_stopped(state.is_stopped(), state.phase),
        Command::Pause(_) => if_attached(state.phase),
        Command::ExceptionInfo(_) => if_stopped(state.is_stopped(), state.phase),
        Command::StackTrace(_) => if_stopped(state.is_stopped(), state.phase),
        Command::Scopes(_) => if_attached(state.phase),
        Command::Variables(_) => if_attached(state.phase),
        Command::SetVariable(_) => if_attached(state.phase),
        Command::Evaluate(_) => if_attached(state.phase),
        Command::Disconnect(_) => None,
        Command::Unsupported => None,
        Command::BadArguments(_) => None,
    }
}

fn request_parts(
    alloc: Global,
    command: &Command,
    state: &State,
) -> Result<VecDeque<Part>, NoMemory>
    ensures { IfOk result (λ parts. parts.items ≡ request_parts command.now state.now) }
{
    match failure_of(command, state) {
        Some(failure) => failing(alloc, failure),
        None => row_of(alloc, command, state),
    }
}

// The client is told that nothing more comes of the target, once.
fn end_parts(alloc: Global, terminated: bool) -> Result<VecDeque<Part>, NoMemory>
    ensures { IfOk result (λ parts. parts.items ≡ end_parts terminated) }
{
    if terminated {
        return Ok(VecDeque::new(alloc));
    }
    Ok(VecDeque::from_array(alloc, [Part::Tells(Event::Terminated)])?)
}

/// What an item does when its turn comes, part by part. `NoMemory` comes where memory is refused, or where the ids of
/// breakpoints have no room (DAP specification, Requests; JDWP, Event command set, Composite).
pub fn parts_of(alloc: Global, state: &State, item: &Item) -> Result<VecDeque<Part>, NoMemory>
    ensures { IfOk result (λ parts. parts.items ≡ parts_of state.now item.now) }
{
    match item {
        Item::Request(request) => request_parts(alloc, &request.command, state),
        Item::Composite { at, composite } => composite_parts(
            alloc,
            state.phase,
            has_death(composite.events.as_slice()),
            composite.policy,
            *at,
            state.next_entry,
        ),
        Item::Raw { .. } => Ok(VecDeque::new(alloc)),
        Item::TargetEnd => end_parts(alloc, state.terminated),
    }
}

fn lookup_responds(lookup: &Lookup) -> bool
    ensures { result ≡ lookup_responds lookup.now }
{
    match lookup {
        Lookup::Threads => true,
        Lookup::Frames { .. } => true,
        Lookup::Variables { .. } => true,
        Lookup::Value { .. } => true,
        Lookup::Write { .. } => true,
        Lookup::ExceptionText { .. } => false,
        Lookup::Exception(_) => true,
        Lookup::Hits(_) => false,
        Lookup::Classes => false,
    }
}

fn choice_responds(choice: &Choice) -> bool
    ensures { result ≡ choice_responds choice.now }
{
    match choice {
        Choice::TellsNews(_) => false,
        Choice::Judges => false,
        Choice::Decides { .. } => false,
        Choice::Stepped => true,
        Choice::Written(_) => true,
        Choice::Leaves(_) => false,
    }
}

fn is_response(part: &Part) -> bool
    ensures { result ≡ is_response part.now }
{
    match part {
        Part::Responds(_) => true,
        Part::Looks(lookup) => lookup_responds(lookup),
        Part::Unfolds(choice) => choice_responds(choice),
        Part::Tells(_) => false,
        Part::Sends(_) => false,
        Part::Awaits(_) => false,
        Part::Updates => false,
        Part::Notes(_) => false,
        Part::Ends(_) => false,
    }
}

/// Whether a part that is left brings the response of its item (DAP specification, Base Protocol, Response).
pub fn has_response(parts: &VecDeque<Part>) -> bool
    ensures { result ≡ has_response parts.now.items }
{
    for place in 0..parts.len() {
        if is_response(&parts[place]) {
            return true;
        }
    }
    false
}

// What is left of a request that has its response.
fn gone_tail(alloc: Global, command: &Command) -> Result<VecDeque<Part>, NoMemory>
    ensures { IfOk result (λ parts. parts.items ≡ gone_tail command.now) }
{
    match command {
        Command::Disconnect(_) => Ok(VecDeque::from_array(alloc, [Part::Ends(Finish::Done)])?),
        _ => Ok(VecDeque::new(alloc)),
    }
}

// What is left of a request that has none.
fn gone_row(alloc: Global, command: &Command) -> Result<VecDeque<Part>, NoMemory>
    ensures { IfOk result (λ parts. parts.items ≡ gone_row command.now) }
{
    match command {
        Command::Disconnect(_) => Ok(VecDeque::from_array(
            alloc,
            [
                Part::Responds(Outcome::Success(Body::Nothing)),
                Part::Ends(Finish::Done),
            ],
        )?),
        _ => failing(alloc, Failure::target_gone()),
    }
}

/// What is left of an item once its target has ended, by whether its response is still to come. `NoMemory` comes where
/// memory is refused (JDWP, Event command set, Composite, VMDeath).
pub fn gone_parts(alloc: Global, responds: bool, item: &Item) -> Result<VecDeque<Part>, NoMemory>
    ensures { IfOk result (λ parts. parts.items ≡ gone_parts responds item.now) }
{
    match item {
        Item::Request(request) => {
            if responds {
                return gone_row(alloc, &request.command);
            }
            gone_tail(alloc, &request.command)
        }
        Item::Composite { .. } => Ok(VecDeque::new(alloc)),
        Item::Raw { .. } => Ok(VecDeque::new(alloc)),
        Item::TargetEnd => Ok(VecDeque::new(alloc)),
    }
}
