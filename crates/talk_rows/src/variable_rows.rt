//! What the requests do that name a frame or a container by its number.
ghost use Rattle.std.specs.Prelude.{◌≡◌, IfOk};
ghost use Rattle.field_exprs.specs.Parsing.{parsed};
ghost use Rattle.machine_model.specs.Rows.{evaluate_by, evaluate_parts, scopes_parts, variables_parts, write_by};
ghost use Rattle.machine_model.specs.Rows.{written_by};
ghost use Rattle.machine_model.specs.Variables.{reference_failure};
ghost use Rattle.stop_refs.specs.Numbers.{container, frame};

use crate::found::refusal;
use crate::rows::failing;
use dap_messages::{
    EvaluateArguments, Failure, ScopesArguments, SetVariableArguments, VariablesArguments,
};
use field_exprs::{ExprFault, parse};
use machine_model::{Body, Lookup, Outcome, Part, Seen};
use session_facts::{container_with, frame_with, shown_by};
use std::alloc::Global;
use std::collections::VecDeque;
use stop_refs::{FrameThing, RefFault};
use talk_state::State;
use wire_core::{NoMemory, Text};

// Why a number can't be read back (DAP specification, Overview, Lifetime of Objects References).
fn reference_failure(fault: RefFault) -> Failure
    ensures { result ≡ reference_failure fault }
{
    match fault {
        RefFault::Unknown(next) => Failure::unknown_reference(next),
        RefFault::Stale(stop) => Failure::stale(stop),
        RefFault::WrongKind => Failure::wrong_kind(),
    }
}

/// The one scope of a frame is shown: its variables. `NoMemory` comes where memory is refused (DAP specification, Scopes
/// request).
pub(crate) fn scopes_row(
    alloc: Global,
    arguments: ScopesArguments,
    state: &State,
) -> Result<VecDeque<Part>, NoMemory>
    ensures { IfOk result (λ parts. parts.items
        ≡ scopes_parts state.now.numbers (frame arguments.frame_id state.now.numbers)) }
{
    match frame_with(&state.numbers, arguments.frame_id) {
        Err(fault) => failing(alloc, reference_failure(fault)),
        Ok(frame) => {
            let outcome = shown_by(alloc, &state.numbers, Body::Scopes(frame))?;
            Ok(VecDeque::from_array(alloc, [Part::Responds(outcome)])?)
        }
    }
}

/// Children of a container are looked up. `NoMemory` comes where memory is refused (DAP specification, Variables
/// request).
pub(crate) fn variables_row(
    alloc: Global,
    arguments: VariablesArguments,
    state: &State,
) -> Result<VecDeque<Part>, NoMemory>
    ensures { IfOk result (λ parts. parts.items
        ≡ variables_parts arguments (container arguments.variables_reference state.now.numbers)) }
{
    match container_with(&state.numbers, arguments.variables_reference) {
        Err(fault) => failing(alloc, reference_failure(fault)),
        Ok(thing) => {
            let lookup = Lookup::Variables {
                thing,
                filter: arguments.filter,
                start: arguments.start,
                count: arguments.count,
            };
            Ok(VecDeque::from_array(alloc, [Part::Looks(lookup)])?)
        }
    }
}

/// A value is written to a child of a container. `NoMemory` comes where memory is refused (DAP specification, SetVariable
/// request).
pub(crate) fn write_row(
    alloc: Global,
    arguments: &SetVariableArguments,
    state: &State,
) -> Result<VecDeque<Part>, NoMemory>
    ensures { IfOk result (λ parts. parts.items
        ≡ write_by arguments.now (container arguments.now.variables_reference state.now.numbers)) }
{
    match container_with(&state.numbers, arguments.variables_reference) {
        Err(fault) => failing(alloc, reference_failure(fault)),
        Ok(thing) => {
            let lookup = Lookup::Write {
                thing,
                name: Text::from_str(alloc, arguments.name.as_str())?,
                text: Text::from_str(alloc, arguments.value.as_str())?,
            };
            Ok(VecDeque::from_array(alloc, [Part::Looks(lookup)])?)
        }
    }
}

/// Once a value is written it is told; where it was refused the request fails. `NoMemory` comes where memory is refused (DAP
/// specification, SetVariable request).
pub fn written_by(alloc: Global, seen: Seen, code: Option<u16>) -> Result<VecDeque<Part>, NoMemory>
    ensures { IfOk result (λ parts. parts.items ≡ written_by seen code) }
{
    match code {
        None => Ok(VecDeque::from_array(
            alloc,
            [Part::Responds(Outcome::Success(Body::Written(seen)))],
        )?),
        Some(code) => failing(alloc, refusal(code)),
    }
}

// The value of an expression in a frame; a text that is none fails at its place.
fn evaluate_parts(alloc: Global, frame: FrameThing, text: &Text) -> Result<VecDeque<Part>, NoMemory>
    ensures { IfOk result (λ parts. parts.items ≡ evaluate_parts frame (parsed text.now)) }
{
    match parse(alloc, text) {
        Ok(expression) => Ok(VecDeque::from_array(
            alloc,
            [Part::Looks(Lookup::Value { frame, expression })],
        )?),
        Err(ExprFault::At(place)) => failing(alloc, Failure::bad_expression(place)),
        Err(ExprFault::NoMemory) => Err(NoMemory),
    }
}

/// The value of an expression in a frame is looked up. `NoMemory` comes where memory is refused (DAP specification, Evaluate
/// request).
pub(crate) fn evaluate_row(
    alloc: Global,
    arguments: &EvaluateArguments,
    state: &State,
) -> Result<VecDeque<Part>, NoMemory>
    ensures { IfOk result (λ parts. parts.items ≡ evaluate_by (parsed arguments.now.expression)
        (frame arguments.now.frame_id state.now.numbers)) }
{
    match frame_with(&state.numbers, arguments.frame_id) {
        Err(fault) => failing(alloc, reference_failure(fault)),
        Ok(frame) => evaluate_parts(alloc, frame, &arguments.expression),
    }
}
