//! What a response says.
ghost use Rattle.std.specs.Prelude.{◌≡◌, ◌++◌, option_map, IfOk, OnOk};
ghost use Rattle.serde_json.specs.View.{items_view, view};
ghost use Rattle.dump_client.specs.Answers.{answer_items, error_number, failure_of, frame_heading, frames_said};
ghost use Rattle.dump_client.specs.Answers.{frames_from, is_response, is_text, is_true, line_under, number_under};
ghost use Rattle.dump_client.specs.Answers.{scope_said, text_under, thread_heading, threads_among, threads_said};
ghost use Rattle.dump_client.specs.Answers.{line_of_variable, lines_among, variables_said};

use crate::lines::{frame_line, thread_line, variable_line};
use serde_json::Value;
use std::alloc::Global;
use wire_core::{Blob, List, NoMemory};

/// A thread or a frame that was told: the number to ask for it by, and its line of the dump.
#[derive(Drop)]
pub struct Heading {
    pub number: u64,
    pub line: Blob,
}

// Members -------------------------------------------------------------------------------------------------------------

fn text_under<'v>(value: &'v Value, name: &str) -> &'v str
    ensures { result.now ≡ text_under name.now (view value.now) }
{
    match value.get(name).and_then(Value::as_str) {
        Some(text) => text,
        None => "",
    }
}

fn number_under(value: &Value, name: &str) -> u64
    ensures { result ≡ number_under name.now (view value.now) }
{
    match value.get(name).and_then(Value::as_u64) {
        Some(number) => number,
        None => 0,
    }
}

fn line_under(value: &Value, name: &str) -> i64
    ensures { result ≡ line_under name.now (view value.now) }
{
    match value.get(name).and_then(Value::as_i64) {
        Some(line) => line,
        None => 0,
    }
}

fn is_text(value: &Value, name: &str, text: &str) -> bool
    ensures { result ≡ is_text name.now text.now (view value.now) }
{
    match value.get(name).and_then(Value::as_str) {
        Some(said) => said == text,
        None => false,
    }
}

fn is_true(value: &Value, name: &str) -> bool
    ensures { result ≡ is_true name.now (view value.now) }
{
    match value.get(name).and_then(Value::as_bool) {
        Some(said) => said,
        None => false,
    }
}

// The list of this name in the body.
fn answer_items<'v>(message: &'v Value, name: &str) -> Option<&'v [Value]>
    ensures { option_map (λ items. items_view items.now) result ≡ answer_items name.now (view message.now) }
{
    let Some(body) = message.get("body") else {
        return None;
    };
    match body.get(name).and_then(Value::as_array) {
        Some(items) => Some(items.as_slice()),
        None => None,
    }
}

// Messages ------------------------------------------------------------------------------------------------------------

/// Whether a message is a response (DAP specification, Base Protocol, Response).
pub(crate) fn is_response(message: &Value) -> bool
    ensures { result ≡ is_response (view message.now) }
{
    is_text(message, "type", "response")
}

// The number of the error in the body (DAP specification, Types, Message, `id`).
fn error_number(message: &Value) -> u64
    ensures { result ≡ error_number (view message.now) }
{
    let Some(body) = message.get("body") else {
        return 0;
    };
    match body.get("error") {
        Some(error) => number_under(error, "id"),
        None => 0,
    }
}

/// The number of the failure that a response tells, if it tells one (DAP specification, Base Protocol, ErrorResponse).
pub(crate) fn failure_of(message: &Value) -> Option<u64>
    ensures { result ≡ failure_of (view message.now) }
{
    if is_true(message, "success") {
        None
    } else {
        Some(error_number(message))
    }
}

// Threads -------------------------------------------------------------------------------------------------------------

fn thread_heading(alloc: Global, thread: &Value) -> Result<Heading, NoMemory>
    ensures { IfOk result (λ heading. heading ≡ thread_heading (view thread.now)) }
{
    let number = number_under(thread, "id");
    let line = thread_line(alloc, number, text_under(thread, "name"))?;
    Ok(Heading { number, line })
}

fn threads_among(alloc: Global, threads: &[Value]) -> Result<List<Heading>, NoMemory>
    ensures { IfOk result (λ headings. headings ≡ threads_among (items_view threads.now)) }
{
    let mut headings = List::new(alloc);
    for thread in threads {
        headings.push(thread_heading(alloc, thread)?)?;
    }
    Ok(headings)
}

/// The threads that a response tells; none where it failed (DAP specification, Threads request).
pub(crate) fn threads_said(alloc: Global, message: &Value) -> Result<List<Heading>, NoMemory>
    ensures { IfOk result (λ headings. headings ≡ threads_said (view message.now)) }
{
    match answer_items(message, "threads") {
        Some(threads) => threads_among(alloc, threads),
        None => Ok(List::new(alloc)),
    }
}

// Frames --------------------------------------------------------------------------------------------------------------

fn frame_heading(alloc: Global, place: usize, frame: &Value) -> Result<Heading, NoMemory>
    ensures { IfOk result (λ heading. heading ≡ frame_heading place (view frame.now)) }
{
    let number = number_under(frame, "id");
    let line = frame_line(
        alloc,
        place,
        text_under(frame, "name"),
        line_under(frame, "line"),
    )?;
    Ok(Heading { number, line })
}

fn frames_among(alloc: Global, frames: &[Value]) -> Result<List<Heading>, NoMemory>
    ensures { IfOk result (λ headings. headings ≡ frames_from 0 (items_view frames.now)) }
{
    let mut headings = List::new(alloc);
    for frame in frames {
        let place = headings.len();
        headings.push(frame_heading(alloc, place, frame)?)?;
    }
    Ok(headings)
}

/// The frames that a response tells (DAP specification, StackTrace request).
pub(crate) fn frames_said(alloc: Global, message: &Value) -> Result<List<Heading>, NoMemory>
    ensures { IfOk result (λ headings. headings ≡ frames_said (view message.now)) }
{
    match answer_items(message, "stackFrames") {
        Some(frames) => frames_among(alloc, frames),
        None => Ok(List::new(alloc)),
    }
}

// Variables -----------------------------------------------------------------------------------------------------------

/// The reference of the variables of the first scope that a response tells, or 0 (DAP specification, Scopes request).
pub(crate) fn scope_said(message: &Value) -> u64
    ensures { result ≡ scope_said (view message.now) }
{
    let Some(scopes) = answer_items(message, "scopes") else {
        return 0;
    };
    match scopes.first() {
        Some(scope) => number_under(scope, "variablesReference"),
        None => 0,
    }
}

fn line_of_variable(alloc: Global, variable: &Value) -> Result<Blob, NoMemory>
    ensures { IfOk result (λ line. line ≡ line_of_variable (view variable.now)) }
{
    let name = text_under(variable, "name");
    let kind = text_under(variable, "type");
    variable_line(alloc, name, kind, text_under(variable, "value"))
}

fn lines_among(alloc: Global, variables: &[Value]) -> Result<Blob, NoMemory>
    ensures { IfOk result (λ lines. lines ≡ lines_among (items_view variables.now)) }
{
    let mut lines = Blob::new(alloc);
    for variable in variables {
        lines.extend_from_slice(line_of_variable(alloc, variable)?.as_slice())?;
    }
    Ok(lines)
}

/// The lines of the variables that a response tells (DAP specification, Variables request).
pub(crate) fn variables_said(alloc: Global, message: &Value) -> Result<Blob, NoMemory>
    ensures { IfOk result (λ lines. lines ≡ variables_said (view message.now)) }
{
    match answer_items(message, "variables") {
        Some(variables) => lines_among(alloc, variables),
        None => Ok(Blob::new(alloc)),
    }
}
