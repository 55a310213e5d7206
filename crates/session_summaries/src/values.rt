//! What is read of a told message.
ghost use Rattle.std.specs.Prelude.{◌≡◌, ◌<◌, ◌^◌, IfOk, IfSome};
ghost use Rattle.serde_json.specs.View.{items_view, view};
ghost use Rattle.session_summaries.specs.Told.{digit_behind, is_event, is_response, is_stop, is_text, is_true, n_in};
ghost use Rattle.session_summaries.specs.Told.{n_shown, n_sum, number_behind, number_shown, shows_variables};

use crate::told::plus;
use serde_json::Value;
use wire_core::NoMemory;

fn is_text(value: &Value, name: &str, text: &str) -> bool
    ensures { result ≡ is_text name.now text.now (view value.now) }
{
    match value.get(name).and_then(Value::as_str) {
        Some(said) => said == text,
        None => false,
    }
}

fn is_true(value: &Value, name: &str) -> bool
    ensures { result ≡ is_true name.now (view value.now) }
{
    match value.get(name).and_then(Value::as_bool) {
        Some(said) => said,
        None => false,
    }
}

/// A response (DAP specification, Base Protocol, Response).
pub(crate) fn is_response(value: &Value) -> bool
    ensures { result ≡ is_response (view value.now) }
{
    is_text(value, "type", "response")
}

/// An event (DAP specification, Base Protocol, Event).
pub(crate) fn is_event(value: &Value) -> bool
    ensures { result ≡ is_event (view value.now) }
{
    is_text(value, "type", "event")
}

/// An event that tells of a stop (DAP specification, Events, Stopped).
pub(crate) fn is_stop(value: &Value) -> bool
    ensures { result ≡ is_stop (view value.now) }
{
    is_event(value) && is_text(value, "event", "stopped")
}

// A response that shows variables (DAP specification, Variables request).
fn shows_variables(value: &Value) -> bool
    ensures { result ≡ shows_variables (view value.now) }
{
    is_response(value) && (is_text(value, "command", "variables") && is_true(value, "success"))
}

/// The sum of the values that a message shows for variables named `n`.
pub(crate) fn n_shown(value: &Value) -> Result<u64, NoMemory>
    ensures { IfOk result (λ sum. sum ≡ n_shown (view value.now)) }
{
    if !shows_variables(value) {
        return Ok(0);
    }
    let Some(body) = value.get("body") else {
        return Ok(0);
    };
    let Some(variables) = body.get("variables").and_then(Value::as_array) else {
        return Ok(0);
    };
    n_sum(variables.as_slice())
}

fn n_sum(variables: &[Value]) -> Result<u64, NoMemory>
    ensures { IfOk result (λ sum. sum ≡ n_sum (items_view variables.now)) }
{
    let mut sum = 0;
    for variable in variables {
        sum = plus(sum, n_in(variable))?;
    }
    Ok(sum)
}

// The value of a variable that is named `n`, 0 of another one (DAP specification, Types, Variable).
fn n_in(variable: &Value) -> u64
    ensures { result ≡ n_in (view variable.now) }
{
    if !is_text(variable, "name", "n") {
        return 0;
    }
    match variable.get("value").and_then(Value::as_str) {
        Some(text) => number_shown(text.as_bytes()),
        None => 0,
    }
}

// The number that a text is in decimal, 0 of another text.
fn number_shown(text: &[u8]) -> u64
    ensures { result ≡ number_shown text.now }
{
    match number_in(text) {
        Some(number) => number,
        None => 0,
    }
}

/// The number that a text is in decimal, if it is one of 32 bits. No digit is 0.
pub fn number_in(text: &[u8]) -> Option<u64>
    ensures is { result ≡ number_behind 0 text.now }
    ensures small { IfSome result (λ number. number < 2 ^ 32) }
{
    let mut number = 0;
    for byte in text {
        number = digit_behind(number, *byte)?;
    }
    Some(number)
}

// The number of a digit more, where it has 32 bits.
fn digit_behind(number: u64, byte: u8) -> Option<u64>
    requires { number < 2 ^ 32 }
    ensures is { result ≡ digit_behind number byte }
    ensures small { IfSome result (λ next. next < 2 ^ 32) }
{
    if 48 <= byte && byte <= 57 {
        let next = number * 10 + u64::from(byte - 48);
        if next < 1 << 32 { Some(next) } else { None }
    } else {
        None
    }
}
