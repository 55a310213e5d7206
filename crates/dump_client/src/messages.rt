//! The message in a frame.
ghost use Rattle.std.specs.Prelude.{◌≡◌, ◌≤◌, length, option_map, position, IfOk, IfSome};
ghost use Rattle.serde_json.specs.View.{view};
ghost use Rattle.dump_client.specs.Messages.{body_in, from_place, is_brace, message_in, value_in};

use serde_json::Value;
use std::alloc::Global;
use wire_core::NoMemory;

// The place of the first brace.
fn brace_in(frame: &[u8]) -> Option<usize>
    ensures place { result ≡ position is_brace frame.now }
    ensures within { IfSome result (λ place. place ≤ length frame.now) }
{
    frame.iter().position(|byte| *byte == b'{')
}

// What stands from this place on; nothing where there is none.
fn from_place(frame: &[u8], place: Option<usize>) -> &[u8]
    requires { IfSome place (λ at. at ≤ length frame.now) }
    ensures { result.now ≡ from_place place frame.now }
{
    match place {
        Some(place) => &frame[place..],
        None => &frame[frame.len()..],
    }
}

// The body of a frame, which is an object: it begins at the first brace.
fn body_in(frame: &[u8]) -> &[u8]
    ensures { result.now ≡ body_in frame.now }
{
    from_place(frame, brace_in(frame))
}

// The JSON that a text is, if it is some.
fn value_in(alloc: Global, text: &[u8]) -> Result<Option<Value>, NoMemory>
    ensures { IfOk result (λ value. option_map view value ≡ value_in text.now) }
{
    match Value::from_slice(alloc, text) {
        Ok(value) => Ok(Some(value)),
        Err(error) => if error.is_memory() {
            Err(NoMemory)
        } else {
            Ok(None)
        },
    }
}

/// The message in a frame, if there is one (DAP overview, Base protocol).
pub(crate) fn message_in(alloc: Global, frame: &[u8]) -> Result<Option<Value>, NoMemory>
    ensures { IfOk result (λ value. option_map view value ≡ message_in frame.now) }
{
    value_in(alloc, body_in(frame))
}
