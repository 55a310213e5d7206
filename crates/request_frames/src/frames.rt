//! A request, put into a frame.
ghost use Rattle.std.specs.Prelude.{◌≡◌, false, IfOk};
ghost use Rattle.serde_json.specs.View.{view};
ghost use Rattle.serde_json.specs.Written.{compact_text, has_float};
ghost use Rattle.dap_frames.specs.Frames.{frame_bytes};
ghost use Rattle.request_frames.specs.Requests.{request_data, request_frame};

use dap_frames::frame;
use serde_json::{Value, json};
use std::alloc::{AllocError, Global};
use wire_core::{Blob, NoMemory};

// A request with this sequence number.
fn request_value(
    alloc: Global,
    seq: u64,
    command: &str,
    arguments: &Value,
) -> Result<Value, AllocError>
    ensures { IfOk result (λ value. view value ≡ request_data seq command.now (view arguments.now)) }
{
    json!(in alloc; {
        "arguments": arguments,
        "command": command,
        "seq": seq,
        "type": "request"
    })
}

// The frame of a value's compact text.
fn framed(alloc: Global, value: &Value) -> Result<Blob, NoMemory>
    requires { has_float (view value.now) ≡ false }
    ensures { IfOk result (λ bytes. bytes ≡ frame_bytes (compact_text (view value.now))) }
{
    let text = value.to_vec(alloc)?;
    frame(alloc, text.as_slice())
}

/// The frame of the compact text of a request with this sequence number, command and arguments, in which no number is a
/// float. `NoMemory` comes where memory is refused. (DAP specification, Base Protocol, Request)
pub fn request_frame(
    alloc: Global,
    seq: u64,
    command: &str,
    arguments: &Value,
) -> Result<Blob, NoMemory>
    requires { has_float (view arguments.now) ≡ false }
    ensures { IfOk result (λ bytes. bytes ≡ request_frame seq command.now (view arguments.now)) }
{
    let value = request_value(alloc, seq, command, arguments)?;
    framed(alloc, &value)
}
