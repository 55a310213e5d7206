ghost use Rattle.std.specs.Prelude.{◌≡◌};
ghost use Rattle.serde_json.specs.View.{view};
ghost use Rattle.dap_messages.specs.Reading.{incoming_of, request_of, sequence, IsIncoming, IsReading};

use crate::requests::{Incoming, ReadFault, Request};
use crate::rows::command_of;
use serde_json::Value;
use std::alloc::Global;
use wire_core::Text;

const MAX_SEQUENCE: u64 = (1 << 53) - 1;

/// Reads the body of a frame. `NoMemory` comes where memory is refused, `NotJson` where it is no JSON in UTF-8,
/// `NotAMessage` where it is no object of type `request`, `response` or `event`, or a request without a text `command`
/// or a whole `seq` from 0 to 2^53 - 1.
/// (DAP overview, Base protocol; DAP specification, Base Protocol, ProtocolMessage and Request)
pub fn read_request(alloc: Global, body: &[u8]) -> Result<Incoming, ReadFault>
    ensures { IsReading body.now result }
{
    match Value::from_slice(alloc, body) {
        Ok(message) => incoming(alloc, &message),
        Err(error) => if error.is_memory() {
            Err(ReadFault::NoMemory)
        } else {
            Err(ReadFault::NotJson)
        },
    }
}

fn incoming(alloc: Global, message: &Value) -> Result<Incoming, ReadFault>
    ensures { IsIncoming result (incoming_of (view message.now)) }
{
    let Some(kind) = message.get("type").and_then(Value::as_str) else {
        return Err(ReadFault::NotAMessage);
    };
    if kind == "request" {
        request(alloc, message)
    } else if kind == "response" || kind == "event" {
        Ok(Incoming::Ignored)
    } else {
        Err(ReadFault::NotAMessage)
    }
}

fn request(alloc: Global, message: &Value) -> Result<Incoming, ReadFault>
    ensures { IsIncoming result (request_of (view message.now)) }
{
    let Some(seq) = sequence(message) else {
        return Err(ReadFault::NotAMessage);
    };
    let Some(name) = message.get("command").and_then(Value::as_str) else {
        return Err(ReadFault::NotAMessage);
    };
    let command = command_of(alloc, name, message)?;
    Ok(Incoming::Request(Request {
        seq,
        name: Text::from_str(alloc, name)?,
        command,
    }))
}

fn sequence(message: &Value) -> Option<u64>
    ensures { result ≡ sequence (view message.now) }
{
    match message.get("seq").and_then(Value::as_u64) {
        Some(seq) => if seq <= MAX_SEQUENCE { Some(seq) } else { None },
        None => None,
    }
}
