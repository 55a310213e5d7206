ghost use Rattle.std.specs.Prelude.{◌≡◌, IfOk, option_map, string_bytes};
ghost use Rattle.serde_json.specs.View.{view};
ghost use Rattle.dap_messages.specs.Failures.{detail_text, error_data, format_of, message_of};
ghost use Rattle.dap_messages.specs.Telling.{told_data, told_text};
ghost use Rattle.dap_messages.specs.Telling.{answer_data, failure_data, response_data};

use crate::bodies::shape_value;
use crate::events::event_value;
use crate::objects::{Member, object};
use crate::told::{Detail, Failure, Outcome, Response, Told};
use serde_json::Value;
use std::alloc::{AllocError, Global};
use wire_core::{Blob, List, NoMemory};

/// The text of a told message, in UTF-8 and without a frame: compact JSON, with the members of each object in byte
/// order of their names. `NoMemory` comes where memory is refused.
/// (DAP specification, Base Protocol, Response, ErrorResponse and Event)
pub fn text_of(alloc: Global, seq: u64, told: &Told) -> Result<Blob, NoMemory>
    ensures { IfOk result (λ text. text ≡ told_text seq told.now) }
{
    let value = told_value(alloc, seq, told)?;
    let text = value.to_vec(alloc)?;
    Ok(List::from_vec(text))
}

fn told_value(alloc: Global, seq: u64, told: &Told) -> Result<Value, AllocError>
    ensures { IfOk result (λ value. view value ≡ told_data seq told.now) }
{
    match told {
        Told::Response(response) => response_value(alloc, seq, response),
        Told::Event(event) => event_value(alloc, seq, event),
    }
}

fn response_value(alloc: Global, seq: u64, response: &Response) -> Result<Value, AllocError>
    ensures { IfOk result (λ value. view value ≡ response_data seq response.now) }
{
    let command = response.command.as_str();
    match &response.outcome {
        Outcome::Success(shape) => {
            let body = shape_value(alloc, shape)?;
            answer_value(alloc, seq, response.request_seq, command, body)
        }
        Outcome::Failure(failure) => failure_value(
            alloc,
            seq,
            response.request_seq,
            command,
            failure,
        ),
    }
}

fn answer_value(
    alloc: Global,
    seq: u64,
    request_seq: u64,
    command: &str,
    body: Option<Value>,
) -> Result<Value, AllocError>
    ensures { IfOk result (λ value. view value
        ≡ answer_data seq request_seq command.now (option_map view body)) }
{
    let members = vec![in alloc;
        ("body", Member::MaybeInner(body)),
        ("command", Member::Words(command)),
        ("request_seq", Member::Count(request_seq)),
        ("seq", Member::Count(seq)),
        ("success", Member::Flag(true)),
        ("type", Member::Words("response")),
    ]?;
    object(alloc, members)
}

fn failure_value(
    alloc: Global,
    seq: u64,
    request_seq: u64,
    command: &str,
    failure: &Failure,
) -> Result<Value, AllocError>
    ensures { IfOk result (λ value. view value
        ≡ failure_data seq request_seq command.now failure.now) }
{
    let body = error_value(alloc, failure)?;
    let members = vec![in alloc;
        ("body", Member::Inner(body)),
        ("command", Member::Words(command)),
        ("message", Member::Words(message_of(failure.code))),
        ("request_seq", Member::Count(request_seq)),
        ("seq", Member::Count(seq)),
        ("success", Member::Flag(false)),
        ("type", Member::Words("response")),
    ]?;
    object(alloc, members)
}

fn error_value(alloc: Global, failure: &Failure) -> Result<Value, AllocError>
    ensures { IfOk result (λ value. view value ≡ error_data failure.now) }
{
    let format = format_of(alloc, failure)?;
    let members = vec![in alloc;
        ("format", Member::Words(format.as_str())),
        ("id", Member::Count(u64::from(failure.code))),
    ]?;
    let error = object(alloc, members)?;
    let members = vec![in alloc; ("error", Member::Inner(error))]?;
    object(alloc, members)
}

fn format_of(alloc: Global, failure: &Failure) -> Result<String, AllocError>
    ensures { IfOk result (λ text. string_bytes text ≡ format_of failure.now) }
{
    let message = message_of(failure.code);
    match &failure.detail {
        Detail::Plain => String::from_str(alloc, message),
        Detail::Number(number) => format!(in alloc; "{message} {number}"),
        Detail::Name(name) => {
            let name = name.as_str();
            format!(in alloc; "{message} {name}")
        }
    }
}

/// The message of a failure's code; that of a code of no failure is empty (DAP specification, Base Protocol, Response,
/// `message`).
pub fn message_of(code: u8) -> &'static str
    ensures { result.now ≡ message_of code }
{
    match code {
        1 => "unsupported",
        2 => "badArguments",
        3 => "notAttached",
        4 => "notStopped",
        5 => "stale",
        6 => "unknownReference",
        7 => "wrongKind",
        8 => "unknownThread",
        9 => "targetError",
        10 => "targetGone",
        11 => "noSuchName",
        12 => "badExpression",
        13 => "badIndex",
        14 => "notWritable",
        15 => "referencesSpent",
        16 => "alreadyAttached",
        _ => "",
    }
}
