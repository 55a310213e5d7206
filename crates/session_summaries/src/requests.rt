//! How many requests a client makes.
ghost use Rattle.std.specs.Prelude.{◌≡◌, ◌<◌, ◌^◌, ◌+◌, length, IfOk, Ok, Err};
ghost use Rattle.wire_core.specs.Streams.{left};
ghost use Rattle.dap_frames.specs.Frames.{frame_front};
ghost use Rattle.dap_messages.specs.Reading.{reading_of};
ghost use Rattle.session_summaries.specs.Bodies.{bodies_of};
ghost use Rattle.session_summaries.specs.Requests.{is_last, requests_in, said_at, said_if, said_in};

use dap_frames::Cutter;
use dap_messages::{Command, Incoming, ReadFault, read_request};
use std::alloc::Global;
use wire_core::NoMemory;

/// What the next frame of the client says.
#[derive(Clone, Copy, Debug, PartialEq, Eq)]
pub(crate) enum Said {
    Request,
    /// The request that ends the session.
    Last,
    /// A message that is no request.
    Passed,
    /// There is no whole frame, or no message in it.
    Nothing,
}

/// How many requests some bytes of the client have, up to a `disconnect`, or to what is no message.
pub(crate) fn count_requests(alloc: Global, bytes: &[u8]) -> Result<u64, NoMemory>
    ensures { IfOk result (λ count. count ≡ requests_in (bodies_of bytes.now)) }
{
    let mut cutter = Cutter::new(alloc);
    cutter.feed(bytes)?;
    let mut count = 0;
    for _step in bytes {
        match next_said(alloc, &mut cutter)? {
            Said::Request => count += 1,
            Said::Last => return Ok(count + 1),
            Said::Passed => {}
            Said::Nothing => return Ok(count),
        }
    }
    Ok(count)
}

// Takes the next frame, and tells what it says.
fn next_said(alloc: Global, cutter: &mut Cutter) -> Result<Said, NoMemory>
    ensures said { IfOk result (λ said. said ≡ said_at (frame_front cutter.old.pending)) }
    ensures left { cutter.new ≡ left (frame_front cutter.old.pending) cutter.old }
{
    match cutter.take() {
        Ok(Some(body)) => said_by(alloc, body.bytes),
        Ok(None) => Ok(Said::Nothing),
        Err(_) => Ok(Said::Nothing),
    }
}

fn said_by(alloc: Global, body: &[u8]) -> Result<Said, NoMemory>
    ensures { IfOk result (λ said. said ≡ said_in (reading_of body.now)) }
{
    match read_request(alloc, body) {
        Ok(Incoming::Request(request)) => Ok(said_if(is_last(&request.command))),
        Ok(Incoming::Ignored) => Ok(Said::Passed),
        Err(ReadFault::NoMemory) => Err(NoMemory),
        Err(_) => Ok(Said::Nothing),
    }
}

fn said_if(last: bool) -> Said
    ensures { result ≡ said_if last }
{
    if last { Said::Last } else { Said::Request }
}

fn is_last(command: &Command) -> bool
    ensures { result ≡ is_last command.now }
{
    matches!(command, Command::Disconnect(_))
}
