//! What a script's client sends.
ghost use Rattle.std.specs.Prelude.{◌≡◌, ◌+◌, ◌<◌, ◌≤◌, ◌^◌, ◌++◌, [], length, take, drop, OnOk, OnErr};
ghost use Rattle.std.specs.Prelude.{MatchResult};
ghost use Rattle.script_wires.specs.Requests.{request_frame};

use crate::requests::request_frame;
use line_elements::Arguments;
use std::alloc::Global;
use wire_core::{NoMemory, StreamBuffer, Text};

// Numbers stay below this.
const LIMIT: u64 = 1 << 63;

/// The sequence number of the client's next request, and the bytes that are on their way from it.
#[derive(Debug, Drop)]
pub(crate) struct Client {
    next_seq: u64,
    stream: StreamBuffer,
}

// More bytes go behind so many of a stream. It takes no memory: `NoMemory` comes just where they would be 2^63 or more.
fn fit_stream(end: u64, more: usize) -> Result<(), NoMemory>
    ensures { MatchResult result (λ _. end + more < 2 ^ 63) (λ _. 2 ^ 63 ≤ end + more) }
{
    if end >= LIMIT || more as u64 >= LIMIT - end {
        return Err(NoMemory);
    }
    Ok(())
}

// The number behind a number. It takes no memory: `NoMemory` comes just where it would reach 2^63.
fn number_behind(number: u64) -> Result<u64, NoMemory>
    ensures { MatchResult result (λ next. (next ≡ number + 1) × (number + 1 < 2 ^ 63)) (λ _. 2 ^ 63 ≤ number + 1) }
{
    if number >= LIMIT - 1 {
        return Err(NoMemory);
    }
    Ok(number + 1)
}

// Bytes go behind those of a stream; a stream of 2^63 bytes has no room for more.
fn append(stream: &mut StreamBuffer, bytes: &[u8]) -> Result<(), NoMemory>
    ensures ok { OnOk result (stream.new.pending ≡ stream.old.pending ++ bytes.now) }
    ensures err { OnErr result (stream.new ≡ stream.old) }
{
    let end = stream.at() + stream.pending().len() as u64;
    fit_stream(end, bytes.len())?;
    stream.feed(bytes)
}

impl Client {
    ghost use Rattle.script_wires.specs.Clients.{client_seq, client_bytes};

    /// A client that sent nothing, which takes no memory.
    pub(crate) fn new(alloc: Global) -> Client
        ensures seq { client_seq result ≡ 1 }
        ensures bytes { client_bytes result ≡ [] }
    {
        Client {
            next_seq: 1,
            stream: StreamBuffer::new(alloc),
        }
    }

    /// Its next request goes on its way. `NoMemory` comes too where its number, or that of its bytes, would reach 2^63.
    pub(crate) fn ask(
        &mut self,
        alloc: Global,
        command: &Text,
        arguments: &Arguments,
    ) -> Result<(), NoMemory>
        ensures seq { OnOk result (client_seq self.new ≡ client_seq self.old + 1) }
        ensures bytes { OnOk result (client_bytes self.new
            ≡ client_bytes self.old ++ request_frame (client_seq self.old) command.now arguments.now) }
    {
        let behind = number_behind(self.next_seq)?;
        let bytes = request_frame(alloc, self.next_seq, command, arguments)?;
        append(&mut self.stream, bytes.as_slice())?;
        self.next_seq = behind;
        Ok(())
    }

    /// Moves the first bytes on their way to the front of a buffer, at most so many, and answers their number.
    pub(crate) fn out(&mut self, most: usize, buffer: &mut [u8]) -> usize
        requires { most ≤ length buffer.old }
        ensures count { result ≡ length (take most (client_bytes self.old)) }
        ensures front { take result buffer.new ≡ take most (client_bytes self.old) }
        ensures rest { client_bytes self.new ≡ drop result (client_bytes self.old) }
        ensures seq { client_seq self.new ≡ client_seq self.old }
    {
        let count = most.min(self.stream.pending().len());
        let bytes = self.stream.take(count);
        buffer[..count].copy_from_slice(bytes);
        count
    }
}
