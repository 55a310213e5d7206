ghost use Rattle.std.specs.Prelude.{◌≤◌, length, take, IfOk, OnOk};
ghost use Rattle.std.specs.Io.KnownBytes.{Appends};
ghost use Rattle.wire_edge.specs.Streams.{Polls};

use std::io::{self, ErrorKind, Read, Write};
use std::net::OpenStream;
use std::thread;
use std::time::{Clock, Duration};

// How long a call sleeps where nothing is there, in microseconds.
const SLEEP_MICROS: u64 = 1900;

/// What a stream that was asked had: some bytes, its end, a fault, or nothing.
#[derive(Clone, Copy, Debug, PartialEq, Eq)]
pub(crate) enum Polled {
    Bytes(usize),
    Ended,
    Broken,
    Nothing,
}

/// Why not all bytes went out: the peer has closed the stream, or it is broken.
#[derive(Clone, Copy, Debug, PartialEq, Eq)]
pub(crate) enum Unsent {
    Closed,
    Broken,
}

/// A stream that answers at once, and sends what it is given at once.
pub(crate) fn ready<S: OpenStream + Drop>(stream: S) -> io::Result<S> {
    stream.set_nodelay(true)?;
    stream.set_nonblocking(true)?;
    Ok(stream)
}

/// Sleeps for a moment. With what the system adds it is 2 ms.
pub(crate) fn pause(clock: &impl Clock) {
    thread::sleep(clock, Duration::from_micros(SLEEP_MICROS));
}

/// Whether a stream has not ended.
pub(crate) fn is_alive<S: OpenStream>(stream: &S) -> bool {
    match stream.peek(&mut [0]) {
        Ok(n) => n > 0,
        Err(e) => is_wait(e.kind()),
    }
}

/// Whether an error says that a call would have to wait, or was disturbed.
pub(crate) fn is_wait(kind: ErrorKind) -> bool {
    matches!(
        kind,
        ErrorKind::WouldBlock | ErrorKind::TimedOut | ErrorKind::Interrupted
    )
}

/// Whether an error says that the peer closed the stream.
pub(crate) fn is_closed(kind: ErrorKind) -> bool {
    matches!(
        kind,
        ErrorKind::ConnectionReset | ErrorKind::ConnectionAborted | ErrorKind::BrokenPipe
    )
}

/// Asks a stream for bytes, once. Those that it gives are all that were read.
pub(crate) fn poll<S: Read>(stream: &mut S, buffer: &mut [u8]) -> Polled
    ensures { Polls (S.remaining stream.old) (S.remaining stream.new) buffer.new result }
{
    match stream.read(buffer) {
        Ok(0) => Polled::Ended,
        Ok(n) => Polled::Bytes(n),
        Err(e) => {
            if is_wait(e.kind()) {
                Polled::Nothing
            } else if is_closed(e.kind()) {
                Polled::Ended
            } else {
                Polled::Broken
            }
        }
    }
}

/// Sends all bytes, in one write where the system takes them, and waits for a peer that doesn't read.
pub(crate) fn send_all<S: Write>(
    clock: &impl Clock,
    stream: &mut S,
    bytes: &[u8],
) -> Result<(), Unsent>
    ensures { OnOk result (Appends (S.contents stream.old) (S.contents stream.new) bytes.now) }
{
    let mut rest = bytes;
    for _ in 0..u64::MAX {
        if rest.is_empty() {
            return Ok(());
        }
        let taken = send_some(clock, stream, rest)?;
        rest = &rest[taken..];
    }
    Err(Unsent::Broken)
}

// Sends the front of the bytes, as many as the system takes; where that is none, it waits for a moment.
fn send_some<S: Write>(clock: &impl Clock, stream: &mut S, bytes: &[u8]) -> Result<usize, Unsent>
    ensures bound { IfOk result (λ n. n ≤ length bytes.now) }
    ensures front { IfOk result (λ n. Appends (S.contents stream.old) (S.contents stream.new) (take n bytes.now)) }
{
    match stream.write(bytes) {
        Ok(0) => Err(Unsent::Broken),
        Ok(n) => Ok(n),
        Err(e) => {
            if is_closed(e.kind()) {
                Err(Unsent::Closed)
            } else if is_wait(e.kind()) {
                pause(clock);
                Ok(0)
            } else {
                Err(Unsent::Broken)
            }
        }
    }
}
