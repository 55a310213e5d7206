ghost use Rattle.std.specs.Prelude.{◌≡◌, ◌<◌, ◌≤◌, [], ◌∷◌, ◌++◌, drop, vec_len, OnOk};

use crate::streams::{is_closed, is_wait, pause, ready};
use std::alloc::{AllocFailed, Allocator};
use std::io::{self, ErrorKind};
use std::net::{OpenListener, OpenStream};
use std::time::Clock;

/// The first connection that sends a byte. Sixteen that are silent are held meanwhile, and the oldest of them is given
/// up for the next. Where there is no memory to hold one, that is an error.
pub(crate) fn accept<L: OpenListener, A: Allocator>(
    alloc: A,
    clock: &impl Clock,
    listener: &L,
) -> io::Result<L::Stream>
where
    L::Stream: OpenStream,
{
    listener.set_nonblocking(true)?;
    let mut silent = Vec::new(alloc);
    for _ in 0..u64::MAX {
        if let Some(stream) = take_speaker(&mut silent) {
            return Ok(stream);
        }
        match connection(listener)? {
            Some(stream) => {
                if hold(&mut silent, stream).is_err() {
                    return Err(io::Error::from(ErrorKind::OutOfMemory));
                }
            }
            None => pause(clock),
        }
    }
    Err(io::Error::from(ErrorKind::NotConnected))
}

// Holds one more silent connection, and lets the oldest go where there are sixteen.
fn hold<S: Drop, A: Allocator>(silent: &mut Vec<S, A>, stream: S) -> Result<(), AllocFailed<S>>
    ensures room { OnOk result (vec_len silent.old < 16 → silent.new.items ≡ silent.old.items ++ stream ∷ []) }
    ensures full { OnOk result (16 ≤ vec_len silent.old
        → silent.new.items ≡ drop 1 silent.old.items ++ stream ∷ []) }
{
    if silent.len() >= 16 {
        silent.remove(0);
    }
    silent.push(stream)
}

// The oldest connection that has sent a byte, if there is one. Those that have ended are let go.
fn take_speaker<S: OpenStream + Drop, A: Allocator>(silent: &mut Vec<S, A>) -> Option<S> {
    silent.retain(|stream| !matches!(heard_of(stream), Heard::End));
    let place = silent
        .iter()
        .position(|stream| matches!(heard_of(stream), Heard::Byte))?;
    Some(silent.remove(place))
}

// What a connection has sent so far.
#[derive(Clone, Copy)]
enum Heard {
    Nothing,
    Byte,
    End,
}

fn heard_of<S: OpenStream>(stream: &S) -> Heard {
    match stream.peek(&mut [0]) {
        Ok(0) => Heard::End,
        Ok(_) => Heard::Byte,
        Err(e) => {
            if is_wait(e.kind()) {
                Heard::Nothing
            } else {
                Heard::End
            }
        }
    }
}

// A connection that waits at the listener, if there is one.
fn connection<L: OpenListener>(listener: &L) -> io::Result<Option<L::Stream>>
where
    L::Stream: OpenStream,
{
    match listener.accept() {
        Ok((stream, _)) => Ok(ready(stream).ok()),
        Err(e) => {
            if is_wait(e.kind()) || is_closed(e.kind()) {
                Ok(None)
            } else {
                Err(e)
            }
        }
    }
}
