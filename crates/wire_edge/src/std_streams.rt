ghost use Rattle.std.specs.Prelude.{◌≡◌, OnErr};
ghost use Rattle.wire_core.specs.Outside.{Rose};

use std::io::{IsTerminal, Read, Write};
use wire_core::raise;

/// The standard input, output and error of a run, and how often one was found closed.
#[derive(Drop)]
pub struct StdStreams<I, O, E> {
    input: I,
    output: O,
    error: E,
    faults: u64,
}

/// A standard stream is closed. The next thing that is opened would take its number.
#[derive(Clone, Copy, Debug, PartialEq, Eq)]
pub struct StreamClosed;

impl<I, O, E> StdStreams<I, O, E>
where
    I: Read + IsTerminal + Drop,
    O: Write + IsTerminal + Drop,
    E: Write + IsTerminal + Drop,
{
    /// The standard streams, of which none was tried yet.
    pub fn new(input: I, output: O, error: E) -> StdStreams<I, O, E>
        ensures { result.faults ≡ 0 }
    {
        StdStreams {
            input,
            output,
            error,
            faults: 0,
        }
    }

    /// Tries each of them that is no terminal with no bytes, as the system allows where it is open. A terminal is open,
    /// and would stop a program in the background that reads.
    pub fn try_all(&mut self) -> Result<(), StreamClosed>
        ensures { OnErr result (Rose self.old.faults self.new.faults) }
    {
        if can_read(&mut self.input) && can_write(&mut self.output) && can_write(&mut self.error) {
            return Ok(());
        }
        self.faults = raise(self.faults);
        Err(StreamClosed)
    }
}

fn can_read<S: Read + IsTerminal>(stream: &mut S) -> bool {
    stream.is_terminal() || stream.read(&mut []).is_ok()
}

fn can_write<S: Write + IsTerminal>(stream: &mut S) -> bool {
    stream.is_terminal() || stream.write(&[]).is_ok()
}
