ghost use Rattle.std.specs.Prelude.{◌≡◌, ◌≤◌, IsErrOf, OnOk};
ghost use Rattle.std.specs.Io.KnownBytes.{Appends};
ghost use Rattle.wire_core.specs.declared.output.OutRefusal.TheVariants.{NoMemory};
ghost use Rattle.wire_core.specs.Output.{WritesOut};
ghost use Rattle.wire_edge.specs.StdOutput.{unprinted};

use std::io::{self, Write};
use wire_core::{OutRefusal, Output, raise};

/// An output that is a writer. It tells nothing of what was printed, and the count of faults stands still at its last
/// value.
#[derive(Drop)]
pub struct WriterOutput<W> {
    writer: W,
    faults: u64,
}

/// The system's standard output, as a writer.
#[derive(Drop)]
pub struct StdWriter<R> {
    rt: R,
}

/// The standard output.
pub type StdOutput<R> = WriterOutput<StdWriter<R>>;

impl<R: Print + Drop> WriterOutput<StdWriter<R>> {
    /// The standard output of the run, with no fault counted.
    pub fn new(rt: R) -> StdOutput<R>
        ensures { result.faults ≡ 0 }
    {
        WriterOutput {
            writer: StdWriter { rt },
            faults: 0,
        }
    }
}

impl<R: Print> Write for StdWriter<R> {
    fn write(&mut self, bytes: &[u8]) -> io::Result<usize> {
        self.rt.write_some(bytes)
    }

    fn flush(&mut self) -> io::Result<()> {
        Ok(())
    }
}

impl<W: Write + Drop> Output for WriterOutput<W> {
    ghost printed = { λ o. unprinted o.faults };

    // Whatever keeps one of the bytes from being written is a fault.
    fn write(&mut self, bytes: &[u8]) -> Result<(), OutRefusal>
        ensures faults { self.old.faults ≤ self.new.faults }
        ensures writes { WritesOut (unprinted self.old.faults) (unprinted self.new.faults) bytes.now result }
        ensures no_memory { ¬ IsErrOf result NoMemory }
        ensures whole { OnOk result (Appends (W.contents self.old.writer) (W.contents self.new.writer) bytes.now) }
    {
        match self.writer.write_all(bytes) {
            Ok(()) => Ok(()),
            Err(_) => {
                self.faults = raise(self.faults);
                Err(OutRefusal::Failed)
            }
        }
    }
}
