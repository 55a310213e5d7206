ghost use Rattle.std.specs.Prelude.{◌≡◌, ◌≤◌, ◌↔◌, Contains, Some, IsErrOf, OnErr};
ghost use Rattle.wire_core.specs.declared.output.OutRefusal.TheVariants.{Failed};
ghost use Rattle.wire_core.specs.Links.{raised};
ghost use Rattle.wire_core.specs.Output.{WritesOut};

use crate::links::raise;
use crate::list::{Blob, List};
use crate::output::{OutRefusal, Output};
use std::alloc::Global;

/// An output in memory, some of whose calls are faults. The number of its calls stands still at its last value.
#[derive(Debug, Drop)]
pub struct MemoryOutput {
    bytes: Blob,
    failing: List<u64>,
    calls: u64,
    faults: u64,
}

impl MemoryOutput {
    ghost use Rattle.wire_core.specs.MemoryOutput.{printed_of, IsNewOutput};

    /// An output that has nothing yet; the calls of these numbers, from 0, are faults.
    pub fn new(alloc: Global, failing: List<u64>) -> MemoryOutput
        ensures { IsNewOutput result failing }
    {
        MemoryOutput {
            bytes: List::new(alloc),
            failing,
            calls: 0,
            faults: 0,
        }
    }

    /// All bytes written so far.
    pub fn bytes(&self) -> &Blob
        ensures { Some result.now ≡ (printed_of self.now).bytes }
    {
        &self.bytes
    }
}

impl Output for MemoryOutput {
    ghost use Rattle.wire_core.specs.MemoryOutput.{printed_of, failing_calls, calls_of, faults_after};

    ghost printed = { printed_of };

    fn write(&mut self, bytes: &[u8]) -> Result<(), OutRefusal>
        ensures faults { (printed_of self.old).faults ≤ (printed_of self.new).faults }
        ensures writes { WritesOut (printed_of self.old) (printed_of self.new) bytes.now result }
        ensures counts { (printed_of self.new).faults ≡ faults_after result (printed_of self.old).faults }
        ensures fails { IsErrOf result Failed ↔ Contains (failing_calls self.old) (calls_of self.old) }
        ensures nothing { OnErr result ((printed_of self.new).bytes ≡ (printed_of self.old).bytes) }
        ensures calls { calls_of self.new ≡ raised (calls_of self.old) }
        ensures failing { failing_calls self.new ≡ failing_calls self.old }
    {
        let call = self.calls;
        self.calls = raise(call);
        if self.failing.as_slice().contains(&call) {
            self.faults = raise(self.faults);
            return Err(OutRefusal::Failed);
        }
        match self.bytes.extend_from_slice(bytes) {
            Ok(()) => Ok(()),
            Err(_) => Err(OutRefusal::NoMemory),
        }
    }
}
