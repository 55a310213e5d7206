ghost use Rattle.std.specs.Prelude.{◌≤◌};
ghost use Rattle.wire_core.specs.Output.{Printed, WritesOut};

/// Why bytes were not written: memory ran out, and none was written; or the output failed, maybe after some of them.
#[derive(Clone, Copy, Debug, PartialEq, Eq)]
pub enum OutRefusal {
    NoMemory,
    Failed,
}

/// Where a run prints. What a value tells of itself is what it `printed`.
pub trait Output {
    ghost printed: { Self → Printed };

    /// Writes all bytes.
    fn write(&mut self, bytes: &[u8]) -> Result<(), OutRefusal>
        ensures faults { (printed self.old).faults ≤ (printed self.new).faults }
        ensures writes { WritesOut (printed self.old) (printed self.new) bytes.now result };
}
