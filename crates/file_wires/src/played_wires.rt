//! Wires that play a script.
ghost use Rattle.std.specs.Prelude.{◌≡◌, [], false, Some, IfOk};
ghost use Rattle.script_rows.specs.declared.script.Script.{Script as TheScript};
ghost use Rattle.wire_core.specs.Outside.{IsOpen};
ghost use Rattle.run_logs.specs.Runs.{entries_of, AreRuns};
ghost use Rattle.wire_core.specs.declared.outside.Side.TheVariants.{Client, Target};

use run_logs::Run;
use script_rows::Script;
use script_wires::ScriptWires;
use std::alloc::Global;
use wire_core::{Happening, NoMemory, OpenFailed, SendFailed, Side, Text, Wires};

/// Wires over a script. What they were made over they are over still, whatever was asked of them: so whoever runs a
/// session over them knows that the log which it made is of this script.
#[derive(Drop)]
pub struct PlayedWires {
    wires: ScriptWires,
}

impl PlayedWires {
    ghost use Rattle.file_wires.specs.PlayedWires.{told_by, is_reached, IsPlayOf, IsLogOf};

    /// Wires with both sides open that play a script; `NoMemory` comes where memory is refused.
    pub fn new(alloc: Global, script: Script) -> Result<PlayedWires, NoMemory>
        ensures plays { IfOk result (IsPlayOf script) }
        ensures asked { IfOk result (λ w. (told_by w).asked ≡ []) }
        ensures log { IfOk result (λ w. (told_by w).log ≡ Some []) }
        ensures client { IfOk result (λ w. IsOpen Client (told_by w)) }
        ensures target { IfOk result (λ w. IsOpen Target (told_by w)) }
    {
        let wires = ScriptWires::new(alloc, script)?;
        Ok(PlayedWires { wires })
    }

    /// Lets the wires go.
    pub fn finish(self) {
        let PlayedWires { wires } = self;
        wires.finish();
    }

    /// What came and went so far; `NoMemory` comes where memory was refused to the wires, so that a link failed.
    pub fn runs(&self) -> Result<&[Run], NoMemory>
        ensures whole { IfOk result (λ runs. (told_by self.now).log ≡ Some (entries_of runs.now)) }
        ensures runs { IfOk result (λ runs. AreRuns runs.now) }
        ensures played { IfOk result (λ runs. (script : TheScript) → IsPlayOf script self.now
            → is_reached self.now ≡ false → IsLogOf script (entries_of runs.now)) }
    {
        if self.wires.refused() {
            return Err(NoMemory);
        }
        Ok(self.wires.runs())
    }
}

impl Wires for PlayedWires {
    ghost use Rattle.file_wires.specs.PlayedWires.{told_by, StaysPlay};

    ghost outside = { told_by };

    ghost stays = { StaysPlay };

    fn connect(&mut self, listen: Text, target: Text) -> Result<(), OpenFailed> {
        self.wires.connect(listen, target)
    }

    fn reach(&mut self, target: Text) -> Result<(), OpenFailed> {
        self.wires.reach(target)
    }

    fn next(&mut self, buffer: &mut [u8]) -> Happening {
        self.wires.next(buffer)
    }

    fn send(&mut self, side: Side, bytes: &[u8]) -> Result<(), SendFailed> {
        self.wires.send(side, bytes)
    }

    ghost stays_so = { λ w script over. over };

    ghost stays_on = { λ u v w a b script over. b script (a script over) };
}
