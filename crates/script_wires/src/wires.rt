//! Wires that join a bridge to a scripted target.
ghost use Rattle.std.specs.Prelude.{◌≡◌, ◌<◌, true, [], length, IfOk, IsOk, OnOk, OnErr, Some, ◌↔◌};
ghost use Rattle.wire_core.specs.declared.outside.Side.TheVariants.{Client, Target};
ghost use Rattle.wire_core.specs.Outside.{IsOpen, HasOpen, Connects, FailsToConnect, Reaches, FailsToReach};
ghost use Rattle.wire_core.specs.Outside.{Hears, SameWaits, Sends, FailsToSend};
ghost use Rattle.wire_core.specs.Links.{is_open_in, first_open, IsPossible};
ghost use Rattle.run_logs.specs.Runs.{entries_of, AreRuns};

use crate::play::Play;
use run_logs::Run;
use script_rows::Script;
use std::alloc::Global;
use wire_core::{Happening, NoMemory, OpenFailed, SendFailed, Side, Text, Wires};
use wire_journals::Journal;

/// Wires that join a bridge to a scripted target: what comes is what a script's schedule gives, and what is sent to the
/// target is fed to it. They keep a log of all that came and went. When the schedule is used up, each side that is
/// still open ends, the client first. Where memory is refused, a link fails; so it does where a number of the wires
/// would reach 2^63, a packet of the target would be too long, or a wait in vain would stand behind 2^62 of them.
#[derive(Drop)]
pub struct ScriptWires {
    alloc: Global,
    journal: Journal,
    play: Play,
    refused: bool,
}

impl ScriptWires {
    ghost use Rattle.script_wires.specs.ScriptWires.{outside_of, links_of, is_refused, IsNew, Refuses, GivesNext};
    ghost use Rattle.script_wires.specs.ScriptWires.{SendsAll};

    /// Wires with both sides open that stand at the beginning of a script; `NoMemory` comes where memory is refused.
    pub fn new(alloc: Global, script: Script) -> Result<ScriptWires, NoMemory>
        ensures { IfOk result (IsNew script) }
    {
        let journal = Journal::new(alloc)?;
        let play = Play::new(alloc, script);
        Ok(ScriptWires {
            alloc,
            journal,
            play,
            refused: false,
        })
    }

    /// What came and went so far, where waits in vain that follow each other are one run.
    pub fn runs(&self) -> &[Run]
        ensures log { (outside_of self.now).log ≡ Some (entries_of result.now) }
        ensures runs { AreRuns result.now }
    {
        self.journal.runs()
    }

    /// Lets the wires go.
    pub fn finish(self) {}

    /// Whether a link failed since memory was refused.
    pub fn refused(&self) -> bool
        ensures { result ≡ is_refused self.now }
    {
        self.refused
    }

    // Fails a side, for want of memory.
    fn refuse(&mut self, side: Side)
        requires { is_open_in (links_of self.old) side ≡ true }
        ensures refuses { Refuses self.old self.new side }
        ensures waits { SameWaits (outside_of self.old) (outside_of self.new) }
    {
        self.journal.fail(side);
        self.refused = true;
    }

    // Waits for what comes next, and logs it; where memory is refused, nothing is logged.
    fn hear(&mut self, buffer: &mut [u8]) -> Result<Happening, NoMemory>
        requires room { length buffer.old ≡ 65536 }
        requires some_open { is_open_in (links_of self.old) (first_open (links_of self.old)) ≡ true }
        ensures ok { IfOk result (GivesNext self.old self.new buffer.new) }
        ensures possible { IfOk result (IsPossible (links_of self.old) 65536) }
        ensures waits { SameWaits (outside_of self.old) (outside_of self.new) }
        ensures err { OnErr result (outside_of self.new ≡ outside_of self.old) }
        ensures kept { OnErr result (links_of self.new ≡ links_of self.old) }
    {
        let links = self.journal.links();
        let happening = self.play.next(self.alloc, links, buffer)?;
        self.journal.hear(self.alloc, buffer, happening)?;
        Ok(happening)
    }

    // The target gets what is sent to it, and all is logged; where memory is refused, nothing is logged.
    fn pass_on(&mut self, side: Side, bytes: &[u8]) -> Result<(), NoMemory>
        ensures ok { OnOk result (SendsAll self.old self.new side bytes.now) }
        ensures waits { SameWaits (outside_of self.old) (outside_of self.new) }
        ensures err { OnErr result (outside_of self.new ≡ outside_of self.old) }
        ensures kept { OnErr result (links_of self.new ≡ links_of self.old) }
    {
        self.play.take_in(self.alloc, side, bytes)?;
        self.journal.send(self.alloc, side, bytes)?;
        Ok(())
    }
}

impl Wires for ScriptWires {
    ghost use Rattle.script_wires.specs.ScriptWires.{outside_of, KeepsPlaying, LeavesClient, NextOfScript, SendsOfScript};
    ghost use Rattle.script_wires.specs.ScriptWires.{StaysOver};

    ghost outside = { outside_of };

    ghost stays = { StaysOver };

    // It answers `OpenFailed` exactly where a side isn't open.
    fn connect(&mut self, listen: Text, target: Text) -> Result<(), OpenFailed>
        requires { (outside_of self.old).asked ≡ [] }
        ensures ok { OnOk result (Connects (outside_of self.old) (outside_of self.new) listen target) }
        ensures err { OnErr result (FailsToConnect (outside_of self.old) (outside_of self.new) listen target) }
        ensures both_open { IsOk result
            ↔ (IsOpen Client (outside_of self.old) × IsOpen Target (outside_of self.old)) }
        ensures playing { KeepsPlaying self.old self.new }
        ensures stays { StaysOver self.old self.new }
    {
        self.journal.connect(listen, target)
    }

    // It answers `OpenFailed` exactly where the target's side isn't open. The client's side is shut in either case, so that
    // the client's lines are passed over.
    fn reach(&mut self, target: Text) -> Result<(), OpenFailed>
        requires { (outside_of self.old).asked ≡ [] }
        ensures ok { OnOk result (Reaches (outside_of self.old) (outside_of self.new) target) }
        ensures err { OnErr result (FailsToReach (outside_of self.old) (outside_of self.new) target) }
        ensures target_open { IsOk result ↔ IsOpen Target (outside_of self.old) }
        ensures leaves { LeavesClient self.old self.new }
        ensures stays { StaysOver self.old self.new }
    {
        self.journal.reach(target)
    }

    fn next(&mut self, buffer: &mut [u8]) -> Happening
        requires room { length buffer.old ≡ 65536 }
        requires some_open { HasOpen (outside_of self.old) }
        ensures hears { Hears (outside_of self.old) (outside_of self.new) buffer.new result }
        ensures comes { NextOfScript self.old self.new buffer.new result }
        ensures stays { StaysOver self.old self.new }
    {
        self.journal.wait();
        match self.hear(buffer) {
            Ok(happening) => happening,
            Err(NoMemory) => {
                let side = self.journal.links().first();
                self.refuse(side);
                Happening::Failed(side)
            }
        }
    }

    fn send(&mut self, side: Side, bytes: &[u8]) -> Result<(), SendFailed>
        requires is_open { IsOpen side (outside_of self.old) }
        requires some_bytes { 0 < length bytes.now }
        ensures ok { OnOk result (Sends (outside_of self.old) (outside_of self.new) side bytes.now) }
        ensures err { OnErr result (FailsToSend (outside_of self.old) (outside_of self.new) side bytes.now) }
        ensures sends { SendsOfScript self.old self.new side bytes.now result }
        ensures stays { StaysOver self.old self.new }
    {
        match self.pass_on(side, bytes) {
            Ok(()) => Ok(()),
            Err(NoMemory) => {
                self.refuse(side);
                Err(SendFailed)
            }
        }
    }

    ghost stays_so = { λ w script over. over };

    ghost stays_on = { λ u v w a b script over. b script (a script over) };
}
