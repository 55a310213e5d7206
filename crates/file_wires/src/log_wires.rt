//! Wires that give what came in a session log once more.
ghost use Rattle.std.specs.Prelude.{◌≡◌, List, [], true, false, length, take, Some, IfOk, OnErr};
ghost use Rattle.run_logs.specs.Runs.{entries_of, AreRuns};
ghost use Rattle.wire_core.specs.Links.{is_open_in, first_open, IsPossible};
ghost use Rattle.wire_core.specs.Outside.{IsOpen, SameWaits};
ghost use Rattle.wire_core.specs.declared.outside.Entry.{Entry as TheEntry};
ghost use Rattle.wire_core.specs.declared.outside.Side.TheVariants.{Client, Target};
ghost use Rattle.file_wires.specs.Course.{both_open, came, course};

use crate::replaying::{Place, give};
use run_logs::Run;
use script_text::SessionLog;
use std::alloc::Global;
use wire_core::{Happening, List, NoMemory, OpenFailed, SendFailed, Side, Text, Wires};
use wire_journals::Journal;

/// Wires in memory that give the bytes, ends, failures and waits in vain of a session log, in order, and keep a log of
/// all that came and went. When the log is used up, each side that is still open ends, the client first. Where memory is
/// refused, or a log would have more than 2^62 waits in vain, a link fails. What they were made over they are over
/// still, whatever was asked of them: so whoever runs a session over them knows that the log which it made is of that
/// log.
#[derive(Drop)]
pub struct LogWires {
    alloc: Global,
    journal: Journal,
    runs: List<Run>,
    place: Place,
    refused: bool,
}

impl LogWires {
    ghost use Rattle.file_wires.specs.LogWires.{told_by, links_of, is_reached, is_refused, IsReplayOf, Refuses};
    ghost use Rattle.file_wires.specs.LogWires.{GivesNext};

    /// Wires with both sides open that replay a log; `NoMemory` comes where memory is refused.
    pub fn new(alloc: Global, log: SessionLog) -> Result<LogWires, NoMemory>
        ensures replays { IfOk result (IsReplayOf (entries_of log.runs)) }
        ensures asked { IfOk result (λ w. (told_by w).asked ≡ []) }
        ensures log { IfOk result (λ w. (told_by w).log ≡ Some []) }
        ensures client { IfOk result (λ w. IsOpen Client (told_by w)) }
        ensures target { IfOk result (λ w. IsOpen Target (told_by w)) }
    {
        let journal = Journal::new(alloc)?;
        Ok(LogWires {
            alloc,
            journal,
            runs: log.runs,
            place: Place::START,
            refused: false,
        })
    }

    /// Lets the wires go.
    pub fn finish(self) {}

    /// Whether a link failed since memory was refused.
    pub fn refused(&self) -> bool
        ensures { result ≡ is_refused self.now }
    {
        self.refused
    }

    /// What came and went so far; `NoMemory` comes where memory was refused to the wires, so that a link failed. What
    /// came are the first of what the log has that they were made over, unless the target alone was reached.
    pub fn runs(&self) -> Result<&[Run], NoMemory>
        ensures whole { IfOk result (λ runs. (told_by self.now).log ≡ Some (entries_of runs.now)) }
        ensures runs { IfOk result (λ runs. AreRuns runs.now) }
        ensures in_order { IfOk result (λ runs. (told : List TheEntry) → IsReplayOf told self.now
            → is_reached self.now ≡ false
            → came (entries_of runs.now) ≡ take (length (came (entries_of runs.now))) (course both_open told)) }
    {
        if self.refused {
            return Err(NoMemory);
        }
        Ok(self.journal.runs())
    }

    // Fails a side, for want of memory.
    fn refuse(&mut self, side: Side)
        requires { is_open_in (links_of self.old) side ≡ true }
        ensures { Refuses self.old self.new side }
    {
        self.journal.fail(side);
        self.refused = true;
    }

    // Waits for what comes next, and logs it; where memory is refused, nothing is logged.
    fn hear(&mut self, buffer: &mut [u8]) -> Result<Happening, NoMemory>
        requires room { length buffer.old ≡ 65536 }
        requires some_open { is_open_in (links_of self.old) (first_open (links_of self.old)) ≡ true }
        ensures ok { IfOk result (GivesNext self.old self.new buffer.new) }
        ensures possible { IfOk result (IsPossible (links_of self.old) 65536) }
        ensures waits { SameWaits (told_by self.old) (told_by self.new) }
        ensures err { OnErr result (told_by self.new ≡ told_by self.old) }
        ensures kept { OnErr result (links_of self.new ≡ links_of self.old) }
    {
        let links = self.journal.links();
        let given = give(self.runs.as_slice(), self.place, links, buffer);
        self.journal.hear(self.alloc, buffer, given.happening)?;
        self.place = given.place;
        Ok(given.happening)
    }
}

impl Wires for LogWires {
    ghost use Rattle.file_wires.specs.LogWires.{told_by, StaysReplay};

    ghost outside = { told_by };

    ghost stays = { StaysReplay };

    // It answers `OpenFailed` exactly where a side isn't open.
    fn connect(&mut self, listen: Text, target: Text) -> Result<(), OpenFailed> {
        self.journal.connect(listen, target)
    }

    // It answers `OpenFailed` exactly where the target's side isn't open. The client's side is shut in either case, so
    // that its entries are passed over.
    fn reach(&mut self, target: Text) -> Result<(), OpenFailed> {
        self.journal.reach(target)
    }

    fn next(&mut self, buffer: &mut [u8]) -> Happening {
        self.journal.wait();
        match self.hear(buffer) {
            Ok(happening) => happening,
            Err(NoMemory) => {
                let side = self.journal.links().first();
                self.refuse(side);
                Happening::Failed(side)
            }
        }
    }

    fn send(&mut self, side: Side, bytes: &[u8]) -> Result<(), SendFailed> {
        match self.journal.send(self.alloc, side, bytes) {
            Ok(()) => Ok(()),
            Err(NoMemory) => {
                self.refuse(side);
                Err(SendFailed)
            }
        }
    }

    ghost stays_so = { λ w log replay. replay };

    ghost stays_on = { λ u v w a b log replay. b log (a log replay) };
}
