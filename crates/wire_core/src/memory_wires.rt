ghost use Rattle.std.specs.Prelude.{◌≡◌, ◌+◌, ◌<◌, ◌≤◌, ◌↔◌, ◌⊎◌, true, false, [], ◌∷◌, ◌++◌, length, IfOk, IsOk, OnOk};
ghost use Rattle.std.specs.Prelude.{OnErr, IsTrue};
ghost use Rattle.wire_core.specs.declared.outside.Side.TheVariants.{Client, Target};
ghost use Rattle.wire_core.specs.declared.outside.Happening.TheVariants.{Failed as fails};
ghost use Rattle.wire_core.specs.declared.outside.Entry.TheVariants.{Out, Failed};
ghost use Rattle.wire_core.specs.Outside.{other_side, entry_of, Adds, IsOpen, HasOpen, Connects, FailsToConnect, Hears};
ghost use Rattle.wire_core.specs.Outside.{Reaches, FailsToReach, SameWaits, Sends, FailsToSend};
ghost use Rattle.wire_core.specs.Links.{raised, is_open_in, open_count, Counts, IsWithin};
ghost use Rattle.wire_core.specs.SendCounts.{count_to};
ghost use Rattle.wire_core.specs.Entries.{HasCopy};
ghost use Rattle.wire_core.specs.Log.{HasRoom, HasRoomLeft, entries};

use crate::links::{Links, raise};
use crate::list::{Blob, List};
use crate::log::{Log, entry};
use crate::memory::NoMemory;
use crate::names::Names;
use crate::outside::{Entry, Happening, OpenFailed, SendFailed, Side, Wires};
use crate::script::{Cut, Place, Step, give, kept};
use crate::text::Text;
use std::alloc::Global;

/// How many sends each side had. A number stands still at its last value.
#[derive(Clone, Copy, Debug, PartialEq, Eq)]
struct SendCounts {
    client: u64,
    target: u64,
}

/// Wires in memory: they give the steps that they were made with, fail the sends that they were told to fail, and
/// keep a log of all that came and went. When the steps are used up, each side that is still open ends, the client
/// first. Where memory is refused to the log, a link fails.
#[derive(Debug, Drop)]
pub struct MemoryWires {
    alloc: Global,
    log: Log,
    waits: u64,
    links: Links,
    open_faults: u64,
    asked: Option<Names>,
    steps: List<Step>,
    place: Place,
    failing: List<Cut>,
    sends: SendCounts,
    refused: bool,
    // a failure of each side that is open can be logged without memory
    ghost room: { HasRoom log (open_count links) },
}

impl SendCounts {
    fn to(self, side: Side) -> u64
        ensures { result ≡ count_to side self }
    {
        match side {
            Side::Client => self.client,
            Side::Target => self.target,
        }
    }

    // The counts after one more send to the side.
    fn after(self, side: Side) -> SendCounts
        ensures side { count_to side result ≡ raised (count_to side self) }
        ensures other { count_to (other_side side) result ≡ count_to (other_side side) self }
    {
        match side {
            Side::Client => SendCounts {
                client: raise(self.client),
                ..self
            },
            Side::Target => SendCounts {
                target: raise(self.target),
                ..self
            },
        }
    }
}

impl MemoryWires {
    ghost use Rattle.wire_core.specs.MemoryWires.{outside_of, steps_of, failing_of, is_refused, IsNew, Refuses};
    ghost use Rattle.wire_core.specs.MemoryWires.{LogsSend, BreaksSend, RefusesBytes};

    /// Wires with both sides open that give these steps, and fail these sends; `NoMemory` comes where memory is
    /// refused.
    pub fn new(
        alloc: Global,
        steps: List<Step>,
        failing: List<Cut>,
    ) -> Result<MemoryWires, NoMemory>
        ensures { IfOk result (λ wires. IsNew wires steps failing true) }
    {
        let mut log = Log::new(alloc);
        log.reserve(2)?;
        Ok(MemoryWires {
            alloc,
            log,
            waits: 0,
            links: Links::new(true),
            open_faults: 0,
            asked: None,
            steps,
            place: Place::START,
            failing,
            sends: SendCounts {
                client: 0,
                target: 0,
            },
            refused: false,
        })
    }

    /// Wires with both sides closed, which no call opens.
    pub fn closed(alloc: Global) -> MemoryWires
        ensures { IsNew result [] [] false }
    {
        MemoryWires {
            alloc,
            log: Log::new(alloc),
            waits: 0,
            links: Links::new(false),
            open_faults: 0,
            asked: None,
            steps: List::new(alloc),
            place: Place::START,
            failing: List::new(alloc),
            sends: SendCounts {
                client: 0,
                target: 0,
            },
            refused: false,
        }
    }

    /// What came and went so far.
    pub fn log(&self) -> &Log
        ensures { (outside_of self.now).log ≡ Some (entries result.now) }
    {
        &self.log
    }

    /// Whether a link failed since memory was refused to the log.
    pub fn refused(&self) -> bool
        ensures { result ≡ is_refused self.now }
    {
        self.refused
    }

    // Logs and counts the failure of a side, for which room was kept.
    fn fail(&mut self, side: Side)
        requires { is_open_in self.old.links side ≡ true }
        ensures log { Adds (outside_of self.old) (outside_of self.new) (Failed side ∷ []) }
        ensures links { Counts (outside_of self.old) (outside_of self.new) (fails side) }
        ensures steps { steps_of self.new ≡ steps_of self.old }
        ensures sends { self.new.sends ≡ self.old.sends }
        ensures failing { failing_of self.new ≡ failing_of self.old }
        ensures refused { is_refused self.new ≡ is_refused self.old }
        ensures waits { SameWaits (outside_of self.old) (outside_of self.new) }
    {
        self.log.add_reserved(Entry::Failed(side));
        self.links = self.links.after(Happening::Failed(side));
    }

    // Fails a side, for want of memory for the log.
    fn refuse(&mut self, side: Side)
        requires { is_open_in self.old.links side ≡ true }
        ensures refuses { Refuses self.old self.new side }
        ensures sends { self.new.sends ≡ self.old.sends }
        ensures failing { failing_of self.new ≡ failing_of self.old }
        ensures waits { SameWaits (outside_of self.old) (outside_of self.new) }
    {
        self.fail(side);
        self.refused = true;
    }

    // Logs a send that no cut names.
    fn send_whole(&mut self, side: Side, bytes: &[u8]) -> Result<(), SendFailed>
        requires { is_open_in self.old.links side ≡ true }
        ensures ok { OnOk result (LogsSend self.old self.new side bytes.now) }
        ensures err { OnErr result (Refuses self.old self.new side) }
        ensures sends { self.new.sends ≡ self.old.sends }
        ensures failing { failing_of self.new ≡ failing_of self.old }
        ensures waits { SameWaits (outside_of self.old) (outside_of self.new) }
    {
        match log_send(
            self.alloc,
            &mut self.log,
            side,
            bytes,
            self.links.open_count(),
        ) {
            Ok(()) => Ok(()),
            Err(NoMemory) => {
                self.refuse(side);
                Err(SendFailed)
            }
        }
    }

    // Logs a send that fails after so many bytes.
    fn send_part(&mut self, side: Side, bytes: &[u8])
        requires { is_open_in self.old.links side ≡ true }
        ensures part { BreaksSend self.old self.new side bytes.now ⊎ RefusesBytes self.old self.new side bytes.now }
        ensures sends { self.new.sends ≡ self.old.sends }
        ensures failing { failing_of self.new ≡ failing_of self.old }
        ensures waits { SameWaits (outside_of self.old) (outside_of self.new) }
    {
        if bytes.is_empty() {
            self.fail(side);
            return;
        }
        match log_send(
            self.alloc,
            &mut self.log,
            side,
            bytes,
            self.links.open_count(),
        ) {
            Ok(()) => self.fail(side),
            Err(NoMemory) => self.refuse(side),
        }
    }
}

// Logs bytes that went out, and keeps room for so many entries behind them.
fn log_send(
    alloc: Global,
    log: &mut Log,
    side: Side,
    bytes: &[u8],
    kept: usize,
) -> Result<(), NoMemory>
    requires { kept ≤ 2 }
    ensures ok { OnOk result (entries log.new ≡ entries log.old ++ Out side bytes.now ∷ []) }
    ensures room { OnOk result (HasRoom log.new kept) }
    ensures err { OnErr result (entries log.new ≡ entries log.old) }
    ensures kept { OnErr result (HasRoomLeft log.old log.new 0) }
{
    log.add(Entry::Out(side, Blob::from_slice(alloc, bytes)?), kept)
}

// Logs what came, and keeps room for so many entries behind it.
fn log_happening(
    alloc: Global,
    log: &mut Log,
    buffer: &[u8],
    happening: Happening,
    kept: usize,
) -> Result<(), NoMemory>
    requires room { kept ≤ 2 }
    requires within { IsWithin (length buffer.now) happening }
    ensures ok { OnOk result (entries log.new ≡ entries log.old ++ entry_of buffer.now happening ∷ []) }
    ensures room { OnOk result (HasRoom log.new kept) }
    ensures err { OnErr result (entries log.new ≡ entries log.old) }
    ensures kept { OnErr result (HasRoomLeft log.old log.new 0) }
    ensures needs { OnErr result (HasRoom log.old (kept + 1) → HasCopy (entry_of buffer.now happening)) }
{
    log.add(entry(alloc, buffer, happening)?, kept)
}

impl Wires for MemoryWires {
    ghost use Rattle.wire_core.specs.MemoryWires.{outside_of, KeepsScript, NextInMemory, SendsInMemory, KeepsSends};
    ghost use Rattle.wire_core.specs.MemoryWires.{CountsSend, ShutsClient};

    ghost outside = { outside_of };

    ghost stays = { λ v w. Unit {0} };

    // It answers `OpenFailed` exactly where a side isn't open.
    fn connect(&mut self, listen: Text, target: Text) -> Result<(), OpenFailed>
        requires { (outside_of self.old).asked ≡ [] }
        ensures ok { OnOk result (Connects (outside_of self.old) (outside_of self.new) listen target) }
        ensures err { OnErr result (FailsToConnect (outside_of self.old) (outside_of self.new) listen target) }
        ensures both_open { IsOk result
            ↔ (IsOpen Client (outside_of self.old) × IsOpen Target (outside_of self.old)) }
        ensures no_fault { OnOk result (self.new.open_faults ≡ self.old.open_faults) }
        ensures one_fault { OnErr result (self.new.open_faults ≡ raised self.old.open_faults) }
        ensures script { KeepsScript self.old self.new }
    {
        self.asked = Some(Names {
            listen: Some(listen),
            target,
        });
        if self.links.is_open(Side::Client) && self.links.is_open(Side::Target) {
            return Ok(());
        }
        self.open_faults = raise(self.open_faults);
        Err(OpenFailed)
    }

    // It answers `OpenFailed` exactly where the target's side isn't open. The client's steps are passed over then.
    fn reach(&mut self, target: Text) -> Result<(), OpenFailed>
        requires { (outside_of self.old).asked ≡ [] }
        ensures ok { OnOk result (Reaches (outside_of self.old) (outside_of self.new) target) }
        ensures err { OnErr result (FailsToReach (outside_of self.old) (outside_of self.new) target) }
        ensures target_open { IsOk result ↔ IsOpen Target (outside_of self.old) }
        ensures no_fault { OnOk result (self.new.open_faults ≡ self.old.open_faults) }
        ensures one_fault { OnErr result (self.new.open_faults ≡ raised self.old.open_faults) }
        ensures shuts { OnOk result (ShutsClient self.old self.new) }
        ensures script { OnErr result (KeepsScript self.old self.new) }
    {
        self.asked = Some(Names {
            listen: None,
            target,
        });
        if self.links.is_open(Side::Target) {
            self.links = self.links.reached();
            return Ok(());
        }
        self.open_faults = raise(self.open_faults);
        Err(OpenFailed)
    }

    fn next(&mut self, buffer: &mut [u8]) -> Happening
        requires room { length buffer.old ≡ 65536 }
        requires some_open { HasOpen (outside_of self.old) }
        ensures hears { Hears (outside_of self.old) (outside_of self.new) buffer.new result }
        ensures comes { NextInMemory self.old self.new buffer.new result }
        ensures sends { KeepsSends self.old self.new }
    {
        self.waits = raise(self.waits);
        let given = give(self.steps.as_slice(), self.place, self.links, buffer);
        let links = self.links.after(given.happening);
        let kept = links.open_count();
        match log_happening(self.alloc, &mut self.log, buffer, given.happening, kept) {
            Ok(()) => {
                self.links = links;
                self.place = given.place;
                given.happening
            }
            Err(NoMemory) => {
                let side = self.links.first();
                self.refuse(side);
                Happening::Failed(side)
            }
        }
    }

    fn send(&mut self, side: Side, bytes: &[u8]) -> Result<(), SendFailed>
        requires is_open { IsOpen side (outside_of self.old) }
        requires some_bytes { 0 < length bytes.now }
        ensures ok { OnOk result (Sends (outside_of self.old) (outside_of self.new) side bytes.now) }
        ensures err { OnErr result (FailsToSend (outside_of self.old) (outside_of self.new) side bytes.now) }
        ensures script { SendsInMemory self.old self.new side bytes.now result }
        ensures sends { CountsSend self.old self.new side }
    {
        let call = self.sends.to(side);
        self.sends = self.sends.after(side);
        match kept(self.failing.as_slice(), side, call) {
            None => self.send_whole(side, bytes),
            Some(kept) => {
                let kept = (kept as usize).min(bytes.len() - 1);
                self.send_part(side, &bytes[..kept]);
                Err(SendFailed)
            }
        }
    }

    ghost stays_so = { λ w. record {} };

    ghost stays_on = { λ u v w a b. record {} };
}
