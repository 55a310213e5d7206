//! A scripted target, over the bytes of its link.
ghost use Rattle.std.specs.Prelude.{◌≡◌, ◌<◌, ◌++◌, true, false, Ok, Err, Some, None, length, take, drop};
ghost use Rattle.std.specs.Prelude.{slice_get, IfErr, OnOk};
ghost use Rattle.jdwp_packets.specs.Receiving.{nothing_received};
ghost use Rattle.target_server.specs.declared.trouble.TargetTrouble.{TargetTrouble as ATrouble};
ghost use Rattle.target_server.specs.Flights.{count_out};
ghost use Rattle.target_server.specs.Hearing.{fed, next_of, passed, Answers, TakesOne, TakesAll};
ghost use Rattle.target_server.specs.Hearing.{TakesUpTo, Hears, HearsUpTo, Feeds, FeedsUpTo, IfSaid};
ghost use Rattle.target_server.specs.Joints.{joint_of, Serves, next_move, Advances, left};

use crate::hearing::next_command;
use crate::limits::end_behind;
use crate::link::Link;
use crate::trouble::TargetTrouble;
use jdwp_events::Policy;
use jdwp_packets::PacketCutter;
use jdwp_values::ThreadId;
use std::alloc::Global;
use std::marker::Model;
use wire_core::{List, NoMemory};
use world_model::{Move, World};

/// A scripted target: a world, the moves of its program, and the bytes of the link to its debugger (JDWP, JDWP Start Up;
/// JDWP, JDWP Packets). Contracts see its joint, what was fed to it and not taken, and why it takes nothing more. After
/// `NoMemory` nothing is said of it.
#[derive(Debug, Drop)]
pub struct Target {
    link: Link,
    cutter: PacketCutter,
    // how many bytes were fed, at most
    bytes_fed: u64,
    trouble: Option<TargetTrouble>,
}

impl Model for Target {
    ghost use Rattle.std.specs.Prelude.{◌<◌, ◌≤◌, ◌^◌};
    ghost use Rattle.target_server.specs.Hearing.{TargetState, heard_end};

    ghost Value = { TargetState };

    ghost view = { λ t. record { joint = t.link; heard = t.cutter; trouble = t.trouble } };

    ghost invariant = { λ t. (heard_end t.cutter ≤ t.bytes_fed) × (t.bytes_fed < 2 ^ 63) };
}

impl Target {
    /// A target to which nothing was fed: a world, the moves that its program makes, and the thread and the suspend
    /// policy of its start, where that is told behind the handshakes. It takes no memory (JDWP, Event command set,
    /// Composite, VMStart).
    pub fn new(
        alloc: Global,
        world: World,
        program: List<Move>,
        begin: Option<(ThreadId, Policy)>,
    ) -> Target
        ensures { result
            ≡ record { joint = joint_of world program begin; heard = nothing_received; trouble = None } }
    {
        Target {
            link: Link::new(alloc, world, program, begin),
            cutter: PacketCutter::new(alloc),
            bytes_fed: 0,
            trouble: None,
        }
    }

    /// Takes the next piece of the debugger's stream: its handshake, which is answered as soon as it is there, and then
    /// its commands, which wait to be served. After a trouble, unless memory was refused, nothing more is taken, and
    /// that trouble is answered again; the commands before it stay. `NoMemory` comes too where the stream would have 2^63
    /// bytes.
    pub fn feed(&mut self, alloc: Global, piece: &[u8]) -> Result<(), TargetTrouble>
        ensures ok { OnOk result (Feeds self.old piece.now self.new) }
        ensures err { IfErr result
            (IfSaid (λ trouble. self.old.trouble ≡ None → FeedsUpTo self.old piece.now trouble self.new)) }
        ensures again { (trouble : ATrouble) → self.old.trouble ≡ Some trouble
            → (result ≡ Err trouble) × (self.new ≡ self.old) }
    {
        if let Some(trouble) = self.trouble {
            return Err(trouble);
        }
        match self.hear(alloc, piece) {
            Ok(()) => Ok(()),
            Err(trouble) => {
                self.trouble = Some(trouble);
                Err(trouble)
            }
        }
    }

    /// Serves the command at a place of those that wait, from 0: its reply goes on its way, and behind it the target's
    /// end, where that was asked for. `false` comes where no command is at that place. `NoMemory` comes too where the
    /// world has no number left for it, and where the reply has no spelling or a packet has no room for it.
    pub fn serve_one(&mut self, alloc: Global, place: u32) -> Result<bool, NoMemory>
        ensures served { result ≡ Ok true → Serves self.old.joint place self.new.joint }
        ensures others { result ≡ Ok true
            → self.new ≡ record self.old { joint = self.new.joint } }
        ensures none { result ≡ Ok false
            → (slice_get self.old.joint.unserved place ≡ None) × (self.new ≡ self.old) }
    {
        self.link.serve_one(alloc, place as usize)
    }

    /// Makes the program's next move; the events that tell of it go on their way. `false` comes where none can be made:
    /// the target has ended, all threads are suspended, the program is at its end, or its next move can't be made in
    /// this world. `NoMemory` comes too where the events have no spelling or a packet has no room for them.
    pub fn advance(&mut self, alloc: Global) -> Result<bool, NoMemory>
        ensures made { result ≡ Ok true → Advances self.old.joint self.new.joint }
        ensures others { result ≡ Ok true
            → self.new ≡ record self.old { joint = self.new.joint } }
        ensures none { result ≡ Ok false
            → (next_move self.old.joint.world self.old.joint.program ≡ None) × (self.new ≡ self.old) }
    {
        self.link.advance(alloc)
    }

    /// Moves the first bytes on their way out, as many as there are and have room, and answers their number. It takes no
    /// memory.
    pub fn out(&mut self, buf: &mut [u8]) -> usize
        ensures count { result ≡ count_out (length buf.old) self.old.joint.flight }
        ensures bytes { buf.new ≡ take result self.old.joint.flight.bytes ++ drop result buf.old }
        ensures rest { self.new ≡ record self.old { joint = left result self.old.joint } }
    {
        self.link.out(buf)
    }
}

impl Target {
    // Takes the next piece of the debugger's stream.
    fn hear(&mut self, alloc: Global, piece: &[u8]) -> Result<(), TargetTrouble>
        ensures ok { OnOk result (Hears self.old piece.now self.new) }
        ensures err { IfErr result (IfSaid (λ trouble. HearsUpTo self.old piece.now trouble self.new)) }
    {
        self.add(piece)?;
        self.answer(alloc)?;
        self.take_all(alloc)
    }

    // Adds a piece to the debugger's stream.
    fn add(&mut self, piece: &[u8]) -> Result<(), NoMemory>
        ensures { OnOk result (self.new ≡ fed self.old piece.now) }
    {
        self.bytes_fed = end_behind(self.bytes_fed, piece.len())?;
        self.cutter.feed(piece)
    }

    // Answers the debugger's handshake, where it came and wasn't answered.
    fn answer(&mut self, alloc: Global) -> Result<(), NoMemory>
        ensures { OnOk result (Answers self.old self.new) }
    {
        if self.link.is_greeted() {
            return Ok(());
        }
        if !self.cutter.is_greeted() {
            return Ok(());
        }
        self.link.greet(alloc)
    }

    // Takes the next command, and says whether there was one.
    fn take_one(&mut self, alloc: Global) -> Result<bool, TargetTrouble>
        ensures took { result ≡ Ok true → TakesOne self.old self.new }
        ensures fewer { result ≡ Ok true
            → length self.new.heard.stream.pending < length self.old.heard.stream.pending }
        ensures none { result ≡ Ok false → (next_of self.old ≡ Ok None) × (self.new ≡ self.old) }
        ensures refused { IfErr result
            (IfSaid (λ trouble. (next_of self.old ≡ Err trouble) × (self.new ≡ passed self.old))) }
    {
        let sizes = self.link.sizes();
        let Some(command) = next_command(alloc, &mut self.cutter, sizes)? else {
            return Ok(false);
        };
        self.link.receive(command)?;
        Ok(true)
    }

    // Takes all commands that are whole.
    fn take_all(&mut self, alloc: Global) -> Result<(), TargetTrouble>
        ensures ok { OnOk result (TakesAll self.old self.new) }
        ensures err { IfErr result (IfSaid (λ trouble. TakesUpTo self.old trouble self.new)) }
    {
        while self.take_one(alloc)? {}
        Ok(())
    }
}
