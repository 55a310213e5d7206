//! What the target's packets do to a session.
ghost use Rattle.std.specs.Prelude.{◌≡◌, Some, IfErr, OnOk};
ghost use Rattle.jdwp_packets.specs.Packets.{command_packet, reply_packet};
ghost use Rattle.machine_model.specs.Runs.{with_item};
ghost use Rattle.machine_model.specs.declared.items.Item.TheVariants.{Raw as a_raw};
ghost use Rattle.pending_table.specs.Windows.{place_under};
ghost use Rattle.bridge_core.specs.Calls.{RefusesPacket, TakesPacket, offset_of, packet_of};
ghost use Rattle.bridge_core.specs.Cores.{IsReady, with_machine};
ghost use Rattle.bridge_core.specs.Packets.{Hears, IsSettled, IsTakenIn, IsUnsettled, IsUntaken};
ghost use Rattle.session_endings.specs.declared.ending.Ending.TheVariants.{BadTarget, NoMemory as no_memory};

use crate::session::Core;
use jdwp_packets::Packet;
use jdwp_values::IdSizes;
use machine_model::Item;
use message_bodies::{is_composite, judged, known, serving};
use session_endings::{Ending, TargetFault};
use std::alloc::Global;
use target_bodies::composite;
use wire_core::Blob;

// The ending by a fault of the target's at an offset.
fn target_fault(fault: TargetFault, at: u64, id: u32) -> Ending
    ensures { result ≡ BadTarget fault at id }
{
    Ending::BadTarget { fault, at, id }
}

impl Core {
    /// Hears a packet of the target (JDWP, JDWP Packets).
    pub fn target_packet(&mut self, alloc: Global, packet: Packet<'_>) -> Result<(), Ending>
        requires { IsReady self.old }
        ensures ok { OnOk result (TakesPacket self.old (offset_of packet.entry) (packet_of packet.entry) self.new) }
        ensures ready { OnOk result (IsReady self.new) }
        ensures err { IfErr result (RefusesPacket self.old (offset_of packet.entry) (packet_of packet.entry) self.new) }
    {
        match packet {
            Packet::Command {
                at,
                id,
                set,
                command,
                body,
            } => {
                self.take_command(alloc, at, id, set, command, body)?;
                self.make_room()
            }
            Packet::Reply {
                at,
                id,
                error,
                body,
            } => {
                self.take_reply(alloc, at, id, error, body)?;
                self.make_room()
            }
        }
    }

    // A command of the target's is a composite, which is kept until the sizes of ids are known.
    pub(crate) fn take_command(
        &mut self,
        alloc: Global,
        at: u64,
        id: u32,
        set: u8,
        command: u8,
        body: &[u8],
    ) -> Result<(), Ending>
        requires { IsReady self.old }
        ensures ok { OnOk result (Hears self.old at (command_packet id set command body.now) self.new) }
        ensures err { IfErr result (RefusesPacket self.old at (command_packet id set command body.now) self.new) }
    {
        if !is_composite(set, command) {
            return Err(target_fault(TargetFault::BadCommand, at, 0));
        }
        match self.machine.state.sizes() {
            None => self.keep(alloc, at, body),
            Some(sizes) => self.come(alloc, known(sizes)?, at, body),
        }
    }

    // A composite is kept until it can be read.
    fn keep(&mut self, alloc: Global, at: u64, body: &[u8]) -> Result<(), Ending>
        ensures ok { OnOk result (self.new
            ≡ with_machine self.old (with_item self.old.machine (a_raw at body.now))) }
        ensures err { IfErr result (λ ending. ending ≡ no_memory) }
    {
        let body = Blob::from_slice(alloc, body)?;
        self.machine.add(Item::Raw { at, body })?;
        Ok(())
    }

    // A composite is read, once the sizes of ids are known.
    fn come(&mut self, alloc: Global, sizes: IdSizes, at: u64, body: &[u8]) -> Result<(), Ending>
        ensures ok { OnOk result (IsTakenIn self.old sizes at body.now self.new) }
        ensures err { IfErr result (IsUntaken self.old sizes at body.now self.new) }
    {
        let composite = composite(alloc, sizes, at, body)?;
        self.machine.add(Item::Composite { at, composite })?;
        Ok(())
    }

    // The reply to a command (JDWP, JDWP Packets, reply packet).
    pub(crate) fn take_reply(
        &mut self,
        alloc: Global,
        at: u64,
        id: u32,
        error: u16,
        body: &[u8],
    ) -> Result<(), Ending>
        requires { IsReady self.old }
        ensures ok { OnOk result (Hears self.old at (reply_packet id error body.now) self.new) }
        ensures err { IfErr result (RefusesPacket self.old at (reply_packet id error body.now) self.new) }
    {
        match self.commands.place(id) {
            None => Err(target_fault(TargetFault::UnknownReply, at, id)),
            Some(place) => {
                self.settle(alloc, at, id, place, error, body)?;
                self.machine.read_kept(alloc)
            }
        }
    }

    // The command at this place is replied to.
    fn settle(
        &mut self,
        alloc: Global,
        at: u64,
        id: u32,
        place: usize,
        error: u16,
        body: &[u8],
    ) -> Result<(), Ending>
        requires ready { IsReady self.old }
        requires at { place_under id self.old.commands.sent ≡ Some place }
        ensures ok { OnOk result (IsSettled self.old id place error body.now self.new) }
        ensures err { IfErr result (IsUnsettled self.old at id error body.now self.new) }
    {
        match self.commands.settle(id) {
            Err(_) => unreachable!(),
            Ok(asked) => {
                let sizes = serving(self.machine.state.sizes())?;
                let replied = judged(alloc, sizes, &asked, at, error, body)?;
                self.machine.reply(alloc, place, asked, replied)?;
                Ok(())
            }
        }
    }
}
