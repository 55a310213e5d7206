//! What a packet of the target's does to a tap.
ghost use Rattle.std.specs.Prelude.{◌≡◌, ℕ, IfErr, List, OnErr, OnOk};
ghost use Rattle.jdwp_packets.specs.Packets.{command_packet, reply_packet};
ghost use Rattle.tap_core.specs.Cores.{Unheard, state_in};
ghost use Rattle.tap_core.specs.Taking.{EndsBy, Takes, offset_of, packet_of};
ghost use Rattle.tap_core.specs.Names.{Ask as AnAsk};
ghost use Rattle.tap_model.specs.Steps.{told};

use crate::packets::{add_packet, command_bytes};
use crate::tap::TapCore;
use jdwp_packets::Packet;
use session_endings::TargetFault;
use std::alloc::Global;
use tap_model::{Ask, TapEnding};

impl TapCore {
    /// Hears a packet of the target, which is cut of what came (JDWP, JDWP Packets). Where it ends the tap, what the
    /// questions have come to stays.
    pub fn target_packet(
        &mut self,
        alloc: Global,
        asks: &[Ask],
        packet: Packet<'_>,
    ) -> Result<(), TapEnding>
        ensures ok { OnOk result ((unheard : Unheard)
            → Takes asks.now (told asks.now (packet_of packet.entry) (offset_of packet.entry)
            (state_in self.old unheard)) (state_in self.new unheard)) }
        ensures err { IfErr result (λ ending. (unheard : Unheard)
            → EndsBy (told asks.now (packet_of packet.entry) (offset_of packet.entry) (state_in self.old unheard))
            ending) }
        ensures kept { OnErr result (self.new.asking.answers ≡ self.old.asking.answers) }
    {
        match packet {
            Packet::Command {
                at: _,
                id,
                set,
                command,
                body,
            } => self.tell(alloc, id, set, command, body),
            Packet::Reply {
                at,
                id,
                error,
                body,
            } => self.take_reply(alloc, asks, at, id, error, body),
        }
    }

    // A command of the target's, as an event, is for the debugger as it is.
    fn tell(
        &mut self,
        alloc: Global,
        id: u32,
        set: u8,
        command: u8,
        body: &[u8],
    ) -> Result<(), TapEnding>
        ensures ok { OnOk result ((asks : List AnAsk) (at : ℕ) (unheard : Unheard)
            → Takes asks (told asks (command_packet id set command body.now) at (state_in self.old unheard))
            (state_in self.new unheard)) }
        ensures err { IfErr result (λ ending. (asks : List AnAsk) (at : ℕ) (unheard : Unheard)
            → EndsBy (told asks (command_packet id set command body.now) at (state_in self.old unheard)) ending) }
        ensures kept { OnErr result (self.new.asking.answers ≡ self.old.asking.answers) }
    {
        if !self.has_room() {
            return Err(TapEnding::Flood);
        }
        let bytes = command_bytes(alloc, id, set, command, body)?;
        add_packet(&mut self.packets, bytes)?;
        Ok(())
    }

    // A reply is to the command with its id, where one is pending under it (JDWP, JDWP Packets, id).
    fn take_reply(
        &mut self,
        alloc: Global,
        asks: &[Ask],
        at: u64,
        id: u32,
        error: u16,
        body: &[u8],
    ) -> Result<(), TapEnding>
        ensures ok { OnOk result ((unheard : Unheard)
            → Takes asks.now (told asks.now (reply_packet id error body.now) at (state_in self.old unheard))
            (state_in self.new unheard)) }
        ensures err { IfErr result (λ ending. (unheard : Unheard)
            → EndsBy (told asks.now (reply_packet id error body.now) at (state_in self.old unheard)) ending) }
        ensures kept { OnErr result (self.new.asking.answers ≡ self.old.asking.answers) }
    {
        match self.sent.owner(id) {
            None => Err(TapEnding::BadTarget {
                fault: TargetFault::UnknownReply,
                at,
                id,
            }),
            Some(owner) => {
                self.sent.settle(id);
                self.replied(alloc, asks, at, error, body, owner)
            }
        }
    }
}
