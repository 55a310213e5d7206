//! What a packet of the debugger's does to a tap.
ghost use Rattle.std.specs.Prelude.{◌≡◌, ℕ, IfErr, List, OnOk};
ghost use Rattle.jdwp_packets.specs.Packets.{command_packet};
ghost use Rattle.tap_core.specs.Cores.{Unheard, state_in};
ghost use Rattle.tap_core.specs.Taking.{EndsBy, Takes, offset_of, packet_of};
ghost use Rattle.tap_core.specs.Names.{Ask as AnAsk};
ghost use Rattle.tap_model.specs.Steps.{commanded};

use crate::packets::add_command;
use crate::tap::TapCore;
use jdwp_packets::Packet;
use std::alloc::Global;
use tap_model::{DebuggerCommand, TapEnding, TapFault};
use wire_core::Blob;

impl TapCore {
    /// Hears a packet of the debugger's, which is cut of what came (JDWP, JDWP Packets). What the questions have come
    /// to stays.
    pub fn debugger_packet(&mut self, alloc: Global, packet: Packet<'_>) -> Result<(), TapEnding>
        ensures ok { OnOk result ((asks : List AnAsk) (unheard : Unheard)
            → Takes asks (commanded (packet_of packet.entry) (offset_of packet.entry) (state_in self.old unheard))
            (state_in self.new unheard)) }
        ensures err { IfErr result (λ ending. (unheard : Unheard)
            → EndsBy (commanded (packet_of packet.entry) (offset_of packet.entry) (state_in self.old unheard)) ending) }
        ensures kept { self.new.asking ≡ self.old.asking }
    {
        match packet {
            Packet::Command {
                at: _,
                id,
                set,
                command,
                body,
            } => self.keep_command(alloc, id, set, command, body),
            Packet::Reply {
                at,
                id: _,
                error: _,
                body: _,
            } => Err(TapEnding::BadClient {
                fault: TapFault::NotACommand,
                at,
            }),
        }
    }

    // A command is kept until it is sent.
    fn keep_command(
        &mut self,
        alloc: Global,
        id: u32,
        set: u8,
        command: u8,
        body: &[u8],
    ) -> Result<(), TapEnding>
        ensures ok { OnOk result ((asks : List AnAsk) (at : ℕ) (unheard : Unheard)
            → Takes asks (commanded (command_packet id set command body.now) at (state_in self.old unheard))
            (state_in self.new unheard)) }
        ensures err { IfErr result (λ ending. (at : ℕ) (unheard : Unheard)
            → EndsBy (commanded (command_packet id set command body.now) at (state_in self.old unheard)) ending) }
        ensures kept { self.new.asking ≡ self.old.asking }
    {
        if !self.can_keep() {
            return Err(TapEnding::Flood);
        }
        let body = Blob::from_slice(alloc, body)?;
        let kept = DebuggerCommand {
            id,
            set,
            command,
            body,
        };
        add_command(&mut self.commands, kept)?;
        Ok(())
    }
}
