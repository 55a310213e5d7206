ghost use Rattle.std.specs.Prelude.{◌≡◌, ◌+◌, length};

use jdwp_packets::{Packet, PacketCutter};
use std::alloc::Global;
use std::test::Fail;

/// A cutter of packets, and how many bytes it was fed.
#[derive(Drop)]
pub(crate) struct PacketFeed {
    pub(crate) cutter: PacketCutter,
    fed: usize,
    ghost counted: { cutter.stream.at + length cutter.stream.pending ≡ fed },
}

impl PacketFeed {
    pub(crate) fn new(alloc: Global) -> PacketFeed {
        PacketFeed {
            cutter: PacketCutter::new(alloc),
            fed: 0,
        }
    }

    #[tactic(auto, using(crate::proofs::Sizes::fed_packet_size))]
    pub(crate) fn feed(&mut self, piece: &[u8]) -> Result<(), Fail> {
        if self.fed > 9999 || piece.len() > 9999 {
            return Err("more than a row has".into());
        }
        self.cutter.feed(piece)?;
        self.fed += piece.len();
        Ok(())
    }

    /// Tells each packet, and where one is refused.
    pub(crate) fn tell_all(&mut self, alloc: Global, told: &mut String) -> Result<(), Fail> {
        for _ in 0..4 {
            if !self.tell(alloc, told)? {
                return Ok(());
            }
        }
        Err("more packets than a row has".into())
    }

    // Tells the next packet, and whether there may be more.
    #[tactic(auto, using(crate::proofs::Sizes::taken_packet_size))]
    fn tell(&mut self, alloc: Global, told: &mut String) -> Result<bool, Fail> {
        match self.cutter.take() {
            Ok(Some(packet)) => {
                let text = packet_text(alloc, packet)?;
                told.push_str(text.as_str())?;
                Ok(true)
            }
            Ok(None) => Ok(false),
            Err(trouble) => {
                let text = format!(in alloc; "<{} {:?}>", trouble.at, trouble.fault)?;
                told.push_str(text.as_str())?;
                Ok(false)
            }
        }
    }
}

// Kind, offset, identifier, set and command or the error's code, and the last byte of the body.
fn packet_text(alloc: Global, packet: Packet<'_>) -> Result<String, Fail> {
    match packet {
        Packet::Command {
            at,
            id,
            set,
            command,
            body,
        } => {
            let last = body.last().copied().unwrap_or(0);
            Ok(format!(in alloc; "<command {at} {id} {set}.{command} {last}>")?)
        }
        Packet::Reply {
            at,
            id,
            error,
            body,
        } => {
            let last = body.last().copied().unwrap_or(0);
            Ok(format!(in alloc; "<reply {at} {id} {error} {last}>")?)
        }
    }
}
