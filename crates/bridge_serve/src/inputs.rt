ghost use Rattle.std.specs.Prelude.{◌≡◌, IfErr, IfOk, Ok};
ghost use Rattle.std.specs.Borrow.{sem};
ghost use Rattle.std.specs.Io.BufRead.{Rests};
ghost use Rattle.bridge_serve.specs.Following.{nothing_heard, body_taken, packet_taken, IsMisframed, IsMispacked};
ghost use Rattle.bridge_serve.specs.contracts.inputs.Inputs.{the_row};
ghost use Rattle.dap_frames.specs.Taking.{IsTaken as IsBody};
ghost use Rattle.jdwp_packets.specs.Taking.{IsTaken as IsPacket};

use dap_frames::{Body, Cutter};
use jdwp_packets::{Packet, PacketCutter};
use session_endings::{ClientFault, Ending, TargetFault};
use std::alloc::Global;
use std::marker::Model;

/// What came in and isn't handled yet: the client's bytes, the target's, whether the end of the target's stream has
/// still to be taken up; and how many waits in a row were in vain.
#[derive(Debug, Drop)]
pub(crate) struct Inputs {
    pub(crate) cutter: Cutter,
    pub(crate) packets: PacketCutter,
    pub(crate) ended: bool,
    pub(crate) quiets: u64,
}

impl Model for Inputs {
    ghost use Rattle.bridge_core.specs.Cores.{Unheard};

    ghost Value = { Unheard };

    ghost view = { λ i. record { client = i.cutter; target = i.packets; ended = i.ended; quiets = i.quiets } };
}

impl Inputs {
    /// Nothing came yet; it takes no memory.
    pub(crate) fn new(alloc: Global) -> Inputs
        ensures { result ≡ nothing_heard }
    {
        Inputs {
            cutter: Cutter::new(alloc),
            packets: PacketCutter::new(alloc),
            ended: false,
            quiets: 0,
        }
    }
    /// Hands out the client's next body, where a whole frame is there.
    pub(crate) fn next_body(&mut self) -> Result<Option<Body<'_>>, Ending>
        ensures ok { IfOk result (λ next. IsBody self.old.client (Ok next)) }
        ensures err { IfErr result (IsMisframed self.old) }
        ensures* after_borrow { sem 𝓛 (Rests the_row self.entry (λ new. new ≡ body_taken self.old)) }
    {
        match self.cutter.take() {
            Ok(next) => Ok(next),
            Err(trouble) => Err(Ending::BadClient {
                fault: ClientFault::Frame(trouble.fault),
                at: trouble.at,
            }),
        }
    }

    /// Hands out the target's next packet, where a whole one is there.
    pub(crate) fn next_packet(&mut self) -> Result<Option<Packet<'_>>, Ending>
        ensures ok { IfOk result (λ next. IsPacket self.old.target (Ok next)) }
        ensures err { IfErr result (IsMispacked self.old) }
        ensures* after_borrow { sem 𝓛 (Rests the_row self.entry (λ new. new ≡ packet_taken self.old)) }
    {
        match self.packets.take() {
            Ok(next) => Ok(next),
            Err(trouble) => Err(Ending::BadTarget {
                fault: TargetFault::Packet(trouble.fault),
                at: trouble.at,
                id: 0,
            }),
        }
    }
}
