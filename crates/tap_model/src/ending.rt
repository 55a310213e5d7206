//! How a tap ends.

use crate::ask::Reached;
use jdwp_packets::PacketFault;
use session_endings::TargetFault;
use wire_core::{List, NoMemory};

/// What is wrong with the debugger's bytes: a byte that neither the handshake nor a packet has there, or a packet that
/// is no command (JDWP, JDWP Start Up; JDWP, JDWP Packets).
#[derive(Clone, Copy, Debug, PartialEq, Eq)]
pub enum TapFault {
    Packet(PacketFault),
    NotACommand,
}

/// How a tap ended: the debugger has left behind whole packets, or the target has once it was let go; the debugger's
/// stream ended before that; its bytes have a fault, at this offset in its stream; the target's have one, in its own,
/// with the id of the packet where that answers no command, and 0 else; a link failed; the target refused to tell its
/// sizes of ids, with this error; too many waits in a row were in vain; the limit of happenings was reached; a packet
/// came that can be neither passed on nor kept; the target's stream ended; or memory ran out.
#[derive(Clone, Copy, Debug, PartialEq, Eq)]
pub enum TapEnding {
    Done,
    Left,
    BadClient {
        fault: TapFault,
        at: u64,
    },
    BadTarget {
        fault: TargetFault,
        at: u64,
        id: u32,
    },
    ClientLink,
    TargetLink,
    TargetRefused {
        set: u8,
        command: u8,
        code: u16,
    },
    Idle,
    Spent,
    Flood,
    TargetGone,
    NoMemory,
}

impl From<NoMemory> for TapEnding {
    ghost use Rattle.std.specs.Prelude.{◌≡◌};
    ghost use Rattle.tap_model.specs.declared.ending.TapEnding.TheVariants.{NoMemory as ends_for_memory};

    ghost from_gives = { λ _ ending. ending ≡ ends_for_memory };

    fn from(_refused: NoMemory) -> TapEnding {
        TapEnding::NoMemory
    }
}

/// How a tap ended, and what its questions came to, in their order. Where memory ran out before the first of them could
/// be kept there are none.
#[derive(Debug, Drop)]
pub struct TapEnd {
    pub ending: TapEnding,
    pub answers: List<Reached>,
}
