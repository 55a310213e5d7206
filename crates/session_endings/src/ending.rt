//! How a session ends, and the limits that end it.

use dap_frames::FrameFault;
use jdwp_packets::PacketFault;
use wire_core::NoMemory;

/// The limits of a session: the happenings that it takes, the waits in vain in a row, and the items that wait.
/// Each is at least 1, and `turns` is at most 2^40. `quiet` counts waits, and not seconds: over the sockets of
/// `wire_edge` a wait in vain takes one to two ticks of the kernel.
#[derive(Clone, Copy, Debug, PartialEq, Eq)]
pub struct Limits {
    pub turns: u64,
    pub quiet: u64,
    pub waiting: u32,
}

impl Limits {
    ghost use Rattle.std.specs.Prelude.{◌≡◌};
    ghost use Rattle.session_endings.specs.Limits.{AreLimits};

    /// The limits of a session that serves an editor: 2^40 happenings, 43,200,000 waits in vain in a row, which is
    /// one to three days of silence, and 65,536 waiting items.
    pub fn standard() -> Limits
        ensures values { result ≡ record { turns = 1099511627776; quiet = 43200000; waiting = 65536 } }
        ensures usable { AreLimits result }
    {
        Limits {
            turns: 1_099_511_627_776,
            quiet: 43_200_000,
            waiting: 65_536,
        }
    }
}

/// What is wrong with the client's bytes: a byte that no frame has there, a body that is no JSON value, or one that is
/// no message (DAP overview, Base protocol; DAP specification, Base Protocol, ProtocolMessage).
#[derive(Clone, Copy, Debug, PartialEq, Eq)]
pub enum ClientFault {
    Frame(FrameFault),
    NotJson,
    NotAMessage,
}

/// What is wrong with the target's bytes: a packet, a part of a body, sizes of ids outside 1 to 8, a command that is no
/// composite, or a reply to no command (JDWP, JDWP Packets; JDWP, Detailed Command Information). A composite that
/// suspends one thread alone is a `PolicyThread` when its turn comes, at the byte of its policy (JDWP, Event command
/// set, Composite; JDWP, Constants, SuspendPolicy).
#[derive(Clone, Copy, Debug, PartialEq, Eq)]
pub enum TargetFault {
    Packet(PacketFault),
    Short,
    BadTag,
    BadCount,
    BadKind,
    BadPolicy,
    Trailing,
    BadSizes,
    PolicyThread,
    BadCommand,
    UnknownReply,
}

/// How a session ended: `disconnect` was answered; the client's stream ended before that; the client's bytes have a
/// fault, at this offset in its stream; the target's have one, in its own, with the id of the packet where that answers
/// no command, and 0 else; a link failed; the target refused this command with this error; too many waits in a row were
/// in vain; the limit of happenings was reached; too many items waited; or memory ran out.
#[derive(Clone, Copy, Debug, PartialEq, Eq)]
pub enum Ending {
    Done,
    Left,
    BadClient {
        fault: ClientFault,
        at: u64,
    },
    BadTarget {
        fault: TargetFault,
        at: u64,
        id: u32,
    },
    ClientLink,
    TargetLink,
    TargetRefused {
        set: u8,
        command: u8,
        code: u16,
    },
    Idle,
    Spent,
    Flood,
    NoMemory,
}

impl From<NoMemory> for Ending {
    ghost use Rattle.std.specs.Prelude.{◌≡◌};
    ghost use Rattle.session_endings.specs.declared.ending.Ending.TheVariants.{NoMemory as ends_for_memory};

    ghost from_gives = { λ _ ending. ending ≡ ends_for_memory };

    fn from(_refused: NoMemory) -> Ending {
        Ending::NoMemory
    }
}
