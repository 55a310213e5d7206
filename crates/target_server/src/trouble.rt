//! Why a target takes nothing more of its debugger's stream.

use jdwp_commands::BodyFault;
use jdwp_packets::PacketTrouble;
use wire_core::NoMemory;

/// Why a target took nothing more of its debugger's stream. Offsets are those of a packet's first byte in that stream,
/// but for a packet's own fault, which has its place.
#[derive(Clone, Copy, Debug, PartialEq, Eq)]
pub enum TargetTrouble {
    /// Memory was refused.
    NoMemory,
    /// A byte that no handshake, or no packet, has there (JDWP, JDWP Start Up; JDWP, JDWP Packets).
    Packet(PacketTrouble),
    /// A packet is a reply, and a target asks nothing (JDWP, JDWP Packets, reply packet).
    NotACommand { at: u64 },
    /// The data of a packet is no command's (JDWP, Detailed Command Information).
    Body { at: u64, fault: BodyFault },
}

impl From<NoMemory> for TargetTrouble {
    ghost use Rattle.std.specs.Prelude.{◌≡◌};
    ghost use Rattle.target_server.specs.declared.trouble.TargetTrouble.TheVariants.{NoMemory as no_memory};

    ghost from_gives = { λ _ trouble. trouble ≡ no_memory };

    fn from(_refused: NoMemory) -> TargetTrouble {
        TargetTrouble::NoMemory
    }
}

impl From<PacketTrouble> for TargetTrouble {
    ghost use Rattle.std.specs.Prelude.{◌≡◌};
    ghost use Rattle.target_server.specs.declared.trouble.TargetTrouble.TheVariants.{Packet as bad_packet};

    ghost from_gives = { λ trouble given. given ≡ bad_packet trouble };

    fn from(trouble: PacketTrouble) -> TargetTrouble {
        TargetTrouble::Packet(trouble)
    }
}
