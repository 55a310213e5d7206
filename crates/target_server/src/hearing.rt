//! The commands that packets bring.
ghost use Rattle.std.specs.Prelude.{◌≡◌, ◌<◌, ◌≤◌, ℕ, Result, Ok, Err, IfOk, IfSome, length};
ghost use Rattle.jdwp_commands.specs.declared.asked.Asked.{Asked as AnAsked};
ghost use Rattle.jdwp_commands.specs.declared.fault.BodyFault.{BodyFault as AFault};
ghost use Rattle.jdwp_commands.specs.Bodies.{IsRead};
ghost use Rattle.jdwp_commands.specs.Commands.{command_at};
ghost use Rattle.jdwp_packets.specs.Packets.{Packet as APacket};
ghost use Rattle.jdwp_packets.specs.Receiving.{left_behind};
ghost use Rattle.jdwp_packets.specs.Taking.{Shows};
ghost use Rattle.target_server.specs.Hearing.{command_or, command_of, next_in, heard_end, IfSaid, IsThis};

use crate::commands::Command;
use crate::limits::fit_body;
use crate::trouble::TargetTrouble;
use jdwp_commands::{BodyFault, read_command};
use jdwp_packets::{Packet, PacketCutter};
use jdwp_values::IdSizes;
use std::alloc::Global;

// A body that is no command's refuses its packet.
fn bad_body(fault: BodyFault, at: u64) -> TargetTrouble
    ensures { (read : Result AnAsked AFault) (id : ℕ) → IsRead read (Err fault)
        → IfSaid (λ trouble. command_or id at read ≡ Err trouble) result }
{
    match fault {
        BodyFault::NoMemory => TargetTrouble::NoMemory,
        BodyFault::UnknownCommand => TargetTrouble::Body {
            at,
            fault: BodyFault::UnknownCommand,
        },
        BodyFault::Short { at: place } => TargetTrouble::Body {
            at,
            fault: BodyFault::Short { at: place },
        },
        BodyFault::BadTag { at: place } => TargetTrouble::Body {
            at,
            fault: BodyFault::BadTag { at: place },
        },
        BodyFault::BadCount { at: place } => TargetTrouble::Body {
            at,
            fault: BodyFault::BadCount { at: place },
        },
        BodyFault::Trailing { at: place } => TargetTrouble::Body {
            at,
            fault: BodyFault::Trailing { at: place },
        },
    }
}

// Reads the command of a packet with this id at this offset (JDWP, JDWP Packets, command packet).
fn read(
    alloc: Global,
    sizes: IdSizes,
    at: u64,
    id: u32,
    set: u8,
    number: u8,
    body: &[u8],
) -> Result<Command, TargetTrouble>
    ensures { IsThis (command_or id at (command_at sizes set number body.now)) result }
{
    fit_body(body)?;
    match read_command(alloc, sizes, set, number, body) {
        Ok(asked) => Ok(Command { id, asked }),
        Err(fault) => Err(bad_body(fault, at)),
    }
}

// The command that a packet brings, as the cutter hands it out, or why it is refused.
fn command_of(alloc: Global, sizes: IdSizes, packet: Packet<'_>) -> Result<Command, TargetTrouble>
    ensures { (offset : ℕ) (shown : APacket) → Shows packet.entry offset shown
        → IsThis (command_of sizes offset shown) result }
{
    match packet {
        Packet::Command {
            at,
            id,
            set,
            command,
            body,
        } => read(alloc, sizes, at, id, set, command, body),
        Packet::Reply { at, .. } => Err(TargetTrouble::NotACommand { at }),
    }
}

/// Takes the command that comes next in the debugger's stream; nothing while none is whole, or why nothing more is taken.
pub(crate) fn next_command(
    alloc: Global,
    cutter: &mut PacketCutter,
    sizes: IdSizes,
) -> Result<Option<Command>, TargetTrouble>
    ensures next { IsThis (next_in sizes cutter.old) result }
    ensures left { cutter.new ≡ left_behind cutter.old }
    ensures end { heard_end cutter.new ≤ heard_end cutter.old }
    ensures fewer { IfOk result
        (λ next. IfSome next (λ _. length cutter.new.stream.pending < length cutter.old.stream.pending)) }
{
    let Some(packet) = cutter.take()? else {
        return Ok(None);
    };
    let command = command_of(alloc, sizes, packet)?;
    Ok(Some(command))
}
