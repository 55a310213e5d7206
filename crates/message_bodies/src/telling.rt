//! The bytes of what goes out.
ghost use Rattle.std.specs.Prelude.{◌≡◌, ◌+◌, ◌^◌, ◌<◌, ◌≤◌, IfOk, MatchResult, length};
ghost use Rattle.dap_frames.specs.Frames.{frame_bytes};
ghost use Rattle.dap_messages.specs.Telling.{told_text};
ghost use Rattle.jdwp_commands.specs.Commands.{FitsCommand, number_of, spell_command};
ghost use Rattle.jdwp_packets.specs.Packets.{command_packet, packet_bytes};

use dap_frames::frame;
use dap_messages::{Told, text_of};
use jdwp_commands::{Asked, write};
use jdwp_packets::write_command;
use jdwp_values::IdSizes;
use std::alloc::Global;
use wire_core::{Blob, NoMemory};

// The number that no told message reaches.
const LAST_NUMBER: u64 = 1 << 63;

// The length of the longest body of a packet.
const LONGEST_BODY: usize = 67_108_853;

// The number of the message that is told behind so many. It takes no memory: `NoMemory` comes just where it would reach
// 2^63.
fn next_number(told: u64) -> Result<u64, NoMemory>
    ensures { MatchResult result (λ next. (next ≡ told + 1) × (told + 1 < 2 ^ 63)) (λ _. 2 ^ 63 ≤ told + 1) }
{
    if told >= LAST_NUMBER - 1 {
        return Err(NoMemory);
    }
    Ok(told + 1)
}

// A body goes in a packet. It takes no memory: `NoMemory` comes just where the body is longer than that of any packet.
fn fit_packet(body: &[u8]) -> Result<(), NoMemory>
    ensures { MatchResult result (λ _. length body.now ≤ 67108853) (λ _. 67108853 < length body.now) }
{
    if body.len() > LONGEST_BODY {
        return Err(NoMemory);
    }
    Ok(())
}

/// The frame of the message that is told behind so many (DAP overview, Base protocol). There is none where its number
/// would reach 2^63.
pub fn framed(alloc: Global, told: u64, message: &Told) -> Result<Blob, NoMemory>
    ensures small { IfOk result (λ _. told + 1 < 2 ^ 63) }
    ensures bytes { IfOk result (λ bytes. bytes ≡ frame_bytes (told_text (told + 1) message.now)) }
{
    let number = next_number(told)?;
    let text = text_of(alloc, number, message)?;
    frame(alloc, text.as_slice())
}

/// The packet of a command with this id (JDWP, JDWP Packets, command packet). There is none where its body would have
/// more than 67,108,853 bytes.
pub fn packed(alloc: Global, sizes: IdSizes, id: u32, asked: &Asked) -> Result<Blob, NoMemory>
    requires { FitsCommand sizes asked.now }
    ensures { IfOk result
        (λ bytes. bytes ≡ packet_bytes (command_packet id (number_of asked.now).0 (number_of asked.now).1
        (spell_command sizes asked.now))) }
{
    let (set, command, body) = write(alloc, sizes, asked)?;
    fit_packet(body.as_slice())?;
    write_command(alloc, id, set, command, body.as_slice())
}
