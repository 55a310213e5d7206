ghost use Rattle.std.specs.Prelude.{◌≡◌, ◌+◌, ◌≤◌, ◌++◌, length, IfOk};
ghost use Rattle.std.specs.Int.{w32, to_be_bytes};
ghost use Rattle.jdwp_packets.specs.Packets.{packet_bytes, command_packet, reply_packet};

use crate::front::HEADER;
use std::alloc::{AllocError, Global};
use wire_core::{Blob, NoMemory};

// The flags of a command and of a reply.
const COMMAND: u8 = 0;

const REPLY: u8 = 0x80;

/// The bytes of a command packet: the header with its length, and the body of at most 67,108,853 bytes (JDWP, JDWP
/// Packets, command packet). `NoMemory` comes where memory is refused.
pub fn write_command(
    alloc: Global,
    id: u32,
    set: u8,
    command: u8,
    body: &[u8],
) -> Result<Blob, NoMemory>
    requires { length body.now ≤ 67108853 }
    ensures { IfOk result (λ bytes. bytes ≡ packet_bytes (command_packet id set command body.now)) }
{
    let mut bytes = start(alloc, id, body.len())?;
    bytes.extend_from_slice(&[COMMAND, set, command])?;
    bytes.extend_from_slice(body)?;
    Ok(Blob::from_vec(bytes))
}

/// The bytes of a reply packet: the header with its length, and the body of at most 67,108,853 bytes (JDWP, JDWP
/// Packets, reply packet). The error is 0, or an error's number (JDWP, Error Constants). `NoMemory` comes where memory
/// is refused.
pub fn write_reply(alloc: Global, id: u32, error: u16, body: &[u8]) -> Result<Blob, NoMemory>
    requires { length body.now ≤ 67108853 }
    ensures { IfOk result (λ bytes. bytes ≡ packet_bytes (reply_packet id error body.now)) }
{
    let mut bytes = start(alloc, id, body.len())?;
    bytes.extend_from_slice(&[REPLY])?;
    bytes.extend_from_slice(&error.to_be_bytes())?;
    bytes.extend_from_slice(body)?;
    Ok(Blob::from_vec(bytes))
}

// The length of a packet with a body of this length, and its id.
fn start(alloc: Global, id: u32, body: usize) -> Result<Vec<u8>, AllocError>
    requires { body ≤ 67108853 }
    ensures { IfOk result (λ bytes. bytes.items ≡ to_be_bytes w32 (11 + body) ++ to_be_bytes w32 id) }
{
    let mut bytes = Vec::from_slice(alloc, &(HEADER + body as u32).to_be_bytes())?;
    bytes.extend_from_slice(&id.to_be_bytes())?;
    Ok(bytes)
}
