//! What has room: bytes in a stream, data in a packet, and a body that is read. It takes no memory to say so.
ghost use Rattle.std.specs.Prelude.{◌≡◌, ◌+◌, ◌<◌, ◌≤◌, ◌^◌, length, MatchResult};
ghost use Rattle.target_server.specs.Flights.{longest};

use wire_core::NoMemory;

// A stream has fewer bytes than this.
const STREAM: u64 = 1 << 63;

// The longest data of a packet behind its header.
const LONGEST: usize = 67_108_853;

// A body of so many bytes isn't read; no packet has one.
const TOO_LONG: usize = 1 << 32;

/// Where a stream ends behind so many more bytes. It takes no memory: `NoMemory` comes just where it would have 2^63
/// bytes or more.
pub(crate) fn end_behind(end: u64, more: usize) -> Result<u64, NoMemory>
    ensures { MatchResult result (λ behind. (behind ≡ end + more) × (end + more < 2 ^ 63))
        (λ _. 2 ^ 63 ≤ end + more) }
{
    if end >= STREAM || more as u64 >= STREAM - end {
        return Err(NoMemory);
    }
    Ok(end + more as u64)
}

/// A body goes in a packet. It takes no memory: `NoMemory` comes just where no packet has room for it behind its header
/// (JDWP, JDWP Packets).
pub(crate) fn fit_packet(body: &[u8]) -> Result<(), NoMemory>
    ensures { MatchResult result (λ _. length body.now ≤ longest) (λ _. longest < length body.now) }
{
    if body.len() > LONGEST {
        return Err(NoMemory);
    }
    Ok(())
}

/// A body is read. It takes no memory: `NoMemory` comes just where it has 2^32 bytes or more, as no packet's has.
pub(crate) fn fit_body(body: &[u8]) -> Result<(), NoMemory>
    ensures { MatchResult result (λ _. length body.now < 2 ^ 32) (λ _. 2 ^ 32 ≤ length body.now) }
{
    if body.len() >= TOO_LONG {
        return Err(NoMemory);
    }
    Ok(())
}
