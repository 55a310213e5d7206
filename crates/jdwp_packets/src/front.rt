ghost use Rattle.std.specs.Prelude.{◌≡◌, ◌+◌, ◌≤◌, ◌==◌, ◌||◌, length, take, drop};
ghost use Rattle.std.specs.Int.{w16, w32, from_be_bytes};
ghost use Rattle.jdwp_packets.specs.Packets.{packet_front, greeting_front, greeting_from};
ghost use Rattle.jdwp_packets.specs.Taking.{IsFound, IsGreeting};

use crate::fault::PacketFault;

/// The length of a packet without data (JDWP, JDWP Packets).
pub(crate) const HEADER: u32 = 11;

/// The longest packet that a target may send.
pub(crate) const LONGEST_PACKET: u32 = 67_108_864;

/// What the target sends first (JDWP, JDWP Start Up).
pub(crate) const HANDSHAKE: [u8; 14] = *b"JDWP-Handshake";

/// What stands at the front of a stream's bytes.
#[derive(Clone, Copy)]
pub(crate) enum Found {
    /// Nothing that is decided yet.
    Waits,
    /// A greeting or a packet of this length.
    Whole(usize),
    /// A fault, and how far behind the front it stands.
    Refused(PacketFault, usize),
}

/// The greeting at the front of the bytes.
pub(crate) fn greeting(bytes: &[u8]) -> Found
    ensures { IsGreeting result (greeting_front bytes.now) (length bytes.now) }
{
    for (i, expected) in HANDSHAKE.iter().enumerate() {
        if i >= bytes.len() {
            return Found::Waits;
        }
        if bytes[i] != *expected {
            return Found::Refused(PacketFault::BadHandshake, i);
        }
    }
    Found::Whole(HANDSHAKE.len())
}

/// The packet at the front of the bytes.
pub(crate) fn packet(bytes: &[u8]) -> Found
    ensures { IsFound result (packet_front bytes.now) bytes.now }
{
    if bytes.len() < 4 {
        return Found::Waits;
    }
    let size = u32_at(bytes, 0);
    if size < HEADER {
        return Found::Refused(PacketFault::ShortLength, 0);
    }
    if size > LONGEST_PACKET {
        return Found::Refused(PacketFault::TooLong, 0);
    }
    if bytes.len() < 9 {
        return Found::Waits;
    }
    if !has_kind(bytes[8]) {
        return Found::Refused(PacketFault::BadFlags, 0);
    }
    if bytes.len() < size as usize {
        return Found::Waits;
    }
    Found::Whole(size as usize)
}

// Flags are 0 for a command and 0x80 for a reply (JDWP, JDWP Packets, flags).
fn has_kind(flags: u8) -> bool
    ensures { result ≡ (flags == 0) || (flags == 128) }
{
    flags == 0 || flags == 0x80
}

/// The big-endian number of four bytes from a place on.
pub(crate) fn u32_at(bytes: &[u8], at: usize) -> u32
    requires { at + 4 ≤ length bytes.now }
    ensures { result ≡ from_be_bytes w32 (take 4 (drop at bytes.now)) }
{
    let four = &bytes[at..at + 4];
    u32::from_be_bytes([four[0], four[1], four[2], four[3]])
}

/// The big-endian number of two bytes from a place on.
pub(crate) fn u16_at(bytes: &[u8], at: usize) -> u16
    requires { at + 2 ≤ length bytes.now }
    ensures { result ≡ from_be_bytes w16 (take 2 (drop at bytes.now)) }
{
    let two = &bytes[at..at + 2];
    u16::from_be_bytes([two[0], two[1]])
}
