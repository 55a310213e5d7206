use thiserror::Error;

/// Why the target's stream is refused (JDWP, JDWP Start Up; JDWP, JDWP Packets).
#[derive(Clone, Copy, Debug, PartialEq, Eq, Error)]
pub enum PacketFault {
    /// The stream doesn't begin with the handshake.
    #[error("no handshake")]
    BadHandshake,
    /// A length below that of a packet's header, 11.
    #[error("a packet that is too short")]
    ShortLength,
    /// A length above 67,108,864.
    #[error("a packet that is too long")]
    TooLong,
    /// Flags that are neither a command's nor a reply's.
    #[error("a packet of no kind")]
    BadFlags,
}

/// A refused packet or byte: why, and the offset in the stream, in bytes, of the packet, or of the handshake's first
/// wrong byte.
#[derive(Clone, Copy, Debug, PartialEq, Eq)]
pub struct PacketTrouble {
    pub fault: PacketFault,
    pub at: u64,
}
