//! A command of the debugger's.

use wire_core::Blob;

/// A command packet of the debugger's: the id that the debugger gave it, the numbers of its set and its own in there,
/// and the data behind the header, which isn't looked at (JDWP, JDWP Packets, command packet).
#[derive(Debug, Drop)]
pub struct DebuggerCommand {
    pub id: u32,
    pub set: u8,
    pub command: u8,
    pub body: Blob,
}
