//! The packets of the Java Debug Wire Protocol: a target's stream is cut into packets, and packets are written.
#![tactic(auto)]

mod cutter;
mod fault;
mod front;
pub mod laws;
mod writing;

pub use cutter::{Packet, PacketCutter};
pub use fault::{PacketFault, PacketTrouble};
pub use writing::{write_command, write_reply};
