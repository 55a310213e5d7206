//! Wires that play what is in a file: a session log once more, or a script.
#![tactic(auto)]

mod log_wires;
mod played_wires;
mod replaying;

pub use log_wires::LogWires;
pub use played_wires::PlayedWires;
