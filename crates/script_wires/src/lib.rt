//! Wires that join a bridge to a scripted target, by the schedule of a script.
#![tactic(auto)]

mod client;
mod laws;
mod play;
mod requests;
mod schedule;
mod wires;

pub use laws::{a_log_is_played, a_played_target_moves};
pub use wires::ScriptWires;
