//! A scripted target: a world, its program of moves, and the bytes of the link to its debugger.
#![tactic(auto)]

mod answers;
mod commands;
mod fits;
mod hearing;
mod laws;
mod limits;
mod link;
mod outgoing;
mod packets;
mod program;
mod target;
mod trouble;

pub use commands::Command;
pub use laws::{
    a_sound_target_stays_sound, a_suspended_target_stays_as_it_is, calls_are_moves,
    what_keeps_a_program_waiting,
};
pub use target::Target;
pub use trouble::TargetTrouble;
