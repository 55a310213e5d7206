//! The lines of a scripted target's script, as text.
#![tactic(auto)]

mod elements;
mod lines;
mod lists;
mod moves;
mod parts;
mod turns;
mod world_rows;

pub use elements::Elements;
pub use lines::{ScriptRow, add_end, add_head, add_limits, add_row, add_rows, add_sizes};
