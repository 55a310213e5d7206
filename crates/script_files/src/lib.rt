//! Texts of scripts: what a target is and does in a scripted session, line by line.
#![tactic(auto)]

mod laws;
mod read;
mod reading;

pub use laws::a_script_that_was_read_is_fit_for_a_target;
pub use read::read_script;
