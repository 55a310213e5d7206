//! What a run of the program comes to: what is read of its file, what is printed of it, and its status.
#![tactic(auto)]

mod file_runs;
mod printing;

pub use file_runs::{limits_of, log_of, read_text, show, troubled};
pub use printing::{Outcome, status_of_ending, tell};
