//! What the summary of a session log is of.
#![tactic(auto)]

mod laws;

pub use laws::a_summary_is_of_what_was_said;
