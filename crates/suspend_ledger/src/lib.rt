//! How many suspensions of the whole target a session holds, and so has to undo.
#![tactic(auto)]

mod laws;
mod ledger;

pub use laws::held_is_suspensions_less_resumes;
pub use ledger::Ledger;
