//! What a session knows, and the keys of sources.
#![tactic(auto)]

mod keys;
mod notes;
mod state;

pub use keys::{LONGEST_KEY, key_of, trimmed};
pub use state::State;
