//! Sessions in which nothing goes wrong: each is done, with all requests answered, or memory ran out. It is definitions
//! and laws, and no code.
#![tactic(auto)]

mod laws;

pub use laws::{a_clean_session_is_done, each_ending_breaks_its_premise, premises_are_needed};
