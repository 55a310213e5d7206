//! Logs of any bridge's session: which are legal, whatever the order in which it asks, and what is wrong with one that
//! isn't, and where. It is definitions and laws, and no code.
#![tactic(auto)]

mod laws;

pub use laws::{a_front_of_a_front_is_one, messages_of_a_legal_log_are_a_run, no_log_is_both};
