//! What the client reads of a message that it is told.
#![tactic(auto)]

mod laws;

pub use laws::a_told_message_is_read_as_its_value;
