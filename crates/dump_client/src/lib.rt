//! The client of a dump: what it asks for, one request after the other, and the text that the answers come to.
#![tactic(auto)]

mod answers;
mod conversation;
mod due;
mod laws;
mod lines;
mod messages;

pub use answers::Heading;
pub use conversation::Conversation;
pub use due::Due;
pub use laws::{a_request_waits_for_its_response, values_are_asked_for_in_a_pause};
