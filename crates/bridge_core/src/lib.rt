//! The session over whole messages: what the client and the target say goes in, what they are told comes out.
#![tactic(auto)]

mod client;
mod hand;
mod leaving;
mod machine;
mod packets;
mod sending;
mod session;
mod words;

pub use session::{Core, Out};
