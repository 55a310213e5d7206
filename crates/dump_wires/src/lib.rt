//! Wires whose client is the code of a dump: they give its requests and take the responses, and hand all else on.
#![tactic(auto)]

mod desk;
mod talking;

pub use desk::Desk;
pub use talking::Talking;
