//! The window of commands whose replies have not come yet.
#![tactic(auto)]

mod laws;
mod place;
mod window;

pub use laws::{ids_follow_their_rule, just_one_is_settled};
pub use window::{Pending, UnknownReply};

#[cfg(test)]
mod tests;
