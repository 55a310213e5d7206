//! What the client is told of an item, with numbers in place of the target's ids, and what a choice becomes.
#![tactic(auto)]

mod bodies;
mod choices;

pub use bodies::{event_told, outcome_told, response_to};
pub use choices::chosen;
