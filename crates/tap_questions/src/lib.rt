//! Questions of a tap: which fit the target's sizes of ids, what the others come to, and the bytes of their commands.
#![tactic(auto)]

mod asking;
mod questions;

pub use asking::{fitting, no_answers, unanswered};
pub use questions::{copy_of, is_fit, question_bytes};
