//! The value of an expression in a frame, by the replies.
#![tactic(auto)]

mod expressions;
mod field_search;
mod sought;
mod steps;

pub use expressions::{sought_need, value_need};
pub use sought::{Sought, Valued};
