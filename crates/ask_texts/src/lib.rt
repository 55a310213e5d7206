//! Texts of questions that a tap is to ask, and of what they have come to, line by line.
#![tactic(auto)]

mod answers;
mod elements;
mod forms;
mod laws;
mod names;
mod parts;
mod print;
mod questions;
mod read;
mod rows;

pub use laws::asks_are_read_as_they_are_printed;
pub use print::print_answers;
pub use read::read_asks;
