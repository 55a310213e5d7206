//! The stacks of all threads of a target, with their values, as a text.
#![tactic(auto)]

mod dumping;

pub use dumping::{DumpEnd, dump};
