//! What came and went over wires that keep a log, and their links: each call is one on the outside.
#![tactic(auto)]

mod journal;

pub use journal::Journal;
