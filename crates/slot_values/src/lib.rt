//! The slots of a frame, each with its value.
#![tactic(auto)]

mod slot;

pub use slot::SlotValue;
