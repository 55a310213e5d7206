//! How sessions end, and the limits that end them.
#![tactic(auto)]

mod ending;

pub use ending::{ClientFault, Ending, Limits, TargetFault};
