//! Sessions that are recorded as they are served.
#![tactic(auto)]

mod recording;

pub use recording::{Recorded, record};
