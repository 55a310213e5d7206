//! The frames of the Debug Adapter Protocol: a client's stream is cut into bodies, and a body is put into a frame.
#![tactic(auto)]

mod cutter;
mod fault;
mod front;
mod header;
pub mod laws;
mod usual;
mod writing;

pub use cutter::{Body, Cutter};
pub use fault::{FrameFault, FrameTrouble};
pub use writing::frame;
