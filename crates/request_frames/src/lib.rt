//! Frames of a client's requests.
#![tactic(auto)]

mod frames;

pub use frames::request_frame;
