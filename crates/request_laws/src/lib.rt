//! What is read of the frame of a request.
#![tactic(auto)]

mod laws;

pub use laws::a_request_is_read_of_its_frame;
