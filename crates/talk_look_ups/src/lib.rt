//! What is to be asked for an item, and what the look-ups of threads, frames, classes and exceptions come to.
#![tactic(auto)]

mod asking;
mod class_plans;
mod frame_names;
mod frames;
mod need;
mod threads;
mod thrown;

pub use asking::Asking;
pub use class_plans::classes_need;
pub use frames::frames_need;
pub use need::Need;
pub use threads::threads_need;
pub use thrown::{exception_need, text_need};
