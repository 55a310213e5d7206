//! Wires that hand each call on to others, and keep a log of what these answer.
#![tactic(auto)]

mod book;
mod laws;
mod recorder;
mod side_state;

pub use book::Book;
pub use laws::{
    a_record_has_what_came, a_record_without_failures_is_whole, a_recorder_tells_its_links,
};
pub use recorder::Recorder;
