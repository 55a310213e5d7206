//! The summary of a session log, by its bytes: its requests, responses, events and stops, and the sum of what was shown.
#![tactic(auto)]

mod entries;
mod laws;
mod lines;
mod requests;
mod summary;
mod told;
mod values;

pub use laws::bodies_are_those_of_the_frames;
pub use lines::summary_text;
pub use summary::{Summary, summary_of};
pub use told::Tally;
pub use values::number_in;
