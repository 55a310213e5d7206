//! Texts of the target's types and values, as a client is shown them and writes them.
#![tactic(auto)]

mod chars;
mod fault;
mod known;
mod laws;
mod names;
mod quotes;
mod reading;
mod showing;

pub use fault::WriteFault;
pub use known::Known;
pub use laws::{
    a_value_that_can_be_written_is_read_as_it_is_shown, a_value_that_was_read_can_be_written,
    a_value_that_was_read_is_read_as_it_is_shown,
};
pub use names::class_name;
pub use quotes::quote;
pub use reading::write_value;
pub use showing::value_text;
