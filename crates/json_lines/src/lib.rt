//! Lines of JSON: the compact text of a value, and what is read of it.
#![tactic(auto)]

mod laws;

pub use laws::a_value_that_was_read_is_read_again;
