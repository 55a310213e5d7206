//! A script has one course: what a bridge hears is determined by what it sends. It is definitions and laws, and no
//! code.
#![tactic(auto)]

mod laws;

pub use laws::{a_script_has_one_course, what_is_heard_is_determined_by_what_is_sent};
