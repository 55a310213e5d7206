//! The laws of endings: the first cause decides where a session ends, and it alone.
#![tactic(auto)]

mod laws;

pub use laws::{
    a_session_passes_no_cause, an_ending_for_memory_cuts_a_session_off,
    one_cause_stands_at_a_place, what_ended_in_the_log_is_what_ended_the_session,
};
