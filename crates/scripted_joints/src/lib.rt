//! A scripted target is a target that obeys JDWP, and a session over it is a joint of the machine and such a target. It
//! is definitions and laws, and no code.
#![tactic(auto)]

mod laws;

pub use laws::{
    each_call_obeys, each_course_obeys, each_session_is_a_joint,
    no_error_of_a_scripted_target_ends_a_session, packets_in_flight_are_those_of_the_bytes,
    suspensions_balance_over_a_script,
};
