//! Choices of a target that obeys JDWP, worked out over a small world: none of them may be taken from it unseen. It is
//! definitions and laws, and no code.
#![tactic(auto)]

mod laws;

pub use laws::{
    a_start_and_an_end_are_told_unasked, a_target_runs_as_it_will,
    commands_are_served_in_any_order, events_are_told_beside_a_stop, ids_are_chosen_at_will,
    refusals_have_any_number,
};
