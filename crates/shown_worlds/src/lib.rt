//! What each look-up of the machine shows, by the rows of the target's world alone: definitions that know no plan, and
//! laws that say that a look-up finds just that. It has no code.
#![tactic(auto)]

mod laws;

pub use laws::{
    children_have_errors_just_where_none_are_shown, evaluate_shows_the_value_in_the_world,
    frames_fail_where_the_thread_has_ended_or_runs, look_ups_fail_by_what_is_not_there,
    set_variable_writes_to_the_child_in_the_world, stack_traces_show_the_frames_of_the_world,
    threads_are_those_of_the_world, variables_show_the_children_of_the_world,
    what_was_thrown_is_named_as_in_the_world,
};
