//! The joint of the translation machine and the world of a target that obeys JDWP: what such a target may do, how the
//! two run beside each other, and what holds of every such run. It is definitions and laws, and no code.
#![tactic(auto)]

mod laws;

pub use laws::{
    a_look_up_shows_the_world_as_it_stands, a_stop_holds_the_target, a_target_runs_on_at_rest,
    a_target_that_is_held_stands_still, look_ups_show_the_targets_world,
    no_error_of_an_obeying_target_ends_a_session, no_resume_is_sent_that_is_not_held,
    replies_in_flight_stay_so_while_the_target_is_held, suspensions_balance,
    what_is_pending_is_on_its_way,
};
