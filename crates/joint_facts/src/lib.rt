//! What the translation machine knows of classes beside the world of a target that obeys JDWP. It is definitions and
//! laws, and no code.
#![tactic(auto)]

mod laws;

pub use laws::{
    a_look_up_beside_a_held_target_shows_its_world, classes_that_are_known_are_there,
    look_ups_beside_a_target_show_its_world, no_composite_suspends_one_thread_alone,
    what_is_known_of_classes_is_so,
};
