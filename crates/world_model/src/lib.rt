//! The world of a target, as its debugger sees it: what it answers, and what the debugger's commands make of it.
#![tactic(auto)]

mod apply;
mod changes;
mod classes;
mod codes;
mod fields;
mod found;
mod happening;
mod hits;
mod kinds;
mod laws;
mod limits;
mod members;
mod move_laws;
mod moves;
mod moving;
mod objects;
mod reply;
mod requests;
mod rows;
mod steps;
mod storing;
mod threads;
mod world;

pub use laws::{
    a_listed_class_has_the_signature_that_is_listed, a_sound_world_stays_sound,
    a_target_that_has_ended_says_so, the_program_stays, values_stay_unless_one_is_put,
    what_is_refused_changes_nothing,
};
pub use limits::once_more;
pub use move_laws::{
    a_move_suspends_as_its_events_say, a_sound_world_stays_sound_as_it_moves,
    a_suspended_target_makes_no_move, a_watched_class_is_prepared_with_its_event,
    classes_and_requests_stay,
};
pub use moves::{Move, MoveTrouble};
pub use rows::{
    Installed, Put, StepStart, WorldArray, WorldClass, WorldField, WorldFrame, WorldMethod,
    WorldObject, WorldString, WorldThread, WorldVariable,
};
pub use world::World;
