//! The numbers by which a client names frames and containers: they die with the stop in which they were told.
#![tactic(auto)]

mod fault;
mod laws;
mod start;
mod stop;
mod thing;

pub use fault::{NumberFault, RefFault};
pub use laws::{
    a_number_is_given_to_one_thing, at_a_stop_its_own_numbers_are_known,
    between_stops_each_number_is_stale_or_unknown, things_are_one_where_all_that_they_hold_is,
};
pub use stop::{FrameRef, Running, Stop, ThingRef};
pub use thing::{FrameThing, Thing};
