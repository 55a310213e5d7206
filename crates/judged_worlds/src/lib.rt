//! What hits of breakpoints come to in the world of a target, by the rows of that world alone, and the law that the
//! look-up that judges them finds just that. It has no code.
#![tactic(auto)]

mod laws;

pub use laws::what_hits_come_to_is_so_in_the_world;
