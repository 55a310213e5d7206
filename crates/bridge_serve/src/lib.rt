//! The session over wires: bytes in, bytes out.
#![tactic(auto)]

mod handling;
mod hearing;
mod inputs;
mod saying;
mod serving;
mod telling;

pub use serving::serve;
