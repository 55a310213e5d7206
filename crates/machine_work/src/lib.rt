//! How much the machine can still do by itself, and that each act but a wait and the session's end leaves less of it.
//! It is definitions and a law, and no code.
#![tactic(auto)]

mod laws;

pub use laws::each_act_leaves_less_to_do;
