//! The script that a number stands for: a target that comes to each line of a method, and an editor that looks at it.
#![tactic(auto)]

mod arguments;
mod laws;
mod moves;
mod script;
mod turns;
mod world;

pub use laws::{a_generated_script_is_fit_for_a_target, numbers_stay_small};
pub use script::generated_script;
