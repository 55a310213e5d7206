//! What each request does, part by part.
#![tactic(auto)]

mod breakpoints;
mod found;
mod function_rows;
mod rows;
mod run_rows;
mod step_rows;
mod variable_rows;

pub use breakpoints::breakpoint_told;
pub use found::{found_parts, refused_parts};
pub use rows::{gone_parts, has_response, parts_of};
pub use step_rows::{refused_with, stepped_by};
pub use variable_rows::written_by;
