//! The commands to a target that have no reply yet, the debugger's and a tap's own, each under an id of the tap's.
#![tactic(auto)]

mod window;

pub use window::Window;

#[cfg(test)]
mod tests;
