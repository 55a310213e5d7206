//! A tap: it stands between a debugger and its target, passes everything through, and asks questions of its own beside
//! it. Which logs of one there are, and what holds of them.
#![tactic(auto)]

mod ask;
mod command;
mod ending;
mod laws;
mod owner;

pub use ask::{Ask, Reached};
pub use command::DebuggerCommand;
pub use ending::{TapEnd, TapEnding, TapFault};
pub use owner::Owner;
