//! A tap over whole packets: what it does next, what it says, and what it hears of the debugger's and the target's.
#![tactic(auto)]

mod asking;
mod debugger;
mod deciding;
mod hearing;
mod packets;
mod replies;
mod saying;
mod tap;
mod target;

pub use deciding::Next;
pub use saying::Out;
pub use tap::TapCore;
