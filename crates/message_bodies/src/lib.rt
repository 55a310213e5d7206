//! The bodies of a session's messages: how those of the target's packets are read and judged, and how what goes out is
//! spelled; and which of the items that wait, of which some can't be read yet, is next.
#![tactic(auto)]

mod hearing;
mod sizes;
mod telling;
mod waiting;

pub use hearing::{is_composite, is_dead, judged, read_kept};
pub use sizes::{known, serving};
pub use telling::{framed, packed};
pub use waiting::{is_disconnect, take_next};
