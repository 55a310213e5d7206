//! What a session does for one item: the talk about the item in hand.
#![tactic(auto)]

mod laws;
mod next;
mod plans;
mod replies;
mod talk;
mod values;

pub use laws::{a_composite_is_read_first, the_next_item_is_due, what_a_talk_has_next_is_due};
pub use next::Next;
pub use talk::Talk;
