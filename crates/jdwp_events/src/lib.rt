//! What a target tells unasked: composites of events; and the kinds and modifiers of event requests.
#![tactic(auto)]

mod composite;
mod event;
mod kind;
mod laws;
mod modifier;

pub use composite::{Composite, CompositeFault, read_composite, write_composite};
pub use event::Event;
pub use kind::{EventKind, Policy};
pub use laws::composites_are_read_as_they_are_spelled;
pub use modifier::{Modifier, ModifierKind};
