//! Children of a container, and where their values stand.

use jdwp_commands::Slot;
use jdwp_values::{FieldId, Value};
use look_ups::Declared;
use std::marker::Model;
use wire_core::Text;

/// Where a child's value stands: it is known; or in a slot, in a field or at an index.
#[derive(Clone, Copy)]
pub(crate) enum Place {
    Known(Value),
    Slot(Slot),
    Field(FieldId),
    Index(u32),
}

/// A child of a container, before its value is known. Contracts see it as the definitions do.
#[derive(Drop)]
pub(crate) struct Child {
    pub(crate) name: Text,
    pub(crate) declared: Declared,
    pub(crate) place: Place,
}

impl Model for Child {
    ghost use Rattle.machine_model.specs.Children as children;
    ghost use Rattle.child_pages.specs.Shown.{place_of};
    ghost use Rattle.look_ups.specs.Shown.{declared_of};

    ghost Value = { children.Child };

    ghost view = { λ c. record { name = c.name; declared = declared_of c.declared; place = place_of c.place } };
}
