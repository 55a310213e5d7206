ghost use Rattle.std.specs.Prelude.{◌≡◌};
ghost use Rattle.jdwp_commands.specs.Commands.{kind_of_effect};

use crate::kind::EffectKind;
use jdwp_events::{EventKind, Modifier, Policy};
use jdwp_values::{FieldId, FrameId, ObjectId, ThreadId, Value};
use wire_core::{Blob, List};

/// A command that changes the target (JDWP, Detailed Command Information). Each of the three that set values sets one.
#[derive(Debug, Drop)]
pub enum Effect {
    Dispose,
    Suspend,
    Resume,
    /// Ends the target with this exit code.
    Exit(i32),
    /// The value's bytes, one to eight, without a tag: what they mean is the field's to say.
    SetField {
        object: ObjectId,
        field: FieldId,
        value: Blob,
    },
    /// The value's bytes, one to eight, without a tag: what they mean is the array's to say.
    SetElement {
        array: ObjectId,
        first: i32,
        value: Blob,
    },
    /// Asks for events of this kind that all modifiers let through.
    Set {
        kind: EventKind,
        policy: Policy,
        modifiers: List<Modifier>,
    },
    /// Takes an event request back.
    Clear {
        kind: EventKind,
        request: u32,
    },
    SetSlot {
        thread: ThreadId,
        frame: FrameId,
        slot: i32,
        value: Value,
    },
}

impl Effect {
    /// Which effect it is.
    pub fn kind(&self) -> EffectKind
        ensures { result ≡ kind_of_effect self.now }
    {
        match self {
            Effect::Dispose => EffectKind::Dispose,
            Effect::Suspend => EffectKind::Suspend,
            Effect::Resume => EffectKind::Resume,
            Effect::Exit(_) => EffectKind::Exit,
            Effect::SetField { .. } => EffectKind::SetField,
            Effect::SetElement { .. } => EffectKind::SetElement,
            Effect::Set { .. } => EffectKind::Set,
            Effect::Clear { .. } => EffectKind::Clear,
            Effect::SetSlot { .. } => EffectKind::SetSlot,
        }
    }
}
