//! Why a text is not read further.
use wire_core::NoMemory;

/// Reading got stuck: memory was refused, or the text goes wrong before what is left of it.
#[derive(Clone, Copy)]
pub(crate) enum Stuck<'a> {
    NoMemory,
    Before(&'a str),
}

impl From<NoMemory> for Stuck<'_> {
    ghost use Rattle.std.specs.Prelude.{◌≡◌};
    ghost use Rattle.field_exprs.specs.declared.stuck.Stuck.TheVariants.{NoMemory as refused_memory};

    ghost from_gives = { λ _ stuck. stuck ≡ refused_memory };

    fn from(_refused: NoMemory) -> Self {
        Stuck::NoMemory
    }
}
