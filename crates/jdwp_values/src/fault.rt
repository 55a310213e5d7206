ghost use Rattle.std.specs.Prelude.{◌≡◌};
ghost use Rattle.jdwp_values.specs.declared.fault.RowFault.TheVariants.{NoMemory as no_memory, Part as a_part};

use wire_core::NoMemory;

/// Why a part can't be read (JDWP, Detailed Command Information, common data types).
#[derive(Clone, Copy, Debug, PartialEq, Eq)]
pub enum ValueFault {
    /// Too few bytes are left.
    Short,
    /// A tag byte is none that its place allows.
    BadTag,
    /// A count or a length is negative, or one that its place doesn't allow.
    BadCount,
}

/// A part that can't be read, with the place where it begins, in bytes from the start of the body (JDWP, Detailed
/// Command Information, common data types).
#[derive(Clone, Copy, Debug, PartialEq, Eq)]
pub struct ReadTrouble {
    pub fault: ValueFault,
    pub at: u32,
}

/// Why a row can't be read: memory ran out, a part can't be read, or a byte that says which row it is says none (JDWP,
/// Detailed Command Information).
#[derive(Clone, Copy, Debug, PartialEq, Eq)]
pub enum RowFault {
    NoMemory,
    Part(ReadTrouble),
    BadKind { at: u32 },
}

impl From<NoMemory> for RowFault {
    ghost from_gives = { λ _ fault. fault ≡ no_memory };

    fn from(_refused: NoMemory) -> RowFault {
        RowFault::NoMemory
    }
}

impl From<ReadTrouble> for RowFault {
    ghost from_gives = { λ trouble fault. fault ≡ a_part trouble };

    fn from(trouble: ReadTrouble) -> RowFault {
        RowFault::Part(trouble)
    }
}
