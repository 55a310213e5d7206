ghost use Rattle.std.specs.Prelude.{◌≡◌};
ghost use Rattle.jdwp_commands.specs.Bodies.{body_fault, fault_at};

use jdwp_values::{ReadTrouble, RowFault, ValueFault};

/// Why a body is no command's or no answer's: the first fault from the left. Its `at` is the offset, in bytes from the
/// body's start, of the part that can't be read.
#[derive(Clone, Copy, Debug, PartialEq, Eq)]
pub enum BodyFault {
    /// Memory for the texts or lists was refused.
    NoMemory,
    /// No command has this set and this number.
    UnknownCommand,
    /// Too few bytes are left for a part.
    Short { at: u32 },
    /// A byte is none that its place allows.
    BadTag { at: u32 },
    /// A count or a length is negative, or one that the command doesn't allow.
    BadCount { at: u32 },
    /// All was read, and bytes are left.
    Trailing { at: u32 },
}

impl From<RowFault> for BodyFault {
    ghost from_gives = { λ fault e. e ≡ body_fault fault };

    fn from(fault: RowFault) -> BodyFault {
        match fault {
            RowFault::NoMemory => BodyFault::NoMemory,
            RowFault::Part(trouble) => trouble.into(),
            RowFault::BadKind { at } => BodyFault::BadTag { at },
        }
    }
}

impl From<ReadTrouble> for BodyFault {
    ghost from_gives = { λ trouble e. e ≡ fault_at trouble.fault trouble.at };

    fn from(trouble: ReadTrouble) -> BodyFault {
        let at = trouble.at;
        match trouble.fault {
            ValueFault::Short => BodyFault::Short { at },
            ValueFault::BadTag => BodyFault::BadTag { at },
            ValueFault::BadCount => BodyFault::BadCount { at },
        }
    }
}
