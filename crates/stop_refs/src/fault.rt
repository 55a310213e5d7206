ghost use Rattle.std.specs.Prelude.{◌≡◌};

use std::alloc::{AllocError, AllocFailed};
use thiserror::Error;

/// Why a thing gets no number.
#[derive(Clone, Copy, Debug, PartialEq, Eq, Error)]
pub enum NumberFault {
    /// Memory ran out.
    #[error("out of memory")]
    NoMemory,
    /// All numbers below 2^31 were given (DAP, Types, Variable, variablesReference).
    #[error("no number is left")]
    Spent,
}

/// Why a number stands for nothing that can be shown (DAP, Overview, Lifetime of Objects References).
#[derive(Clone, Copy, Debug, PartialEq, Eq, Error)]
pub enum RefFault {
    /// It was never given; the next number is this.
    #[error("a number that was never told")]
    Unknown(u32),
    /// It was given in a stop that is over, the n-th of the session from 1.
    #[error("a number of an earlier stop")]
    Stale(u64),
    /// It stands for a container where a frame is asked for, or the other way round.
    #[error("a number of another kind")]
    WrongKind,
}

impl From<AllocError> for NumberFault {
    ghost use Rattle.stop_refs.specs.declared.fault.NumberFault.{NumberFault};

    ghost from_gives = { λ _ fault. fault ≡ NumberFault.NoMemory };

    fn from(_refused: AllocError) -> NumberFault {
        NumberFault::NoMemory
    }
}

impl<T: Drop> From<AllocFailed<T>> for NumberFault {
    ghost use Rattle.stop_refs.specs.declared.fault.NumberFault.{NumberFault};

    ghost from_gives = { λ _ fault. fault ≡ NumberFault.NoMemory };

    fn from(_refused: AllocFailed<T>) -> NumberFault {
        NumberFault::NoMemory
    }
}
