use run_logs::Run;
use wire_core::{List, NoMemory};

/// A session as its wires logged it: the limits that it was served under; what came in and went out, in order, where
/// waits in vain that follow each other are one run; and the status of its ending, where it is told. The limits are a
/// number of turns of the session's loop, one of waits in vain that follow each other while nothing is due, and one of
/// items that wait.
#[derive(Debug, Drop)]
pub struct SessionLog {
    pub turns: u64,
    pub quiet: u64,
    pub waiting: u32,
    pub runs: List<Run>,
    pub ending: Option<u8>,
}

/// What is wrong with a line: the first of these kinds that applies is told. But a line behind `["end"]` to which none
/// of the first three applies is told as `AfterEnd`.
#[derive(Clone, Copy, Debug, Drop, PartialEq, Eq)]
pub enum ScriptFault {
    /// It isn't UTF-8.
    NotUtf8,
    /// It isn't one JSON value.
    NotJson,
    /// It isn't an array that a row gives, with elements of the stated kinds and ranges.
    BadShape,
    /// It is a first line of another version.
    BadVersion,
    /// It is a row that may not stand here, or no first line.
    BadOrder,
    /// It gives an id again within its kind.
    RepeatedId,
    /// It names an id that no line before it gave. The class above a class may be given by any line that was read, and
    /// the chain of them has to end.
    UnknownId,
    /// It is a move that can't be made where all moves before it were made.
    BadMove,
    /// It is the line after the last: `end` is missing, or the last line has no line feed.
    NoEnd,
    /// It stands behind `["end"]`.
    AfterEnd,
}

/// Why a text was not read: memory was refused; or the first faulty line, counted from 1, and its fault. Lines past the
/// 4,294,967,295th are told under that number.
#[derive(Clone, Copy, Debug, Drop, PartialEq, Eq)]
pub enum ScriptTrouble {
    NoMemory,
    At { line: u32, kind: ScriptFault },
}

impl From<NoMemory> for ScriptTrouble {
    ghost use Rattle.std.specs.Prelude.{◌≡◌};
    ghost use Rattle.script_text.specs.declared.log.ScriptTrouble.TheVariants.{NoMemory as refused_memory};

    ghost from_gives = { λ _ trouble. trouble ≡ refused_memory };

    fn from(_refused: NoMemory) -> ScriptTrouble {
        ScriptTrouble::NoMemory
    }
}
