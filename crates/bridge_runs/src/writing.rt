//! Writes the log of a session.
ghost use Rattle.std.specs.Prelude.{◌≡◌, []};
ghost use Rattle.bridge_runs.specs.Writing.{IsWritten};

use run_outcomes::Outcome;
use session_endings::Ending;
use wire_core::{FileRefusal, Files, Word};

/// Puts a text under a name, in one write, over what was there: then the outcome is this one. It is `NotUsed` where the
/// file can't be written, and the ending `NoMemory`, where the files stay.
pub(crate) fn write<F: Files>(wanted: Outcome, out: Word, text: &[u8], files: &mut F) -> Outcome
    requires { (F.store files.old).asked ≡ [] }
    ensures { IsWritten wanted out text.now (F.store files.old) (F.store files.new) result }
{
    match files.write(out, text) {
        Ok(()) => wanted,
        Err(FileRefusal::NoMemory) => Outcome::Ended(Ending::NoMemory),
        Err(FileRefusal::Failed) => Outcome::NotUsed,
        Err(FileRefusal::TooLong) => Outcome::NotUsed,
    }
}
