//! Records a session.
ghost use Rattle.std.specs.Prelude.{◌≡◌, []};
ghost use Rattle.bridge_runs.specs.Recording.{IsKeptIn, IsLogOf, Records};

use crate::writing::write;
use command_words::Addresses;
use recorded_sessions::{Recorded, record};
use run_outcomes::{Outcome, status_of_ending};
use script_text::{SessionLog, print_log};
use session_endings::{Ending, Limits};
use std::alloc::Global;
use wire_core::{Files, NoMemory, Wires, Word};

/// Connects the wires under these addresses, serves a session over them, and writes its log to the file of this name, in
/// one write, over what was there. The outcome is that of the session, `NotUsed` where the file can't be written, or the
/// ending `NoMemory`, where the files stay.
pub fn record_to<W: Wires, F: Files>(
    alloc: Global,
    addresses: Addresses,
    out: Word,
    wires: &mut W,
    files: &mut F,
) -> Outcome
    requires wires_unused { (W.outside wires.old).asked ≡ [] }
    requires files_unused { (F.store files.old).asked ≡ [] }
    ensures { Records addresses out (W.outside wires.old) (W.outside wires.new) (F.store files.old) (F.store files.new)
        result }
{
    let Addresses { listen, target } = addresses;
    match wires.connect(listen, target) {
        Ok(()) => match record(alloc, &Limits::standard(), wires) {
            Ok(recorded) => keep(alloc, recorded, out, files),
            Err(NoMemory) => Outcome::Ended(Ending::NoMemory),
        },
        Err(_) => Outcome::NotOpened,
    }
}

// Writes the log of a session that was recorded.
fn keep<F: Files>(alloc: Global, recorded: Recorded, out: Word, files: &mut F) -> Outcome
    requires { (F.store files.old).asked ≡ [] }
    ensures { IsKeptIn out recorded (F.store files.old) (F.store files.new) result }
{
    let ending = recorded.ending;
    let log = log_of(recorded);
    match print_log(alloc, &log) {
        Ok(text) => write(Outcome::Ended(ending), out, text.as_slice(), files),
        Err(NoMemory) => Outcome::Ended(Ending::NoMemory),
    }
}

// The log of a session that was recorded under the standard limits.
fn log_of(recorded: Recorded) -> SessionLog
    ensures { IsLogOf recorded result }
{
    let limits = Limits::standard();
    SessionLog {
        turns: limits.turns,
        quiet: limits.quiet,
        waiting: limits.waiting,
        runs: recorded.runs,
        ending: Some(status_of_ending(recorded.ending)),
    }
}
