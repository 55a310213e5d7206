//! Serves a session of the script of a number, keeps its log, and sums it up.
ghost use Rattle.std.specs.Prelude.{◌≡◌, ◌≤◌, [], IfOk};
ghost use Rattle.generated_scripts.specs.Generated.{generated};
ghost use Rattle.run_logs.specs.Runs.{entries_of};
ghost use Rattle.session_summaries.specs.Lines.{summary_text};
ghost use Rattle.session_summaries.specs.Summaries.{summary_of};
ghost use Rattle.bridge_runs.specs.Command.{Generates, IsServedOf, IsSummedUp};

use crate::script::served_of;
use crate::writing::write;
use generated_scripts::generated_script;
use run_outcomes::Outcome;
use script_text::{SessionLog, print_log};
use session_endings::Ending;
use session_summaries::{summary_of, summary_text};
use std::alloc::Global;
use wire_core::{Files, NoMemory, Text, Word};

/// Serves a session between the client and the target of the script of a number, and writes its log to the file of this
/// name, in one write, over what was there. The outcome has the summary of this log; it is `NotUsed` where the file can't
/// be written, or the ending `NoMemory`, where the files stay.
pub fn generate<F: Files>(alloc: Global, number: u32, out: Word, files: &mut F) -> Outcome
    requires from_one { 1 ≤ number }
    requires few { number ≤ 1000 }
    requires files_unused { (F.store files.old).asked ≡ [] }
    ensures { Generates number out (F.store files.old) (F.store files.new) result }
{
    match served_number(alloc, number) {
        Ok(log) => keep(alloc, log, out, files),
        Err(NoMemory) => Outcome::Ended(Ending::NoMemory),
    }
}

// Serves a session over the wires of the script of a number, and gives the log of that session.
fn served_number(alloc: Global, number: u32) -> Result<SessionLog, NoMemory>
    requires from_one { 1 ≤ number }
    requires few { number ≤ 1000 }
    ensures { IfOk result (IsServedOf (generated number)) }
{
    let script = generated_script(alloc, number)?;
    served_of(alloc, script)
}

// Writes a log, once its summary is there: so want of memory leaves the files as they were.
fn keep<F: Files>(alloc: Global, log: SessionLog, out: Word, files: &mut F) -> Outcome
    requires { (F.store files.old).asked ≡ [] }
    ensures { IsSummedUp out log (F.store files.old) (F.store files.new) result }
{
    match summed(alloc, &log) {
        Ok(lines) => match print_log(alloc, &log) {
            Ok(text) => write(Outcome::Summed(lines), out, text.as_slice(), files),
            Err(NoMemory) => Outcome::Ended(Ending::NoMemory),
        },
        Err(NoMemory) => Outcome::Ended(Ending::NoMemory),
    }
}

// The lines of the summary of a log.
fn summed(alloc: Global, log: &SessionLog) -> Result<Text, NoMemory>
    ensures { IfOk result (λ lines. lines ≡ summary_text (summary_of (entries_of log.now.runs))) }
{
    let summary = summary_of(alloc, log.runs.as_slice())?;
    summary_text(alloc, summary)
}
