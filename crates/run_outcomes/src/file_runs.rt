//! Runs that read a file, serve a session of what it says, and print the log of that session.
ghost use Rattle.std.specs.Prelude.{◌≡◌, [], IfOk};
ghost use Rattle.run_outcomes.specs.FileRuns.{limits_of, KeepsLog, ReadsText, ShowsLog, troubled};

use crate::printing::{OUT_OF_MEMORY, Outcome, status_of_ending};
use script_text::{Run, ScriptTrouble, SessionLog, print_log};
use session_endings::{Ending, Limits};
use std::alloc::Global;
use wire_core::{Blob, Entry, FileRefusal, Files, List, NoMemory, Word};

// The bytes that are read of a file at most.
const MOST_BYTES: usize = 67_108_864;

/// All bytes of the file of this name, which may be 67,108,864 at most. Or the outcome of a run that has none: `NotUsed`
/// where the file fails, `TooLong` where it has more, and the ending `NoMemory` where memory is refused.
pub fn read_text<F: Files>(alloc: Global, name: Word, files: &mut F) -> Result<Blob, Outcome>
    requires { (F.store files.old).asked ≡ [] }
    ensures { ReadsText name (F.store files.old) (F.store files.new) result }
{
    match files.read(alloc, name, MOST_BYTES) {
        Ok(text) => Ok(text),
        Err(FileRefusal::Failed) => Err(Outcome::NotUsed),
        Err(FileRefusal::TooLong) => Err(Outcome::TooLong),
        Err(FileRefusal::NoMemory) => Err(Outcome::Ended(Ending::NoMemory)),
    }
}

/// The outcome of a run whose text has a faulty line, or that found no memory to read it.
pub fn troubled(trouble: ScriptTrouble) -> Outcome
    ensures { result ≡ troubled trouble }
{
    match trouble {
        ScriptTrouble::At { line, kind } => Outcome::BadLine { line, kind },
        ScriptTrouble::NoMemory => Outcome::Ended(Ending::NoMemory),
    }
}

/// The limits of a log.
pub fn limits_of(log: &SessionLog) -> Limits
    ensures { result ≡ limits_of log.now }
{
    Limits {
        turns: log.turns,
        quiet: log.quiet,
        waiting: log.waiting,
    }
}

/// The log of a session that ended so under these limits: copies of these runs, in order, and the status of its ending.
/// `NoMemory` comes where it ended for that, or memory is refused.
pub fn log_of(
    alloc: Global,
    limits: &Limits,
    ending: Ending,
    runs: &[Run],
) -> Result<SessionLog, NoMemory>
    ensures { IfOk result (KeepsLog limits.now ending runs.now) }
{
    let status = status_of_ending(ending);
    if status == OUT_OF_MEMORY {
        return Err(NoMemory);
    }
    let runs = copy_all(alloc, runs)?;
    Ok(SessionLog {
        turns: limits.turns,
        quiet: limits.quiet,
        waiting: limits.waiting,
        runs,
        ending: Some(status),
    })
}

/// The outcome of a run that made this log: its text, as `print_log` writes it; or the ending `NoMemory`, where there is no
/// log, or memory is refused to its text.
pub fn show(alloc: Global, made: Result<SessionLog, NoMemory>) -> Outcome
    ensures { ShowsLog made result }
{
    match made {
        Ok(log) => match print_log(alloc, &log) {
            Ok(text) => Outcome::Logged(text),
            Err(NoMemory) => Outcome::Ended(Ending::NoMemory),
        },
        Err(NoMemory) => Outcome::Ended(Ending::NoMemory),
    }
}

fn copy_all(alloc: Global, runs: &[Run]) -> Result<List<Run>, NoMemory>
    ensures { IfOk result (λ copies. copies ≡ runs.now) }
{
    let mut copies = List::new(alloc);
    for run in runs {
        copies.push(copy_run(alloc, run)?)?;
    }
    Ok(copies)
}

fn copy_run(alloc: Global, run: &Run) -> Result<Run, NoMemory>
    ensures { IfOk result (λ copy. copy ≡ run.now) }
{
    Ok(match run {
        Run::One(entry) => Run::One(copy(alloc, entry)?),
        Run::Quiets(n) => Run::Quiets(*n),
    })
}

fn copy(alloc: Global, entry: &Entry) -> Result<Entry, NoMemory>
    ensures { IfOk result (λ copy. copy ≡ entry.now) }
{
    Ok(match entry {
        Entry::In(side, bytes) => Entry::In(*side, Blob::from_slice(alloc, bytes.as_slice())?),
        Entry::Out(side, bytes) => Entry::Out(*side, Blob::from_slice(alloc, bytes.as_slice())?),
        Entry::Shut(side) => Entry::Shut(*side),
        Entry::Failed(side) => Entry::Failed(*side),
        Entry::Quiet => Entry::Quiet,
    })
}
