//! The session log that a text is.
ghost use Rattle.std.specs.Prelude.{◌≡◌, IfOk};
ghost use Rattle.serde_json.specs.View.{view};
ghost use Rattle.script_text.specs.Reading.{shaped, row_in, with_waits, with_one, with_row, row_taken, line_taken};
ghost use Rattle.script_text.specs.Reading.{finished, reading_of, IsRead, IsLine};

use crate::log::{ScriptFault, ScriptTrouble, SessionLog};
use crate::order::{Place, Stage, next_stage, waits_in};
use crate::rows::{Row, row_of};
use crate::spelled::spelled_row;
use run_logs::Run;
use serde_json::Value;
use std::alloc::Global;
use std::str;
use wire_core::{Entry, List, NoMemory};

// The limits of a log of version 1.
const USUAL_TURNS: u64 = 1_099_511_627_776;

const USUAL_QUIET: u64 = 43_200_000;

const USUAL_WAITING: u32 = 65_536;

/// What was read so far: the number of the line that comes next, where the log stands, and what it says, without the
/// waits that stand last.
#[derive(Debug, Drop)]
pub(crate) struct Reading {
    line: u32,
    stage: Stage,
    log: SessionLog,
}

/// Why a line was not read: memory was refused, or it has a fault.
#[derive(Clone, Copy, Debug, Drop, PartialEq, Eq)]
pub enum LineTrouble {
    NoMemory,
    Fault(ScriptFault),
}

impl From<NoMemory> for LineTrouble {
    ghost use Rattle.std.specs.Prelude.{◌≡◌};
    ghost use Rattle.script_text.specs.declared.read.LineTrouble.TheVariants.{NoMemory as refused_memory};

    ghost from_gives = { λ _ trouble. trouble ≡ refused_memory };

    fn from(_refused: NoMemory) -> LineTrouble {
        LineTrouble::NoMemory
    }
}

/// Reads the text of a session log, as `print_log` writes it, in any spelling of each line's JSON; or one of version 1,
/// where each wait in vain has a line, and the limits are 2^40 turns, 43,200,000 waits and 65,536 items. `NoMemory`
/// comes where memory is refused, `At` with the first faulty line and the first fault that it has.
pub fn read_log(alloc: Global, bytes: &[u8]) -> Result<SessionLog, ScriptTrouble>
    ensures { IsRead result (reading_of bytes.now) }
{
    let mut reading = Reading {
        line: 1,
        stage: Stage::Start,
        log: SessionLog {
            turns: USUAL_TURNS,
            quiet: USUAL_QUIET,
            waiting: USUAL_WAITING,
            runs: List::new(alloc),
            ending: None,
        },
    };
    let mut begin = 0;
    for end in 0..bytes.len() {
        if bytes[end] == b'\n' {
            reading = take_line(alloc, reading, &bytes[begin..end])?;
            begin = end + 1;
        }
    }
    finish(alloc, reading, &bytes[begin..])
}

// The log, where it is whole; what stands behind the last line feed is a line too.
fn finish(alloc: Global, reading: Reading, rest: &[u8]) -> Result<SessionLog, ScriptTrouble>
    ensures { IsRead result (finished reading rest.now) }
{
    if !rest.is_empty() {
        let reading = take_line(alloc, reading, rest)?;
        return Err(ScriptTrouble::At {
            line: reading.line,
            kind: ScriptFault::NoEnd,
        });
    }
    match reading.stage {
        Stage::Behind {
            place: Place::Over,
            ..
        } => Ok(reading.log),
        _ => Err(ScriptTrouble::At {
            line: reading.line,
            kind: ScriptFault::NoEnd,
        }),
    }
}

fn take_line(alloc: Global, reading: Reading, line: &[u8]) -> Result<Reading, ScriptTrouble>
    ensures { IsRead result (line_taken reading line.now) }
{
    let number = reading.line;
    match row_in(alloc, line) {
        Ok(row) => take_row(reading, row),
        Err(LineTrouble::NoMemory) => Err(ScriptTrouble::NoMemory),
        Err(LineTrouble::Fault(kind)) => Err(ScriptTrouble::At { line: number, kind }),
    }
}

fn take_row(reading: Reading, row: Row) -> Result<Reading, ScriptTrouble>
    ensures { IsRead result (row_taken reading row) }
{
    match next_stage(reading.stage, &row) {
        Ok(stage) => {
            let line = reading.line.saturating_add(1);
            let log = with_row(reading.log, waits_in(reading.stage), row)?;
            Ok(Reading { line, stage, log })
        }
        Err(kind) => Err(ScriptTrouble::At {
            line: reading.line,
            kind,
        }),
    }
}

// What a log says with one row more, where so many waits stand before it.
fn with_row(log: SessionLog, waits: u64, row: Row) -> Result<SessionLog, NoMemory>
    ensures { IfOk result (λ more. more ≡ with_row log waits row) }
{
    match row {
        Row::Head(_) => Ok(log),
        Row::Limits {
            turns,
            quiet,
            waiting,
        } => Ok(SessionLog {
            turns,
            quiet,
            waiting,
            ..log
        }),
        Row::Entry(entry) => with_one(with_waits(log, waits)?, entry),
        Row::Quiet => Ok(log),
        Row::Quiets(_) => Ok(log),
        Row::Ending(status) => Ok(SessionLog {
            ending: Some(status),
            ..with_waits(log, waits)?
        }),
        Row::End => with_waits(log, waits),
    }
}

// A log with so many waits more.
fn with_waits(log: SessionLog, waits: u64) -> Result<SessionLog, NoMemory>
    ensures { IfOk result (λ more. more ≡ with_waits log waits) }
{
    if waits == 0 {
        return Ok(log);
    }
    let mut runs = log.runs;
    runs.push(Run::Quiets(waits))?;
    Ok(SessionLog { runs, ..log })
}

// A log with an entry more, which is no wait in vain.
fn with_one(log: SessionLog, entry: Entry) -> Result<SessionLog, NoMemory>
    ensures { IfOk result (λ more. more ≡ with_one log entry) }
{
    let mut runs = log.runs;
    runs.push(Run::One(entry))?;
    Ok(SessionLog { runs, ..log })
}

fn row_in(alloc: Global, line: &[u8]) -> Result<Row, LineTrouble>
    ensures { IsLine result (row_in line.now) }
{
    match spelled_row(alloc, line)? {
        Some(row) => Ok(row),
        None => row_in_json(alloc, line),
    }
}

fn row_in_json(alloc: Global, line: &[u8]) -> Result<Row, LineTrouble>
    ensures { IsLine result (row_in line.now) }
{
    let Ok(text) = str::from_utf8(line) else {
        return Err(LineTrouble::Fault(ScriptFault::NotUtf8));
    };
    match Value::from_str(alloc, text) {
        Ok(value) => shaped(alloc, &value),
        Err(error) => if error.is_memory() {
            Err(LineTrouble::NoMemory)
        } else {
            Err(LineTrouble::Fault(ScriptFault::NotJson))
        },
    }
}

fn shaped(alloc: Global, value: &Value) -> Result<Row, LineTrouble>
    ensures { IsLine result (shaped (view value.now)) }
{
    match row_of(alloc, value)? {
        Some(row) => Ok(row),
        None => Err(LineTrouble::Fault(ScriptFault::BadShape)),
    }
}
