//! The questions that a text is.
ghost use Rattle.std.specs.Prelude.{◌≡◌, []};
ghost use Rattle.serde_json.specs.View.{view};
ghost use Rattle.script_text.specs.Reading.{IsRead};
ghost use Rattle.ask_texts.specs.Reading.{shaped, row_in, begun, inside, row_taken, line_taken, finished, read_on};
ghost use Rattle.ask_texts.specs.Reading.{at_stage, reading_of, IsLine, told_at};
ghost use Rattle.ask_texts.specs.declared.rows.Row.TheVariants.{Ask as an_ask};

use crate::rows::{Row, row_of};
use jdwp_commands::Question;
use script_text::{LineTrouble, ScriptFault, ScriptTrouble};
use serde_json::Value as Json;
use std::alloc::Global;
use std::str;
use tap_model::Ask;
use wire_core::List;

// So many questions at most.
const MOST_ASKS: usize = 65_536;

/// Where a text stands: before its first line, among the questions, or behind its end.
#[derive(Clone, Copy, Debug, Drop, PartialEq, Eq)]
pub(crate) enum Stage {
    Start,
    Inside,
    Over,
}

/// What was read so far: the number of the line that comes next, where the text stands, and the questions.
#[derive(Debug, Drop)]
pub(crate) struct Reading {
    line: u32,
    stage: Stage,
    asks: List<Ask>,
}

/// Reads the text of a file of questions, in any spelling of each line's JSON. The first line is `["tap",1]`, the last
/// `["end"]`, and between them stands a line for each question, 65,536 at most: the text `ask`, its name, and the parts
/// of its body (JDWP, Detailed Command Information). `NoMemory` comes where memory is refused, `At` with the first
/// faulty line and the first fault that it has.
#[tactic(auto, unfolding(crate::specs::Reading::reading_of))]
pub fn read_asks(alloc: Global, bytes: &[u8]) -> Result<List<Ask>, ScriptTrouble>
    ensures { IsRead result (reading_of bytes.now) }
{
    let reading = Reading {
        line: 1,
        stage: Stage::Start,
        asks: List::new(alloc),
    };
    read_all(alloc, reading, bytes)
}

// Takes all lines, up to the first one that is at fault.
fn read_all(alloc: Global, start: Reading, bytes: &[u8]) -> Result<List<Ask>, ScriptTrouble>
    ensures { IsRead result (read_on start [] bytes.now) }
{
    let mut reading = start;
    let mut begin = 0;
    for end in 0..bytes.len() {
        if bytes[end] == b'\n' {
            reading = take_line(alloc, reading, &bytes[begin..end])?;
            begin = end + 1;
        }
    }
    finish(alloc, reading, &bytes[begin..])
}

// The questions, where the text is whole; what stands behind the last line feed is a line too.
fn finish(alloc: Global, reading: Reading, rest: &[u8]) -> Result<List<Ask>, ScriptTrouble>
    ensures { IsRead result (finished reading rest.now) }
{
    if !rest.is_empty() {
        let reading = take_line(alloc, reading, rest)?;
        return Err(ScriptTrouble::At {
            line: reading.line,
            kind: ScriptFault::NoEnd,
        });
    }
    match reading.stage {
        Stage::Over => Ok(reading.asks),
        _ => Err(ScriptTrouble::At {
            line: reading.line,
            kind: ScriptFault::NoEnd,
        }),
    }
}

fn take_line(alloc: Global, reading: Reading, line: &[u8]) -> Result<Reading, ScriptTrouble>
    ensures { IsRead result (line_taken reading line.now) }
{
    let number = reading.line;
    match row_in(alloc, line) {
        Ok(row) => take_row(reading, row),
        Err(LineTrouble::NoMemory) => Err(ScriptTrouble::NoMemory),
        Err(LineTrouble::Fault(kind)) => Err(ScriptTrouble::At { line: number, kind }),
    }
}

fn take_row(reading: Reading, row: Row) -> Result<Reading, ScriptTrouble>
    ensures { IsRead result (row_taken reading row) }
{
    match reading.stage {
        Stage::Start => begin(reading, row),
        Stage::Inside => go_on(reading, row),
        Stage::Over => Err(ScriptTrouble::At {
            line: reading.line,
            kind: ScriptFault::AfterEnd,
        }),
    }
}

// The first row.
fn begin(reading: Reading, row: Row) -> Result<Reading, ScriptTrouble>
    ensures { IsRead result (told_at reading.line (begun reading row)) }
{
    let line = reading.line;
    match row {
        Row::Head(true) => Ok(at_stage(reading, Stage::Inside)),
        Row::Head(false) => Err(ScriptTrouble::At {
            line,
            kind: ScriptFault::BadVersion,
        }),
        _ => Err(ScriptTrouble::At {
            line,
            kind: ScriptFault::BadOrder,
        }),
    }
}

// A row behind the first.
fn go_on(reading: Reading, row: Row) -> Result<Reading, ScriptTrouble>
    ensures { IsRead result (told_at reading.line (inside reading row)) }
{
    let line = reading.line;
    match row {
        Row::Head(_) => Err(ScriptTrouble::At {
            line,
            kind: ScriptFault::BadOrder,
        }),
        Row::Ask(question) => with_ask(reading, question),
        Row::End => Ok(at_stage(reading, Stage::Over)),
    }
}

// A line more, behind which the text stands here.
fn at_stage(reading: Reading, stage: Stage) -> Reading
    ensures { result ≡ at_stage reading stage }
{
    Reading {
        line: reading.line.saturating_add(1),
        stage,
        asks: reading.asks,
    }
}

// A question more.
fn with_ask(reading: Reading, question: Question) -> Result<Reading, ScriptTrouble>
    ensures { IsRead result (told_at reading.line (inside reading (an_ask question))) }
{
    let line = reading.line;
    let mut asks = reading.asks;
    if asks.len() >= MOST_ASKS {
        return Err(ScriptTrouble::At {
            line,
            kind: ScriptFault::BadOrder,
        });
    }
    asks.push(Ask { question })?;
    Ok(Reading {
        line: line.saturating_add(1),
        stage: Stage::Inside,
        asks,
    })
}

fn row_in(alloc: Global, line: &[u8]) -> Result<Row, LineTrouble>
    ensures { IsLine result (row_in line.now) }
{
    let Ok(text) = str::from_utf8(line) else {
        return Err(LineTrouble::Fault(ScriptFault::NotUtf8));
    };
    match Json::from_str(alloc, text) {
        Ok(value) => shaped(alloc, &value),
        Err(error) => if error.is_memory() {
            Err(LineTrouble::NoMemory)
        } else {
            Err(LineTrouble::Fault(ScriptFault::NotJson))
        },
    }
}

fn shaped(alloc: Global, value: &Json) -> Result<Row, LineTrouble>
    ensures { IsLine result (shaped (view value.now)) }
{
    match row_of(alloc, value)? {
        Some(row) => Ok(row),
        None => Err(LineTrouble::Fault(ScriptFault::BadShape)),
    }
}
