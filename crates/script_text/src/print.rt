//! A session log as text.
ghost use Rattle.std.specs.Prelude.{◌≡◌, ◌++◌, false, IfOk, OnOk, flat_map};
ghost use Rattle.serde_json.specs.View.{view};
ghost use Rattle.serde_json.specs.Written.{has_float};
ghost use Rattle.script_text.specs.Texts.{side_name, side_data, bare_data, number_data, limits_data};
ghost use Rattle.script_text.specs.Texts.{line_of, entry_text, run_text, ending_text, log_text};

use crate::log::SessionLog;
use crate::spelled::{Way, add_bytes};
use run_logs::Run;
use serde_json::{Value, json};
use std::alloc::{AllocError, Global};
use wire_core::{Blob, Entry, NoMemory, Side};

/// The text of a session log, in version 2: compact JSON, a line for the limits behind the head, then one for each run,
/// and the end. `NoMemory` comes where memory is refused.
pub fn print_log(alloc: Global, log: &SessionLog) -> Result<Blob, NoMemory>
    ensures { IfOk result (λ text. text ≡ log_text log.now) }
{
    let mut text = Blob::new(alloc);
    add_number(alloc, &mut text, "log", 2)?;
    let limits = limits_value(alloc, log.turns, log.quiet, log.waiting)?;
    add_line(alloc, &mut text, &limits)?;
    add_runs(alloc, &mut text, log.runs.as_slice())?;
    add_ending(alloc, &mut text, log.ending)?;
    add_bare(alloc, &mut text, "end")?;
    Ok(text)
}

fn add_runs(alloc: Global, text: &mut Blob, runs: &[Run]) -> Result<(), NoMemory>
    ensures { OnOk result (text.new ≡ text.old ++ flat_map run_text runs.now) }
{
    for run in runs {
        add_run(alloc, text, run)?;
    }
    Ok(())
}

fn add_run(alloc: Global, text: &mut Blob, run: &Run) -> Result<(), NoMemory>
    ensures { OnOk result (text.new ≡ text.old ++ run_text run.now) }
{
    match run {
        Run::One(entry) => add_entry(alloc, text, entry),
        Run::Quiets(n) => add_number(alloc, text, "quiet", *n),
    }
}

fn add_entry(alloc: Global, text: &mut Blob, entry: &Entry) -> Result<(), NoMemory>
    ensures { OnOk result (text.new ≡ text.old ++ entry_text entry.now) }
{
    match entry {
        Entry::In(side, bytes) => add_bytes(alloc, text, Way::Came, *side, bytes.as_slice()),
        Entry::Out(side, bytes) => add_bytes(alloc, text, Way::Went, *side, bytes.as_slice()),
        Entry::Shut(side) => add_side(alloc, text, "shut", *side),
        Entry::Failed(side) => add_side(alloc, text, "failed", *side),
        Entry::Quiet => add_number(alloc, text, "quiet", 1),
    }
}

fn add_ending(alloc: Global, text: &mut Blob, ending: Option<u8>) -> Result<(), NoMemory>
    ensures { OnOk result (text.new ≡ text.old ++ ending_text ending) }
{
    match ending {
        Some(status) => add_number(alloc, text, "ending", status as u64),
        None => Ok(()),
    }
}

/// Adds the line of a value that has no number with a fraction or an exponent: its compact text, and a line feed.
/// `NoMemory` comes where memory is refused.
pub fn add_line(alloc: Global, text: &mut Blob, value: &Value) -> Result<(), NoMemory>
    requires { has_float (view value.now) ≡ false }
    ensures { OnOk result (text.new ≡ text.old ++ line_of (view value.now)) }
{
    let line = value.to_vec(alloc)?;
    text.extend_from_slice(line.as_slice())?;
    text.push(b'\n')?;
    Ok(())
}

fn add_side(alloc: Global, text: &mut Blob, name: &str, side: Side) -> Result<(), NoMemory>
    ensures { OnOk result (text.new ≡ text.old ++ line_of (side_data name.now side)) }
{
    let value = side_value(alloc, name, side)?;
    add_line(alloc, text, &value)
}

fn add_bare(alloc: Global, text: &mut Blob, name: &str) -> Result<(), NoMemory>
    ensures { OnOk result (text.new ≡ text.old ++ line_of (bare_data name.now)) }
{
    let value = bare_value(alloc, name)?;
    add_line(alloc, text, &value)
}

fn add_number(alloc: Global, text: &mut Blob, name: &str, number: u64) -> Result<(), NoMemory>
    ensures { OnOk result (text.new ≡ text.old ++ line_of (number_data name.now number)) }
{
    let value = number_value(alloc, name, number)?;
    add_line(alloc, text, &value)
}

fn number_value(alloc: Global, name: &str, number: u64) -> Result<Value, AllocError>
    ensures { IfOk result (λ value. view value ≡ number_data name.now number) }
{
    json!(in alloc; [name, number])
}

fn limits_value(alloc: Global, turns: u64, quiet: u64, waiting: u32) -> Result<Value, AllocError>
    ensures { IfOk result (λ value. view value ≡ limits_data turns quiet waiting) }
{
    json!(in alloc; ["limits", turns, quiet, waiting])
}

fn bare_value(alloc: Global, name: &str) -> Result<Value, AllocError>
    ensures { IfOk result (λ value. view value ≡ bare_data name.now) }
{
    json!(in alloc; [name])
}

fn side_value(alloc: Global, name: &str, side: Side) -> Result<Value, AllocError>
    ensures { IfOk result (λ value. view value ≡ side_data name.now side) }
{
    let side = side_name(side);
    json!(in alloc; [name, side])
}

fn side_name(side: Side) -> &'static str
    ensures { result.now ≡ side_name side }
{
    match side {
        Side::Client => "client",
        Side::Target => "target",
    }
}
