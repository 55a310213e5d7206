//! The script that a text is.
ghost use Rattle.std.specs.Prelude.{◌≡◌, [], Some};
ghost use Rattle.serde_json.specs.View.{view};
ghost use Rattle.script_files.specs.Reading.{shaped, row_in, version_of, numbers_of, headed, with_sizes, or_first};
ghost use Rattle.script_files.specs.Reading.{behind_head, behind_row, first_taken, row_taken, line_taken};
ghost use Rattle.script_files.specs.Reading.{end_fault, finished, read_on, script_in, open_line, judged, script_of};
ghost use Rattle.script_files.specs.Reading.{IsRead, IsLine, IsTaken, IsStopped};
ghost use Rattle.script_files.specs.Sizes.{sizes_of};

use crate::reading::Reading;
use jdwp_values::IdSizes;
use line_elements::Version;
use script_rows::{Row, Script, read_row};
use script_text::{ScriptFault, ScriptTrouble};
use serde_json::Value;
use std::alloc::Global;
use std::str;
use target_scripts::{Building, RowTrouble, begun, chain_fault, grow};

/// Reads the text of a script, in any spelling of each line's JSON. `NoMemory` comes where memory is refused, `At` with
/// the first faulty line and the first fault that it has. Chains of classes are judged over the classes that were read
/// when reading stopped, at the end or at another fault. One at fault is told as `UnknownId` at the line of its class.
#[tactic(auto, unfolding(crate::specs::Reading::script_of))]
pub fn read_script(alloc: Global, bytes: &[u8]) -> Result<Script, ScriptTrouble>
    ensures { IsRead result (script_of bytes.now) }
{
    let mut reading = Reading {
        line: 1,
        version: None,
        building: None,
    };
    match read_all(alloc, &mut reading, bytes) {
        Ok(()) => judge(reading, None),
        Err(RowTrouble::NoMemory) => Err(ScriptTrouble::NoMemory),
        Err(RowTrouble::Fault(kind)) => judge(reading, Some(kind)),
    }
}

// The script that was read, or its first faulty line: a class whose chain is at fault stands before the line where
// reading stopped.
fn judge(reading: Reading, fault: Option<ScriptFault>) -> Result<Script, ScriptTrouble>
    ensures { result ≡ judged (record { reading = reading; fault = fault }) }
{
    match open_line(&reading.building) {
        Some(line) => Err(ScriptTrouble::At {
            line,
            kind: ScriptFault::UnknownId,
        }),
        None => script_in(reading.line, reading.building, fault),
    }
}

// The line of the first class whose chain is at fault.
fn open_line(building: &Option<Building>) -> Option<u32>
    ensures { result ≡ open_line building.now }
{
    match building {
        Some(building) => chain_fault(building),
        None => None,
    }
}

// The script that was read, where the last line is the end.
fn script_in(
    line: u32,
    building: Option<Building>,
    fault: Option<ScriptFault>,
) -> Result<Script, ScriptTrouble>
    ensures { result ≡ script_in line building fault }
{
    if let Some(kind) = fault {
        return Err(ScriptTrouble::At { line, kind });
    }
    match building {
        Some(building) => Ok(building.script),
        None => Err(ScriptTrouble::At {
            line,
            kind: ScriptFault::NoEnd,
        }),
    }
}

// Takes all lines, up to the first one that is at fault.
fn read_all(alloc: Global, reading: &mut Reading, bytes: &[u8]) -> Result<(), RowTrouble>
    ensures { IsStopped reading.new result (read_on reading.old [] bytes.now) }
{
    let mut begin = 0;
    for end in 0..bytes.len() {
        if bytes[end] == b'\n' {
            take_line(alloc, reading, &bytes[begin..end])?;
            begin = end + 1;
        }
    }
    finish(alloc, reading, &bytes[begin..])
}

// What stands behind the last line feed is a line too, and the end is missing where there is any.
fn finish(alloc: Global, reading: &mut Reading, rest: &[u8]) -> Result<(), RowTrouble>
    ensures { IsStopped reading.new result (finished reading.old rest.now) }
{
    if !rest.is_empty() {
        take_line(alloc, reading, rest)?;
        return Err(RowTrouble::Fault(ScriptFault::NoEnd));
    }
    match end_fault(&reading.building) {
        Some(kind) => Err(RowTrouble::Fault(kind)),
        None => Ok(()),
    }
}

// The end is missing where it is not the last line.
fn end_fault(building: &Option<Building>) -> Option<ScriptFault>
    ensures { result ≡ end_fault building.now }
{
    match building {
        Some(building) => if building.last == 15 {
            None
        } else {
            Some(ScriptFault::NoEnd)
        },
        None => Some(ScriptFault::NoEnd),
    }
}

fn take_line(alloc: Global, reading: &mut Reading, line: &[u8]) -> Result<(), RowTrouble>
    ensures { IsTaken reading.old reading.new result (line_taken reading.old line.now) }
{
    let row = row_in(alloc, version_in(reading), line)?;
    take_row(alloc, reading, row)
}

fn take_row(alloc: Global, reading: &mut Reading, row: Row) -> Result<(), RowTrouble>
    ensures { IsTaken reading.old reading.new result (row_taken reading.old row) }
{
    match &mut reading.building {
        Some(building) => {
            grow(alloc, building, row)?;
            reading.line = reading.line.saturating_add(1);
            Ok(())
        }
        None => take_first(alloc, reading, row),
    }
}

// Takes one of the first two lines.
fn take_first(alloc: Global, reading: &mut Reading, row: Row) -> Result<(), RowTrouble>
    ensures { IsTaken reading.old reading.new result (first_taken reading.old row reading.old.version) }
{
    match reading.version {
        Some(_) => take_sizes(alloc, reading, &row),
        None => take_head(reading, &row),
    }
}

fn take_head(reading: &mut Reading, row: &Row) -> Result<(), RowTrouble>
    ensures { IsTaken reading.old reading.new result (behind_head reading.old (headed (version_of row.now))) }
{
    let version = headed(row)?;
    reading.version = Some(version);
    reading.line = reading.line.saturating_add(1);
    Ok(())
}

fn take_sizes(alloc: Global, reading: &mut Reading, row: &Row) -> Result<(), RowTrouble>
    ensures { IsTaken reading.old reading.new result (behind_row reading.old (with_sizes (numbers_of row.now))) }
{
    let building = with_sizes(alloc, row)?;
    put_building(reading, building);
    reading.line = reading.line.saturating_add(1);
    Ok(())
}

fn put_building(reading: &mut Reading, building: Building)
    ensures { reading.new ≡ record reading.old { building = Some building } }
{
    reading.building = Some(building);
}

// The version of the head.
fn headed(row: &Row) -> Result<Version, RowTrouble>
    ensures { IsLine result (headed (version_of row.now)) }
{
    match version_of(row) {
        Some(Some(version)) => Ok(version),
        Some(None) => Err(RowTrouble::Fault(ScriptFault::BadVersion)),
        None => Err(RowTrouble::Fault(ScriptFault::BadOrder)),
    }
}

fn with_sizes(alloc: Global, row: &Row) -> Result<Building, RowTrouble>
    ensures { IsLine result (with_sizes (numbers_of row.now)) }
{
    let Some(numbers) = numbers_of(row) else {
        return Err(RowTrouble::Fault(ScriptFault::BadOrder));
    };
    match sizes_of(numbers) {
        Some(sizes) => Ok(begun(alloc, sizes)),
        None => Err(RowTrouble::Fault(ScriptFault::BadShape)),
    }
}

// The version of a head, where it is known; None of another row.
fn version_of(row: &Row) -> Option<Option<Version>>
    ensures { result ≡ version_of row.now }
{
    match row {
        Row::Head { version } => Some(*version),
        _ => None,
    }
}

// The version that the next line is read in.
fn version_in(reading: &Reading) -> Version
    ensures { result ≡ or_first reading.now.version }
{
    match reading.version {
        Some(version) => version,
        None => Version::First,
    }
}

// The numbers of a row of sizes; None of another row.
fn numbers_of(row: &Row) -> Option<[u32; 5]>
    ensures { result ≡ numbers_of row.now }
{
    match row {
        Row::Sizes(sizes) => Some(*sizes),
        _ => None,
    }
}

// The sizes that five numbers are.
#[tactic(auto, using(crate::proofs::SizeLaws::sizes_are_none))]
fn sizes_of(numbers: [u32; 5]) -> Option<IdSizes>
    ensures { result ≡ sizes_of numbers }
{
    match IdSizes::new(numbers) {
        Ok(sizes) => Some(sizes),
        Err(_) => None,
    }
}

fn row_in(alloc: Global, version: Version, line: &[u8]) -> Result<Row, RowTrouble>
    ensures { IsLine result (row_in version line.now) }
{
    let Ok(text) = str::from_utf8(line) else {
        return Err(RowTrouble::Fault(ScriptFault::NotUtf8));
    };
    match Value::from_str(alloc, text) {
        Ok(value) => shaped(alloc, version, &value),
        Err(error) => if error.is_memory() {
            Err(RowTrouble::NoMemory)
        } else {
            Err(RowTrouble::Fault(ScriptFault::NotJson))
        },
    }
}

fn shaped(alloc: Global, version: Version, value: &Value) -> Result<Row, RowTrouble>
    ensures { IsLine result (shaped version (view value.now)) }
{
    match read_row(alloc, version, value)? {
        Some(row) => Ok(row),
        None => Err(RowTrouble::Fault(ScriptFault::BadShape)),
    }
}
