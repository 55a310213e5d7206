//! How frames are told, each under its number.
ghost use Rattle.std.specs.Prelude.{◌≡◌, ◌-ℤ◌, map, IfOk, OnOk};
ghost use Rattle.machine_model.specs.Frames.{client_line, first_column, frame_by, frame_told};
ghost use Rattle.machine_model.specs.References.{with_things};
ghost use Rattle.machine_model.specs.declared.parts.ShownFrame.{ShownFrame as AFrame};
ghost use Rattle.stop_refs.specs.declared.thing.Thing.TheVariants.{Frame as a_frame};
ghost use Rattle.session_facts.specs.Numbering.{has_stop, stop_of};

use crate::numbers::Numbers;
use crate::references::{frame_things, number_things};
use dap_messages::{Source, StackFrame};
use machine_model::{ClientOptions, ShownFrame, Spot};
use std::alloc::Global;
use stop_refs::{Stop, Thing};
use wire_core::{List, NoMemory, Text};

// A line as the client counts lines (DAP specification, Initialize request, linesStartAt1).
fn client_line(from_one: bool, line: i32) -> i64
    ensures { result ≡ client_line from_one line }
{
    if from_one {
        i64::from(line)
    } else {
        i64::from(line) - 1
    }
}

// The first column, as the client counts columns (DAP specification, Initialize request, columnsStartAt1).
fn first_column(from_one: bool) -> u32
    ensures { result ≡ first_column from_one }
{
    if from_one { 1 } else { 0 }
}

fn source_copy(alloc: Global, source: &Source) -> Result<Source, NoMemory>
    ensures { IfOk result (λ copy. copy ≡ source.now) }
{
    Ok(Source {
        name: Text::from_str(alloc, source.name.as_str())?,
        path: Text::from_str(alloc, source.path.as_str())?,
    })
}

// A frame as it is told under its number; one without a source stands at line 0 and column 0 (DAP specification, Types,
// StackFrame, line and column).
fn frame_by(
    alloc: Global,
    id: u32,
    name: &Text,
    options: ClientOptions,
    spot: &Option<Spot>,
) -> Result<StackFrame, NoMemory>
    ensures { IfOk result (λ told. told ≡ frame_by id name.now options spot.now) }
{
    let name = Text::from_str(alloc, name.as_str())?;
    match spot {
        None => Ok(StackFrame {
            id,
            name,
            line: 0,
            column: 0,
            source: None,
        }),
        Some(spot) => Ok(StackFrame {
            id,
            name,
            line: client_line(options.lines_from_one, spot.line),
            column: first_column(options.columns_from_one),
            source: Some(source_copy(alloc, &spot.source)?),
        }),
    }
}

// A frame as it is told, which has its number.
fn frame_told(
    alloc: Global,
    options: ClientOptions,
    stop: &Stop,
    shown: &ShownFrame,
) -> Result<StackFrame, NoMemory>
    ensures { IfOk result (λ told. told ≡ frame_told options stop.now shown.now) }
{
    match stop.number_told(&Thing::Frame(shown.frame)) {
        None => Err(NoMemory),
        Some(id) => frame_by(alloc, id, &shown.name, options, &shown.spot),
    }
}

fn each_told(
    alloc: Global,
    options: ClientOptions,
    stop: &Stop,
    frames: &[ShownFrame],
) -> Result<List<StackFrame>, NoMemory>
    ensures { IfOk result (λ told. told ≡ map (frame_told options stop.now) frames.now) }
{
    let mut told = List::new(alloc);
    for shown in frames {
        told.push(frame_told(alloc, options, stop, shown)?)?;
    }
    Ok(told)
}

// Frames as they are told, which have their numbers.
fn numbered_told(
    alloc: Global,
    options: ClientOptions,
    numbers: &Numbers,
    frames: &[ShownFrame],
) -> Result<List<StackFrame>, NoMemory>
    ensures { IfOk result (λ told. told ≡ map (frame_told options (stop_of numbers.now)) frames.now) }
{
    match numbers {
        Numbers::Running(_) => Err(NoMemory),
        Numbers::Stopped(stop) => each_told(alloc, options, stop, frames),
    }
}

/// Frames as they are told, once all have their numbers. `NoMemory` comes where memory is refused, where a number has no
/// room, and where no stop is in hand (DAP specification, Types, StackFrame).
pub fn frames_told(
    alloc: Global,
    options: ClientOptions,
    numbers: &mut Numbers,
    frames: &[ShownFrame],
) -> Result<List<StackFrame>, NoMemory>
    ensures told { IfOk result (λ told. told ≡ map (frame_told options (with_things
        (map (λ (shown : AFrame). a_frame shown.frame) frames.now) (stop_of numbers.old))) frames.now) }
    ensures numbers { OnOk result (stop_of numbers.new
        ≡ with_things (map (λ (shown : AFrame). a_frame shown.frame) frames.now) (stop_of numbers.old)) }
    ensures stopped { OnOk result (has_stop numbers.new ≡ has_stop numbers.old) }
{
    let things = frame_things(alloc, frames)?;
    number_things(numbers, things.as_slice())?;
    numbered_told(alloc, options, numbers, frames)
}
