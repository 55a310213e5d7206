//! A script as text.
ghost use Rattle.std.specs.Prelude.{◌≡◌, ◌++◌, IfOk, OnOk, flat_map};
ghost use Rattle.printed_scripts.specs.Texts.{row_text, begin_rows, world_parts, together, script_text};

use printed_rows::{add_end, add_head, add_limits, add_row, add_rows, add_sizes};
use script_rows::{Begin, Script};
use std::alloc::Global;
use wire_core::{Blob, NoMemory};
use world_model::World;

/// The text of a script in the second version, with its limits: compact JSON, a line for each thing that it says, in the
/// order of their kinds. `NoMemory` comes where memory is refused.
pub fn print_script(alloc: Global, script: &Script) -> Result<Blob, NoMemory>
    ensures { IfOk result (λ text. text ≡ script_text script.now) }
{
    let mut text = Blob::new(alloc);
    add_head(alloc, &mut text)?;
    add_sizes(alloc, &mut text, script.world.sizes)?;
    add_limits(alloc, &mut text, script.turns, script.quiet, script.waiting)?;
    add_world(alloc, &mut text, &script.world)?;
    add_begin(alloc, &mut text, &script.begin)?;
    add_rows(alloc, &mut text, script.program.as_slice())?;
    add_rows(alloc, &mut text, script.schedule.as_slice())?;
    add_end(alloc, &mut text)?;
    Ok(text)
}

// Adds the lines of the world.
fn add_world(alloc: Global, text: &mut Blob, world: &World) -> Result<(), NoMemory>
    ensures { OnOk result (text.new ≡ text.old ++ flat_map row_text (together (world_parts world.now))) }
{
    add_rows(alloc, text, world.classes.as_slice())?;
    add_rows(alloc, text, world.methods.as_slice())?;
    add_rows(alloc, text, world.variables.as_slice())?;
    add_rows(alloc, text, world.fields.as_slice())?;
    add_rows(alloc, text, world.objects.as_slice())?;
    add_rows(alloc, text, world.arrays.as_slice())?;
    add_rows(alloc, text, world.strings.as_slice())?;
    add_rows(alloc, text, world.puts.as_slice())?;
    add_rows(alloc, text, world.threads.as_slice())?;
    add_rows(alloc, text, world.frames.as_slice())?;
    Ok(())
}

// Adds the line of the start, where it is told.
fn add_begin(alloc: Global, text: &mut Blob, begin: &Option<Begin>) -> Result<(), NoMemory>
    ensures { OnOk result (text.new ≡ text.old ++ flat_map row_text (begin_rows begin.now)) }
{
    match begin {
        Some(begin) => add_row(alloc, text, begin),
        None => Ok(()),
    }
}
