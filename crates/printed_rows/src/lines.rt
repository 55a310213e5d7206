//! Lines, behind those before them.
ghost use Rattle.std.specs.Prelude.{◌≡◌, ◌++◌, [], ◌∷◌, false, OnOk, Some, flat_map};
ghost use Rattle.serde_json.specs.View.{view};
ghost use Rattle.serde_json.specs.Written.{has_float};
ghost use Rattle.script_rows.specs.Printing.{data_of};
ghost use Rattle.line_elements.specs.Values.{array_of};
ghost use Rattle.script_rows.specs.declared.rows.Row.TheVariants as rows;
ghost use Rattle.line_elements.specs.declared.version.Version.TheVariants.{Second};
ghost use Rattle.script_text.specs.Texts.{line_of};

use crate::elements::Elements;
use jdwp_values::IdSizes;
use std::alloc::Global;
use wire_core::{Blob, NoMemory};

/// What a script has a line for.
pub trait ScriptRow {
    ghost use Rattle.std.specs.Prelude.{◌≡◌, [], OnOk};
    ghost use Rattle.script_rows.specs.Plain.{IsPlain};
    ghost use Rattle.script_rows.specs.Printing.{data_of};
    ghost use Rattle.line_elements.specs.Values.{array_of};
    ghost use Rattle.script_rows.specs.declared.rows.Row.{Row};

    /// The line, as a row.
    ghost row_of: { Self → Row };

    /// Adds the elements of the line, in which no number is a float. `NoMemory` comes where memory is refused.
    fn say(&self, line: &mut Elements) -> Result<(), NoMemory>
        requires { line.old ≡ [] }
        ensures value { OnOk result (array_of line.new ≡ data_of (row_of self.now)) }
        ensures plain { OnOk result (IsPlain (row_of self.now)) };
}

// Adds the line of these elements.
fn add_line(alloc: Global, text: &mut Blob, line: Elements) -> Result<(), NoMemory>
    requires { has_float (array_of line) ≡ false }
    ensures { OnOk result (text.new ≡ text.old ++ line_of (array_of line)) }
{
    let value = line.array();
    let line = value.to_vec(alloc)?;
    text.extend_from_slice(line.as_slice())?;
    text.push(b'\n')?;
    Ok(())
}

/// Adds the line of a row. `NoMemory` comes where memory is refused, and then nothing is said of the text.
pub fn add_row<T: ScriptRow>(alloc: Global, text: &mut Blob, row: &T) -> Result<(), NoMemory>
    ensures { OnOk result (text.new ≡ text.old ++ line_of (data_of (T.row_of row.now))) }
{
    let mut line = Elements::new(alloc);
    row.say(&mut line)?;
    add_line(alloc, text, line)
}

/// Adds the lines of rows, in order. `NoMemory` comes where memory is refused, and then nothing is said of the text.
pub fn add_rows<T: ScriptRow>(alloc: Global, text: &mut Blob, rows: &[T]) -> Result<(), NoMemory>
    ensures { OnOk result (text.new ≡ text.old ++ flat_map (λ row. line_of (data_of (T.row_of row))) rows.now) }
{
    for row in rows {
        add_row(alloc, text, row)?;
    }
    Ok(())
}

/// Adds the first line, of the second version. `NoMemory` comes where memory is refused.
pub fn add_head(alloc: Global, text: &mut Blob) -> Result<(), NoMemory>
    ensures { OnOk result (text.new ≡ text.old ++ line_of (data_of (rows.Head (Some Second)))) }
{
    let mut line = Elements::new(alloc);
    line.word("script")?;
    line.natural(2)?;
    add_line(alloc, text, line)
}

/// Adds the line that says how many bytes ids take. `NoMemory` comes where memory is refused.
pub fn add_sizes(alloc: Global, text: &mut Blob, sizes: IdSizes) -> Result<(), NoMemory>
    ensures { OnOk result (text.new ≡ text.old ++ line_of (data_of
        (rows.Sizes (sizes.field ∷ sizes.method ∷ sizes.object ∷ sizes.class ∷ sizes.frame ∷ [])))) }
{
    let mut line = Elements::new(alloc);
    say_sizes(&mut line, sizes)?;
    add_line(alloc, text, line)
}

fn say_sizes(line: &mut Elements, sizes: IdSizes) -> Result<(), NoMemory>
    requires { line.old ≡ [] }
    ensures { OnOk result (array_of line.new
        ≡ data_of (rows.Sizes (sizes.field ∷ sizes.method ∷ sizes.object ∷ sizes.class ∷ sizes.frame ∷ []))) }
{
    line.word("sizes")?;
    line.natural(u64::from(sizes.field))?;
    line.natural(u64::from(sizes.method))?;
    line.natural(u64::from(sizes.object))?;
    line.natural(u64::from(sizes.class))?;
    line.natural(u64::from(sizes.frame))
}

/// Adds the line that says the limits. `NoMemory` comes where memory is refused.
pub fn add_limits(
    alloc: Global,
    text: &mut Blob,
    turns: u64,
    quiet: u64,
    waiting: u32,
) -> Result<(), NoMemory>
    ensures { OnOk result (text.new ≡ text.old ++ line_of (data_of (rows.Limits turns quiet waiting))) }
{
    let mut line = Elements::new(alloc);
    say_limits(&mut line, turns, quiet, waiting)?;
    add_line(alloc, text, line)
}

fn say_limits(line: &mut Elements, turns: u64, quiet: u64, waiting: u32) -> Result<(), NoMemory>
    requires { line.old ≡ [] }
    ensures { OnOk result (array_of line.new ≡ data_of (rows.Limits turns quiet waiting)) }
{
    line.word("limits")?;
    line.natural(turns)?;
    line.natural(quiet)?;
    line.natural(u64::from(waiting))
}

/// Adds the last line. `NoMemory` comes where memory is refused.
pub fn add_end(alloc: Global, text: &mut Blob) -> Result<(), NoMemory>
    ensures { OnOk result (text.new ≡ text.old ++ line_of (data_of rows.End)) }
{
    let mut line = Elements::new(alloc);
    line.word("end")?;
    add_line(alloc, text, line)
}
