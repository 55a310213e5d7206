ghost use Rattle.std.specs.Prelude.{◌≡◌, ◌<◌, ◌^◌, length};
ghost use Rattle.jdwp_values.specs.Rows.{Tells, times_at, list_at, spell_list, FitsList};
ghost use Rattle.jdwp_values.specs.Spelling.{Writes};

use crate::fault::RowFault;
use crate::limit::Limit;
use crate::reader::Reader;
use crate::writer::Writer;
use std::alloc::Global;
use wire_core::{List, NoMemory};

/// What a list in a body is made of: it is read and written as a row of parts (JDWP, Detailed Command Information).
pub trait Row: Drop {
    ghost use Rattle.std.specs.Prelude.{List as Items, ℕ, Result};
    ghost use Rattle.jdwp_values.specs.declared.fault.RowFault.{RowFault as Fault};
    ghost use Rattle.jdwp_values.specs.declared.sizes.IdSizes.{IdSizes};
    ghost use Rattle.jdwp_values.specs.Reading.{Place};
    ghost use Rattle.jdwp_values.specs.Rows.{Tells};
    ghost use Rattle.jdwp_values.specs.Spelling.{Writes};

    ghost read_at: { Place → Result (Self × Place) Fault };

    ghost spell: { IdSizes → Self → Items ℕ };

    ghost Fits: { IdSizes → Self → Type 0 };

    /// Reads one. The fault says which part can't be read, or that memory was refused.
    fn read(alloc: Global, reader: &mut Reader<'_>) -> Result<Self, RowFault>
        ensures { Tells (λ x. x) (read_at reader.old) reader.new result };

    /// Writes this one, whose ids and texts fit. `NoMemory` comes where memory is refused.
    fn write(&self, writer: &mut Writer) -> Result<(), NoMemory>
        requires { Fits writer.old.sizes self.now }
        ensures { Writes (spell writer.old.sizes self.now) writer.old writer.new result };
}

/// Reads how many there are, as the limit allows, and so many. The fault says which part can't be read, or that memory
/// was refused: `BadCount` comes where the limit doesn't allow the count (JDWP, Detailed Command Information).
#[tactic(auto, unfolding(crate::specs::Rows::list_at))]
pub fn read_list<T: Row>(
    alloc: Global,
    limit: Limit,
    reader: &mut Reader<'_>,
) -> Result<List<T>, RowFault>
    ensures { Tells (λ x. x) (list_at limit T.read_at reader.old) reader.new result }
{
    let count = reader.count(limit)?;
    read_times(alloc, count, reader)
}

fn read_times<T: Row>(
    alloc: Global,
    count: u32,
    reader: &mut Reader<'_>,
) -> Result<List<T>, RowFault>
    ensures { Tells (λ x. x) (times_at count T.read_at reader.old) reader.new result }
{
    let mut items = List::new(alloc);
    for _ in 0..count {
        items.push(T::read(alloc, reader)?)?;
    }
    Ok(items)
}

/// Writes how many there are, fewer than 2^31, and each, whose ids and texts fit. `NoMemory` comes where memory is
/// refused (JDWP, Detailed Command Information).
pub fn write_list<T: Row>(writer: &mut Writer, items: &[T]) -> Result<(), NoMemory>
    requires { FitsList (T.Fits writer.old.sizes) items.now }
    ensures { Writes (spell_list (T.spell writer.old.sizes) items.now) writer.old writer.new result }
{
    writer.count(items.len() as u32)?;
    for item in items {
        item.write(writer)?;
    }
    Ok(())
}
