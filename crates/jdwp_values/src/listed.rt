//! The parts that lists are made of as they are.

use crate::fault::RowFault;
use crate::id::{FieldId, ThreadId};
use crate::reader::Reader;
use crate::row::Row;
use crate::value::Value;
use crate::writer::Writer;
use std::alloc::Global;
use wire_core::NoMemory;

impl Row for ThreadId {
    ghost use Rattle.std.specs.Prelude.{[], ◌∷◌};
    ghost use Rattle.jdwp_values.specs.Parts.{simple, thread_id, thread};
    ghost use Rattle.jdwp_values.specs.Rows.{row_at};
    ghost use Rattle.jdwp_values.specs.Spelling.{spell_part, FitsPart};

    ghost read_at = { row_at (thread ∷ []) (λ id. id) };

    ghost spell = { λ sizes id. spell_part sizes thread id };

    ghost Fits = { λ sizes id. FitsPart sizes thread id };

    fn read(_alloc: Global, reader: &mut Reader<'_>) -> Result<ThreadId, RowFault> {
        Ok(reader.thread()?)
    }

    fn write(&self, writer: &mut Writer) -> Result<(), NoMemory> {
        writer.thread(*self)
    }
}

impl Row for FieldId {
    ghost use Rattle.std.specs.Prelude.{[], ◌∷◌};
    ghost use Rattle.jdwp_values.specs.Parts.{simple, field_id, field};
    ghost use Rattle.jdwp_values.specs.Rows.{row_at};
    ghost use Rattle.jdwp_values.specs.Spelling.{spell_part, FitsPart};

    ghost read_at = { row_at (field ∷ []) (λ id. id) };

    ghost spell = { λ sizes id. spell_part sizes field id };

    ghost Fits = { λ sizes id. FitsPart sizes field id };

    fn read(_alloc: Global, reader: &mut Reader<'_>) -> Result<FieldId, RowFault> {
        Ok(reader.field()?)
    }

    fn write(&self, writer: &mut Writer) -> Result<(), NoMemory> {
        writer.field(*self)
    }
}

impl Row for Value {
    ghost use Rattle.std.specs.Prelude.{[], ◌∷◌};
    ghost use Rattle.jdwp_values.specs.Parts.{value};
    ghost use Rattle.jdwp_values.specs.Rows.{row_at};
    ghost use Rattle.jdwp_values.specs.Spelling.{spell_part, FitsPart};

    ghost read_at = { row_at (value ∷ []) (λ v. v) };

    ghost spell = { λ sizes v. spell_part sizes value v };

    ghost Fits = { λ sizes v. FitsPart sizes value v };

    fn read(_alloc: Global, reader: &mut Reader<'_>) -> Result<Value, RowFault> {
        Ok(reader.value()?)
    }

    fn write(&self, writer: &mut Writer) -> Result<(), NoMemory> {
        writer.value(self)
    }
}
