//! What a class is made of: its methods, its fields, and a method's lines and variables.

use crate::fault::RowFault;
use crate::id::{FieldId, MethodId};
use crate::reader::Reader;
use crate::row::Row;
use crate::writer::Writer;
use std::alloc::Global;
use wire_core::{Blob, List, NoMemory};

/// A method of a class (JDWP, ReferenceType command set, Methods).
#[derive(Debug, Drop)]
pub struct Method {
    pub id: MethodId,
    pub name: Blob,
    pub signature: Blob,
    pub bits: i32,
}

/// A field of a class (JDWP, ReferenceType command set, Fields).
#[derive(Debug, Drop)]
pub struct Field {
    pub id: FieldId,
    pub name: Blob,
    pub signature: Blob,
    pub bits: i32,
}

/// A line of the source, with the index of its first code (JDWP, Method command set, LineTable).
#[derive(Clone, Copy, Debug, PartialEq, Eq)]
pub struct Line {
    pub index: u64,
    pub line: i32,
}

/// The lines of a method, and the first and the last index of its code, both -1 where it is native (JDWP, Method
/// command set, LineTable).
#[derive(Debug, Drop)]
pub struct LineTable {
    pub start: i64,
    pub end: i64,
    pub lines: List<Line>,
}

/// A variable of a method: it may be read in its slot from the index on, as far as its length goes (JDWP, Method
/// command set, VariableTable).
#[derive(Debug, Drop)]
pub struct Variable {
    pub index: u64,
    pub name: Blob,
    pub signature: Blob,
    pub length: u32,
    pub slot: i32,
}

impl Row for Method {
    ghost use Rattle.jdwp_values.specs.Classes.{method_row};
    ghost use Rattle.jdwp_values.specs.Rows.{read_by, spell_by, FitsBy};

    ghost read_at = { read_by method_row };

    ghost spell = { spell_by method_row };

    ghost Fits = { FitsBy method_row };

    fn read(alloc: Global, reader: &mut Reader<'_>) -> Result<Method, RowFault> {
        Ok(Method {
            id: reader.method()?,
            name: Blob::from_slice(alloc, reader.text()?)?,
            signature: Blob::from_slice(alloc, reader.text()?)?,
            bits: reader.int()?,
        })
    }

    #[tactic(auto, using(crate::proofs::Appends::appends))]
    fn write(&self, writer: &mut Writer) -> Result<(), NoMemory> {
        writer.method(self.id)?;
        writer.text(self.name.as_slice())?;
        writer.text(self.signature.as_slice())?;
        writer.int(self.bits)?;
        Ok(())
    }
}

impl Row for Field {
    ghost use Rattle.jdwp_values.specs.Classes.{field_row};
    ghost use Rattle.jdwp_values.specs.Rows.{read_by, spell_by, FitsBy};

    ghost read_at = { read_by field_row };

    ghost spell = { spell_by field_row };

    ghost Fits = { FitsBy field_row };

    fn read(alloc: Global, reader: &mut Reader<'_>) -> Result<Field, RowFault> {
        Ok(Field {
            id: reader.field()?,
            name: Blob::from_slice(alloc, reader.text()?)?,
            signature: Blob::from_slice(alloc, reader.text()?)?,
            bits: reader.int()?,
        })
    }

    #[tactic(auto, using(crate::proofs::Appends::appends))]
    fn write(&self, writer: &mut Writer) -> Result<(), NoMemory> {
        writer.field(self.id)?;
        writer.text(self.name.as_slice())?;
        writer.text(self.signature.as_slice())?;
        writer.int(self.bits)?;
        Ok(())
    }
}

impl Row for Line {
    ghost use Rattle.jdwp_values.specs.Classes.{line_row};
    ghost use Rattle.jdwp_values.specs.Rows.{read_by, spell_by, FitsBy};

    ghost read_at = { read_by line_row };

    ghost spell = { spell_by line_row };

    ghost Fits = { FitsBy line_row };

    fn read(_alloc: Global, reader: &mut Reader<'_>) -> Result<Line, RowFault> {
        Ok(Line {
            index: reader.index()?,
            line: reader.int()?,
        })
    }

    #[tactic(auto, using(crate::proofs::Appends::appends))]
    fn write(&self, writer: &mut Writer) -> Result<(), NoMemory> {
        writer.index(self.index)?;
        writer.int(self.line)?;
        Ok(())
    }
}

impl Row for Variable {
    ghost use Rattle.jdwp_values.specs.Classes.{variable_row};
    ghost use Rattle.jdwp_values.specs.Rows.{read_by, spell_by, FitsBy};

    ghost read_at = { read_by variable_row };

    ghost spell = { spell_by variable_row };

    ghost Fits = { FitsBy variable_row };

    fn read(alloc: Global, reader: &mut Reader<'_>) -> Result<Variable, RowFault> {
        Ok(Variable {
            index: reader.index()?,
            name: Blob::from_slice(alloc, reader.text()?)?,
            signature: Blob::from_slice(alloc, reader.text()?)?,
            length: reader.number()?,
            slot: reader.int()?,
        })
    }

    #[tactic(auto, using(crate::proofs::Appends::appends))]
    fn write(&self, writer: &mut Writer) -> Result<(), NoMemory> {
        writer.index(self.index)?;
        writer.text(self.name.as_slice())?;
        writer.text(self.signature.as_slice())?;
        writer.number(self.length)?;
        writer.int(self.slot)?;
        Ok(())
    }
}
