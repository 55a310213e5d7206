//! The rows that lists in commands and answers are made of.

use jdwp_values::{ClassId, FrameId, Location, Reader, Row, RowFault, TypeTag, Writer};
use std::alloc::Global;
use wire_core::{Blob, NoMemory};

/// A class of a signature that was asked for (JDWP, VirtualMachine command set, ClassesBySignature).
#[derive(Clone, Copy, Debug, PartialEq, Eq)]
pub struct ClassStatus {
    pub tag: TypeTag,
    pub class: ClassId,
    pub status: i32,
}

/// A class that the target has loaded (JDWP, VirtualMachine command set, AllClasses).
#[derive(Debug, Drop)]
pub struct LoadedClass {
    pub tag: TypeTag,
    pub class: ClassId,
    pub signature: Blob,
    pub status: i32,
}

/// A frame of a thread, and where it stands (JDWP, ThreadReference command set, Frames).
#[derive(Clone, Copy, Debug, PartialEq, Eq)]
pub struct Frame {
    pub id: FrameId,
    pub at: Location,
}

/// A slot that is asked for, with the byte of its variable's tag (JDWP, StackFrame command set, GetValues).
#[derive(Clone, Copy, Debug, PartialEq, Eq)]
pub struct Slot {
    pub slot: i32,
    pub tag: u8,
}

impl Row for ClassStatus {
    ghost use Rattle.jdwp_commands.specs.Listed.{class_status_row};
    ghost use Rattle.jdwp_values.specs.Rows.{read_by, spell_by, FitsBy};

    ghost read_at = { read_by class_status_row };

    ghost spell = { spell_by class_status_row };

    ghost Fits = { FitsBy class_status_row };

    fn read(_alloc: Global, reader: &mut Reader<'_>) -> Result<ClassStatus, RowFault> {
        Ok(ClassStatus {
            tag: reader.type_tag()?,
            class: reader.class()?,
            status: reader.int()?,
        })
    }

    #[tactic(auto, using(jdwp_values::proofs::Appends::appends))]
    fn write(&self, writer: &mut Writer) -> Result<(), NoMemory> {
        writer.type_tag(self.tag)?;
        writer.class(self.class)?;
        writer.int(self.status)?;
        Ok(())
    }
}

impl Row for LoadedClass {
    ghost use Rattle.jdwp_commands.specs.Listed.{loaded_class_row};
    ghost use Rattle.jdwp_values.specs.Rows.{read_by, spell_by, FitsBy};

    ghost read_at = { read_by loaded_class_row };

    ghost spell = { spell_by loaded_class_row };

    ghost Fits = { FitsBy loaded_class_row };

    fn read(alloc: Global, reader: &mut Reader<'_>) -> Result<LoadedClass, RowFault> {
        Ok(LoadedClass {
            tag: reader.type_tag()?,
            class: reader.class()?,
            signature: Blob::from_slice(alloc, reader.text()?)?,
            status: reader.int()?,
        })
    }

    #[tactic(auto, using(jdwp_values::proofs::Appends::appends))]
    fn write(&self, writer: &mut Writer) -> Result<(), NoMemory> {
        writer.type_tag(self.tag)?;
        writer.class(self.class)?;
        writer.text(self.signature.as_slice())?;
        writer.int(self.status)?;
        Ok(())
    }
}

impl Row for Frame {
    ghost use Rattle.jdwp_commands.specs.Listed.{frame_row};
    ghost use Rattle.jdwp_values.specs.Rows.{read_by, spell_by, FitsBy};

    ghost read_at = { read_by frame_row };

    ghost spell = { spell_by frame_row };

    ghost Fits = { FitsBy frame_row };

    fn read(_alloc: Global, reader: &mut Reader<'_>) -> Result<Frame, RowFault> {
        Ok(Frame {
            id: reader.frame()?,
            at: reader.location()?,
        })
    }

    #[tactic(auto, using(jdwp_values::proofs::Appends::appends))]
    fn write(&self, writer: &mut Writer) -> Result<(), NoMemory> {
        writer.frame(self.id)?;
        writer.location(self.at)?;
        Ok(())
    }
}

impl Row for Slot {
    ghost use Rattle.jdwp_commands.specs.Listed.{slot_row};
    ghost use Rattle.jdwp_values.specs.Rows.{read_by, spell_by, FitsBy};

    ghost read_at = { read_by slot_row };

    ghost spell = { spell_by slot_row };

    ghost Fits = { FitsBy slot_row };

    fn read(_alloc: Global, reader: &mut Reader<'_>) -> Result<Slot, RowFault> {
        Ok(Slot {
            slot: reader.int()?,
            tag: reader.byte()?,
        })
    }

    #[tactic(auto, using(jdwp_values::proofs::Appends::appends))]
    fn write(&self, writer: &mut Writer) -> Result<(), NoMemory> {
        writer.int(self.slot)?;
        writer.byte(self.tag)?;
        Ok(())
    }
}
