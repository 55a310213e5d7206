ghost use Rattle.std.specs.Prelude.{◌≡◌};
ghost use Rattle.jdwp_values.specs.Rows.{Tells, spell_told, FitsTold};
ghost use Rattle.jdwp_values.specs.Spelling.{Writes};
ghost use Rattle.jdwp_events.specs.Modifiers.{kind_of, byte_of_modifier, modifier_of_byte, told, modifier_behind};

use jdwp_values::{
    ClassId, Location, ReadTrouble, Reader, Row, RowFault, ThreadId, ValueFault, Writer,
};
use std::alloc::Global;
use wire_core::{Blob, NoMemory};

/// What narrows an event request (JDWP, EventRequest command set, Set). Bytes and numbers are kept whatever they are.
#[derive(Debug, Drop)]
pub enum Modifier {
    /// The event is told once, when it happens for this time.
    Count(i32),
    /// Events of this thread alone.
    ThreadOnly(ThreadId),
    /// Events in this class, or a class below it.
    ClassOnly(ClassId),
    /// Events in classes whose names match this pattern.
    ClassMatch(Blob),
    /// Events in classes whose names don't match it.
    ClassExclude(Blob),
    /// Events at this place.
    LocationOnly(Location),
    /// Exceptions of this class, or of each where its id is 0; a byte of 0 leaves out those that are caught, or not.
    ExceptionOnly {
        class: ClassId,
        caught: u8,
        uncaught: u8,
    },
    /// Steps of this thread (JDWP, Constants, StepSize and StepDepth).
    Step {
        thread: ThreadId,
        size: i32,
        depth: i32,
    },
}

/// Which modifier it is (JDWP, EventRequest command set, Set, modKind).
#[derive(Clone, Copy, Debug, PartialEq, Eq)]
pub enum ModifierKind {
    Count,
    ThreadOnly,
    ClassOnly,
    ClassMatch,
    ClassExclude,
    LocationOnly,
    ExceptionOnly,
    Step,
}

impl ModifierKind {
    /// The modifier of a byte; None exactly where it is no modifier's byte.
    pub fn from_byte(byte: u8) -> Option<ModifierKind>
        ensures { result ≡ modifier_of_byte byte }
    {
        match byte {
            1 => Some(ModifierKind::Count),
            3 => Some(ModifierKind::ThreadOnly),
            4 => Some(ModifierKind::ClassOnly),
            5 => Some(ModifierKind::ClassMatch),
            6 => Some(ModifierKind::ClassExclude),
            7 => Some(ModifierKind::LocationOnly),
            8 => Some(ModifierKind::ExceptionOnly),
            10 => Some(ModifierKind::Step),
            _ => None,
        }
    }

    /// The modifier's byte.
    pub fn byte(self) -> u8
        ensures { result ≡ byte_of_modifier self }
    {
        match self {
            ModifierKind::Count => 1,
            ModifierKind::ThreadOnly => 3,
            ModifierKind::ClassOnly => 4,
            ModifierKind::ClassMatch => 5,
            ModifierKind::ClassExclude => 6,
            ModifierKind::LocationOnly => 7,
            ModifierKind::ExceptionOnly => 8,
            ModifierKind::Step => 10,
        }
    }
}

impl Modifier {
    /// Which modifier it is.
    pub fn kind(&self) -> ModifierKind
        ensures { result ≡ kind_of self.now }
    {
        match self {
            Modifier::Count(_) => ModifierKind::Count,
            Modifier::ThreadOnly(_) => ModifierKind::ThreadOnly,
            Modifier::ClassOnly(_) => ModifierKind::ClassOnly,
            Modifier::ClassMatch(_) => ModifierKind::ClassMatch,
            Modifier::ClassExclude(_) => ModifierKind::ClassExclude,
            Modifier::LocationOnly(_) => ModifierKind::LocationOnly,
            Modifier::ExceptionOnly { .. } => ModifierKind::ExceptionOnly,
            Modifier::Step { .. } => ModifierKind::Step,
        }
    }
}

/// The modifier behind its kind's byte.
fn behind_kind(
    alloc: Global,
    kind: ModifierKind,
    reader: &mut Reader<'_>,
) -> Result<Modifier, RowFault>
    ensures { Tells (λ x. x) (modifier_behind kind reader.old) reader.new result }
{
    match kind {
        ModifierKind::Count => Ok(Modifier::Count(reader.int()?)),
        ModifierKind::ThreadOnly => Ok(Modifier::ThreadOnly(reader.thread()?)),
        ModifierKind::ClassOnly => Ok(Modifier::ClassOnly(reader.class()?)),
        ModifierKind::ClassMatch => Ok(Modifier::ClassMatch(Blob::from_slice(
            alloc,
            reader.text()?,
        )?)),
        ModifierKind::ClassExclude => Ok(Modifier::ClassExclude(Blob::from_slice(
            alloc,
            reader.text()?,
        )?)),
        ModifierKind::LocationOnly => Ok(Modifier::LocationOnly(reader.location()?)),
        ModifierKind::ExceptionOnly => Ok(Modifier::ExceptionOnly {
            class: reader.class()?,
            caught: reader.byte()?,
            uncaught: reader.byte()?,
        }),
        ModifierKind::Step => Ok(Modifier::Step {
            thread: reader.thread()?,
            size: reader.int()?,
            depth: reader.int()?,
        }),
    }
}

#[tactic(auto, using(jdwp_values::proofs::Appends::appends))]
fn write_parts(modifier: &Modifier, writer: &mut Writer) -> Result<(), NoMemory>
    requires { FitsTold writer.old.sizes (told modifier.now) }
    ensures { Writes (spell_told writer.old.sizes (told modifier.now)) writer.old writer.new result }
{
    match modifier {
        Modifier::Count(count) => writer.int(*count)?,
        Modifier::ThreadOnly(thread) => writer.thread(*thread)?,
        Modifier::ClassOnly(class) => writer.class(*class)?,
        Modifier::ClassMatch(pattern) => writer.text(pattern.as_slice())?,
        Modifier::ClassExclude(pattern) => writer.text(pattern.as_slice())?,
        Modifier::LocationOnly(location) => writer.location(*location)?,
        Modifier::ExceptionOnly {
            class,
            caught,
            uncaught,
        } => {
            writer.class(*class)?;
            writer.byte(*caught)?;
            writer.byte(*uncaught)?;
        }
        Modifier::Step {
            thread,
            size,
            depth,
        } => {
            writer.thread(*thread)?;
            writer.int(*size)?;
            writer.int(*depth)?;
        }
    }
    Ok(())
}

impl Row for Modifier {
    ghost use Rattle.jdwp_events.specs.Modifiers.{modifier_at, spell_modifier, FitsModifier};

    ghost read_at = { modifier_at };

    ghost spell = { spell_modifier };

    ghost Fits = { FitsModifier };

    /// A modifier begins with its byte: `BadTag` at a byte that is no modifier's.
    #[tactic(auto, unfolding(crate::specs::Modifiers::modifier_at))]
    fn read(alloc: Global, reader: &mut Reader<'_>) -> Result<Modifier, RowFault> {
        let at = reader.at();
        match ModifierKind::from_byte(reader.byte()?) {
            Some(kind) => behind_kind(alloc, kind, reader),
            None => Err(RowFault::Part(ReadTrouble {
                fault: ValueFault::BadTag,
                at,
            })),
        }
    }

    #[tactic(auto, using(jdwp_values::proofs::Appends::appends))]
    fn write(&self, writer: &mut Writer) -> Result<(), NoMemory> {
        writer.byte(self.kind().byte())?;
        write_parts(self, writer)?;
        Ok(())
    }
}
