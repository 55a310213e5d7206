//! Lines of the world.
ghost use Rattle.std.specs.Prelude.{◌≡◌};
ghost use Rattle.line_elements.specs.Parts.{row_at, Tells};
ghost use Rattle.script_rows.specs.Rows.{class_parts, class_made, method_parts, method_made, variable_parts};
ghost use Rattle.script_rows.specs.Rows.{variable_made, field_parts, field_made, object_parts, object_made, array_parts};
ghost use Rattle.script_rows.specs.Rows.{array_made, string_parts, string_made, put_parts, put_made, thread_parts};
ghost use Rattle.script_rows.specs.Rows.{thread_made, frame_parts, frame_made, begin_parts, begin_made, sizes_parts};
ghost use Rattle.script_rows.specs.Rows.{sizes_made, limits_row, world_row};

use crate::kinds::WorldKind;
use crate::rows::Row;
use crate::script::Begin;
use jdwp_values::{
    ClassId, Field, FieldId, FrameId, Method, MethodId, ObjectId, ThreadId, Variable,
};
use line_elements::{Elements, LineFault, Version};
use std::alloc::Global;
use world_model::{
    Put, WorldArray, WorldClass, WorldField, WorldFrame, WorldMethod, WorldObject, WorldString,
    WorldThread, WorldVariable,
};

fn class(alloc: Global, elements: &mut Elements<'_>) -> Result<WorldClass, LineFault>
    ensures { Tells (λ x. x) (row_at class_parts class_made elements.old) elements.new result }
{
    Ok(WorldClass {
        id: ClassId(elements.id()?),
        tag: elements.class_tag()?,
        signature: elements.text(alloc)?,
        source: elements.text_or_null(alloc)?,
        above: ClassId(elements.id_or_none()?),
        prepared: elements.truth()?,
    })
}

fn method(alloc: Global, elements: &mut Elements<'_>) -> Result<WorldMethod, LineFault>
    ensures { Tells (λ x. x) (row_at method_parts method_made elements.old) elements.new result }
{
    Ok(WorldMethod {
        class: ClassId(elements.id()?),
        method: Method {
            id: MethodId(elements.id()?),
            name: elements.text(alloc)?,
            signature: elements.text(alloc)?,
            bits: elements.int()?,
        },
        start: elements.long()?,
        end: elements.long()?,
        lines: elements.lines(alloc)?,
    })
}

fn variable(alloc: Global, elements: &mut Elements<'_>) -> Result<WorldVariable, LineFault>
    ensures { Tells (λ x. x) (row_at variable_parts variable_made elements.old) elements.new result }
{
    let class = ClassId(elements.id()?);
    let method = MethodId(elements.id()?);
    let index = elements.id_or_none()?;
    let length = elements.small(0, 1 << 32)?;
    Ok(WorldVariable {
        class,
        method,
        variable: Variable {
            index,
            name: elements.text(alloc)?,
            signature: elements.text(alloc)?,
            length,
            slot: elements.int()?,
        },
    })
}

fn field(alloc: Global, elements: &mut Elements<'_>) -> Result<WorldField, LineFault>
    ensures { Tells (λ x. x) (row_at field_parts field_made elements.old) elements.new result }
{
    Ok(WorldField {
        class: ClassId(elements.id()?),
        field: Field {
            id: FieldId(elements.id()?),
            name: elements.text(alloc)?,
            signature: elements.text(alloc)?,
            bits: elements.int()?,
        },
    })
}

fn object(elements: &mut Elements<'_>) -> Result<WorldObject, LineFault>
    ensures { Tells (λ x. x) (row_at object_parts object_made elements.old) elements.new result }
{
    Ok(WorldObject {
        id: ObjectId(elements.id()?),
        tag: elements.object_tag()?,
        class: ClassId(elements.id()?),
    })
}

fn array(
    alloc: Global,
    version: Version,
    elements: &mut Elements<'_>,
) -> Result<WorldArray, LineFault>
    ensures { Tells (λ x. x) (row_at (array_parts version) (array_made version) elements.old) elements.new result }
{
    Ok(WorldArray {
        id: ObjectId(elements.id()?),
        class: ClassId(elements.id()?),
        values: elements.values(alloc, version)?,
    })
}

fn string(alloc: Global, elements: &mut Elements<'_>) -> Result<WorldString, LineFault>
    ensures { Tells (λ x. x) (row_at string_parts string_made elements.old) elements.new result }
{
    Ok(WorldString {
        id: ObjectId(elements.id()?),
        class: ClassId(elements.id()?),
        text: elements.text(alloc)?,
    })
}

fn put(version: Version, elements: &mut Elements<'_>) -> Result<Put, LineFault>
    ensures { Tells (λ x. x) (row_at (put_parts version) (put_made version) elements.old) elements.new result }
{
    Ok(Put {
        object: ObjectId(elements.id()?),
        field: FieldId(elements.id()?),
        value: elements.value(version)?,
    })
}

fn thread(alloc: Global, elements: &mut Elements<'_>) -> Result<WorldThread, LineFault>
    ensures { Tells (λ x. x) (row_at thread_parts thread_made elements.old) elements.new result }
{
    Ok(WorldThread {
        id: ThreadId(elements.id()?),
        name: elements.text(alloc)?,
    })
}

fn frame(
    alloc: Global,
    version: Version,
    elements: &mut Elements<'_>,
) -> Result<WorldFrame, LineFault>
    ensures { Tells (λ x. x) (row_at (frame_parts version) (frame_made version) elements.old) elements.new result }
{
    Ok(WorldFrame {
        thread: ThreadId(elements.id()?),
        id: FrameId(elements.id()?),
        class: ClassId(elements.id()?),
        method: MethodId(elements.id()?),
        index: elements.index()?,
        this: ObjectId(elements.id_or_none()?),
        slots: elements.slots(alloc, version)?,
    })
}

fn begin(elements: &mut Elements<'_>) -> Result<Begin, LineFault>
    ensures { Tells (λ x. x) (row_at begin_parts begin_made elements.old) elements.new result }
{
    Ok(Begin {
        thread: ThreadId(elements.id()?),
        policy: elements.policy()?,
    })
}

fn sizes(elements: &mut Elements<'_>) -> Result<Row, LineFault>
    ensures { Tells (λ x. x) (row_at sizes_parts sizes_made elements.old) elements.new result }
{
    Ok(Row::Sizes([
        elements.small(1, 9)?,
        elements.small(1, 9)?,
        elements.small(1, 9)?,
        elements.small(1, 9)?,
        elements.small(1, 9)?,
    ]))
}

fn limits(version: Version, elements: &mut Elements<'_>) -> Result<Row, LineFault>
    ensures { Tells (λ x. x) (limits_row version elements.old) elements.new result }
{
    match version {
        Version::First => Err(LineFault::BadShape),
        Version::Second => Ok(Row::Limits {
            turns: elements.natural(1, (1 << 40) + 1)?,
            quiet: elements.natural(1, 1 << 63)?,
            waiting: elements.small(1, 1 << 32)?,
        }),
    }
}

/// The row of a kind of line in a script of this version, of the parts behind its name.
pub(crate) fn world_row(
    alloc: Global,
    version: Version,
    kind: WorldKind,
    elements: &mut Elements<'_>,
) -> Result<Row, LineFault>
    ensures { Tells (λ x. x) (world_row version kind elements.old) elements.new result }
{
    match kind {
        WorldKind::Script => Ok(Row::Head {
            version: elements.version()?,
        }),
        WorldKind::Sizes => sizes(elements),
        WorldKind::Limits => limits(version, elements),
        WorldKind::Class => Ok(Row::Class(class(alloc, elements)?)),
        WorldKind::Method => Ok(Row::Method(method(alloc, elements)?)),
        WorldKind::Variable => Ok(Row::Variable(variable(alloc, elements)?)),
        WorldKind::Field => Ok(Row::Field(field(alloc, elements)?)),
        WorldKind::Object => Ok(Row::Object(object(elements)?)),
        WorldKind::Array => Ok(Row::Array(array(alloc, version, elements)?)),
        WorldKind::String => Ok(Row::Text(string(alloc, elements)?)),
        WorldKind::Put => Ok(Row::Put(put(version, elements)?)),
        WorldKind::Thread => Ok(Row::Thread(thread(alloc, elements)?)),
        WorldKind::Frame => Ok(Row::Frame(frame(alloc, version, elements)?)),
        WorldKind::Begin => Ok(Row::Begin(begin(elements)?)),
        WorldKind::End => Ok(Row::End),
    }
}
