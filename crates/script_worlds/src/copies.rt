//! Copies of a world's rows.
ghost use Rattle.std.specs.Prelude.{◌≡◌, IfOk};

use jdwp_values::{Field, Line, Method, Variable};
use std::alloc::Global;
use wire_core::{Blob, List, NoMemory};
use world_model::{
    WorldArray, WorldClass, WorldField, WorldFrame, WorldMethod, WorldString, WorldThread,
    WorldVariable,
};

fn source_copy(alloc: Global, source: &Option<Blob>) -> Result<Option<Blob>, NoMemory>
    ensures { IfOk result (λ copy. copy ≡ source.now) }
{
    match source {
        Some(name) => Ok(Some(Blob::from_slice(alloc, name.as_slice())?)),
        None => Ok(None),
    }
}

fn lines_copy(alloc: Global, lines: &Option<List<Line>>) -> Result<Option<List<Line>>, NoMemory>
    ensures { IfOk result (λ copy. copy ≡ lines.now) }
{
    match lines {
        Some(lines) => Ok(Some(List::from_slice(alloc, lines.as_slice())?)),
        None => Ok(None),
    }
}

/// A copy of a class. `NoMemory` comes where memory is refused.
pub fn class_copy(alloc: Global, row: &WorldClass) -> Result<WorldClass, NoMemory>
    ensures { IfOk result (λ copy. copy ≡ row.now) }
{
    Ok(WorldClass {
        id: row.id,
        tag: row.tag,
        signature: Blob::from_slice(alloc, row.signature.as_slice())?,
        source: source_copy(alloc, &row.source)?,
        above: row.above,
        prepared: row.prepared,
    })
}

/// A copy of a method. `NoMemory` comes where memory is refused.
pub fn method_copy(alloc: Global, row: &WorldMethod) -> Result<WorldMethod, NoMemory>
    ensures { IfOk result (λ copy. copy ≡ row.now) }
{
    let method = Method {
        id: row.method.id,
        name: Blob::from_slice(alloc, row.method.name.as_slice())?,
        signature: Blob::from_slice(alloc, row.method.signature.as_slice())?,
        bits: row.method.bits,
    };
    Ok(WorldMethod {
        class: row.class,
        method,
        start: row.start,
        end: row.end,
        lines: lines_copy(alloc, &row.lines)?,
    })
}

/// A copy of a variable. `NoMemory` comes where memory is refused.
pub fn variable_copy(alloc: Global, row: &WorldVariable) -> Result<WorldVariable, NoMemory>
    ensures { IfOk result (λ copy. copy ≡ row.now) }
{
    let variable = Variable {
        index: row.variable.index,
        name: Blob::from_slice(alloc, row.variable.name.as_slice())?,
        signature: Blob::from_slice(alloc, row.variable.signature.as_slice())?,
        length: row.variable.length,
        slot: row.variable.slot,
    };
    Ok(WorldVariable {
        class: row.class,
        method: row.method,
        variable,
    })
}

/// A copy of a field. `NoMemory` comes where memory is refused.
pub fn field_copy(alloc: Global, row: &WorldField) -> Result<WorldField, NoMemory>
    ensures { IfOk result (λ copy. copy ≡ row.now) }
{
    let field = Field {
        id: row.field.id,
        name: Blob::from_slice(alloc, row.field.name.as_slice())?,
        signature: Blob::from_slice(alloc, row.field.signature.as_slice())?,
        bits: row.field.bits,
    };
    Ok(WorldField {
        class: row.class,
        field,
    })
}

/// A copy of an array. `NoMemory` comes where memory is refused.
pub fn array_copy(alloc: Global, row: &WorldArray) -> Result<WorldArray, NoMemory>
    ensures { IfOk result (λ copy. copy ≡ row.now) }
{
    Ok(WorldArray {
        id: row.id,
        class: row.class,
        values: List::from_slice(alloc, row.values.as_slice())?,
    })
}

/// A copy of a string. `NoMemory` comes where memory is refused.
pub fn string_copy(alloc: Global, row: &WorldString) -> Result<WorldString, NoMemory>
    ensures { IfOk result (λ copy. copy ≡ row.now) }
{
    Ok(WorldString {
        id: row.id,
        class: row.class,
        text: Blob::from_slice(alloc, row.text.as_slice())?,
    })
}

/// A copy of a thread. `NoMemory` comes where memory is refused.
pub fn thread_copy(alloc: Global, row: &WorldThread) -> Result<WorldThread, NoMemory>
    ensures { IfOk result (λ copy. copy ≡ row.now) }
{
    Ok(WorldThread {
        id: row.id,
        name: Blob::from_slice(alloc, row.name.as_slice())?,
    })
}

/// A copy of a frame. `NoMemory` comes where memory is refused.
pub fn frame_copy(alloc: Global, row: &WorldFrame) -> Result<WorldFrame, NoMemory>
    ensures { IfOk result (λ copy. copy ≡ row.now) }
{
    Ok(WorldFrame {
        thread: row.thread,
        id: row.id,
        class: row.class,
        method: row.method,
        index: row.index,
        this: row.this,
        slots: List::from_slice(alloc, row.slots.as_slice())?,
    })
}
