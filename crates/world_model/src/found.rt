//! What is found of a world and copied from it; else the number of the error.
ghost use Rattle.std.specs.Prelude.{◌≡◌, IfOk, ok_or, option_copied};
ghost use Rattle.std.specs.Result.{result_map_both};
ghost use Rattle.world_model.specs.Classes.{fields_in, methods_in, lines_of, lines_in, variables_in, some_variables};
ghost use Rattle.world_model.specs.Codes.{not_implemented};
ghost use Rattle.world_model.specs.Objects.{fields_of_object, region_of, elements_in};
ghost use Rattle.world_model.specs.Threads.{frames_in, frame_count_in, slots_in};

use crate::classes::{has_class, is_native, method_at};
use crate::codes::{ABSENT_INFORMATION, INVALID_CLASS, NOT_IMPLEMENTED};
use crate::fields::field_values;
use crate::members::{fields_of, methods_of, variables_of};
use crate::objects::{array_at, elements_from, kind_of_array, object_at};
use crate::rows::WorldMethod;
use crate::threads::{counted, frame_at, frames_from, frames_of, may_ask, slot_values};
use crate::world::World;
use jdwp_commands::{Frame, Region, Slot};
use jdwp_values::{
    ClassId, Field, FieldId, FrameId, LineTable, Method, MethodId, ObjectId, Tag, ThreadId, Value,
    Variable,
};
use std::alloc::Global;
use wire_core::{Blob, List, NoMemory};

/// What is found, or the number of the error.
pub(crate) type Found<T> = Result<T, u16>;

/// A copy of a text that was found.
pub(crate) fn text_copy(alloc: Global, found: Found<&[u8]>) -> Result<Found<Blob>, NoMemory>
    ensures { IfOk result (λ copy. copy ≡ result_map_both (λ text. text.now) (λ code. code) found.entry) }
{
    match found {
        Ok(text) => Ok(Ok(Blob::from_slice(alloc, text)?)),
        Err(code) => Ok(Err(code)),
    }
}

/// The fields of a class (JDWP, ReferenceType command set, Fields).
pub(crate) fn fields_in(
    alloc: Global,
    world: &World,
    class: ClassId,
) -> Result<Found<List<Field>>, NoMemory>
    ensures { IfOk result (λ found. found ≡ fields_in world.now class) }
{
    if class.0 == 0 {
        Ok(Ok(List::new(alloc)))
    } else if has_class(world, class) {
        Ok(Ok(fields_of(alloc, world, class)?))
    } else {
        Ok(Err(INVALID_CLASS))
    }
}

/// The methods of a class (JDWP, ReferenceType command set, Methods).
pub(crate) fn methods_in(
    alloc: Global,
    world: &World,
    class: ClassId,
) -> Result<Found<List<Method>>, NoMemory>
    ensures { IfOk result (λ found. found ≡ methods_in world.now class) }
{
    if has_class(world, class) {
        Ok(Ok(methods_of(alloc, world, class)?))
    } else {
        Ok(Err(INVALID_CLASS))
    }
}

// The lines of a method, where they are known.
fn lines_of(alloc: Global, row: &WorldMethod) -> Result<Found<LineTable>, NoMemory>
    ensures { IfOk result (λ found. found ≡ lines_of row.now) }
{
    if is_native(row) {
        return Ok(Ok(LineTable {
            start: -1,
            end: -1,
            lines: List::new(alloc),
        }));
    }
    match &row.lines {
        Some(lines) => Ok(Ok(LineTable {
            start: row.start,
            end: row.end,
            lines: List::from_slice(alloc, lines.as_slice())?,
        })),
        None => Ok(Err(ABSENT_INFORMATION)),
    }
}

/// The lines of a method (JDWP, Method command set, LineTable).
pub(crate) fn lines_in(
    alloc: Global,
    world: &World,
    class: ClassId,
    method: MethodId,
) -> Result<Found<LineTable>, NoMemory>
    ensures { IfOk result (λ found. found ≡ lines_in world.now class method) }
{
    match method_at(world, class, method) {
        Ok(row) => lines_of(alloc, row),
        Err(code) => Ok(Err(code)),
    }
}

// Variables are known where there are any.
fn some_variables(variables: List<Variable>) -> Found<List<Variable>>
    ensures { result ≡ some_variables variables }
{
    if variables.is_empty() {
        Err(ABSENT_INFORMATION)
    } else {
        Ok(variables)
    }
}

/// The variables of a method (JDWP, Method command set, VariableTable).
pub(crate) fn variables_in(
    alloc: Global,
    world: &World,
    class: ClassId,
    method: MethodId,
) -> Result<Found<List<Variable>>, NoMemory>
    ensures { IfOk result (λ found. found ≡ variables_in world.now class method) }
{
    match method_at(world, class, method) {
        Ok(_) => Ok(some_variables(variables_of(alloc, world, class, method)?)),
        Err(code) => Ok(Err(code)),
    }
}

// What was found among what is there.
fn or_not_there<T: Drop>(found: Option<T>) -> Found<T>
    ensures { result ≡ ok_or found not_implemented }
{
    match found {
        Some(thing) => Ok(thing),
        None => Err(NOT_IMPLEMENTED),
    }
}

/// The values of some fields of an object (JDWP, ObjectReference command set, GetValues).
pub(crate) fn fields_of_object(
    alloc: Global,
    world: &World,
    id: ObjectId,
    fields: &[FieldId],
) -> Result<Found<List<Value>>, NoMemory>
    ensures { IfOk result (λ found. found ≡ fields_of_object world.now id fields.now) }
{
    match object_at(world, id) {
        Ok(object) => Ok(or_not_there(field_values(alloc, world, object, fields)?)),
        Err(code) => Ok(Err(code)),
    }
}

// A copy of some frames that were found.
fn frames_copy(alloc: Global, found: Option<&[Frame]>) -> Result<Found<List<Frame>>, NoMemory>
    ensures { IfOk result (λ copy. copy ≡ ok_or (option_copied found.entry) not_implemented) }
{
    match found {
        Some(frames) => Ok(Ok(List::from_slice(alloc, frames)?)),
        None => Ok(Err(NOT_IMPLEMENTED)),
    }
}

/// Some frames of a thread (JDWP, ThreadReference command set, Frames).
pub(crate) fn frames_in(
    alloc: Global,
    world: &World,
    thread: ThreadId,
    start: i32,
    n: i32,
) -> Result<Found<List<Frame>>, NoMemory>
    ensures { IfOk result (λ found. found ≡ frames_in world.now thread start n) }
{
    if let Err(code) = may_ask(world, thread) {
        return Ok(Err(code));
    }
    let frames = frames_of(alloc, world, thread)?;
    frames_copy(alloc, frames_from(frames.as_slice(), start, n))
}

/// How many frames a thread has (JDWP, ThreadReference command set, FrameCount).
pub(crate) fn frame_count_in(
    alloc: Global,
    world: &World,
    thread: ThreadId,
) -> Result<Found<u32>, NoMemory>
    ensures { IfOk result (λ found. found ≡ frame_count_in world.now thread) }
{
    if let Err(code) = may_ask(world, thread) {
        return Ok(Err(code));
    }
    Ok(counted(frames_of(alloc, world, thread)?.len()))
}

/// The values of some slots of a frame (JDWP, StackFrame command set, GetValues).
pub(crate) fn slots_in(
    alloc: Global,
    world: &World,
    thread: ThreadId,
    frame: FrameId,
    asked: &[Slot],
) -> Result<Found<List<Value>>, NoMemory>
    ensures { IfOk result (λ found. found ≡ slots_in world.now thread frame asked.now) }
{
    match frame_at(world, thread, frame) {
        Ok(row) => Ok(or_not_there(slot_values(alloc, row.slots.as_slice(), asked)?)),
        Err(code) => Ok(Err(code)),
    }
}

// A copy of some elements of one kind, where both are known.
fn region_of(
    alloc: Global,
    tag: Option<Tag>,
    elements: Option<&[Value]>,
) -> Result<Option<Region>, NoMemory>
    ensures { IfOk result (λ region. region ≡ region_of tag (option_copied elements.entry)) }
{
    match (tag, elements) {
        (Some(tag), Some(elements)) => Ok(Some(Region {
            tag,
            values: List::from_slice(alloc, elements)?,
        })),
        _ => Ok(None),
    }
}

/// Some elements of an array (JDWP, ArrayReference command set, GetValues).
pub(crate) fn elements_in(
    alloc: Global,
    world: &World,
    id: ObjectId,
    first: i32,
    n: i32,
) -> Result<Found<Region>, NoMemory>
    ensures { IfOk result (λ found. found ≡ elements_in world.now id first n) }
{
    match array_at(world, id) {
        Ok(row) => {
            let elements = elements_from(row.values.as_slice(), first, n);
            let region = region_of(alloc, kind_of_array(world, row), elements)?;
            Ok(or_not_there(region))
        }
        Err(code) => Ok(Err(code)),
    }
}
