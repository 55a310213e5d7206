//! What a world says of its objects.
ghost use Rattle.std.specs.Prelude.{◌≡◌, option_copied, IfOk};
ghost use Rattle.std.specs.Result.{result_map_both};
ghost use Rattle.world_model.specs.Objects.{object_in, array_in, string_in, is_thread, reference_to, reference_in};
ghost use Rattle.world_model.specs.Objects.{is_there, object_fault, class_of, tag_of_type, type_in, text_in, object_at};
ghost use Rattle.world_model.specs.Objects.{array_at, length_in, elements_from, kind_of_array, this_in};

use crate::classes::{class_in, tag_in};
use crate::codes::{INVALID_OBJECT, NOT_IMPLEMENTED};
use crate::kinds::{element_kind, null, reference_of};
use crate::rows::{WorldArray, WorldObject, WorldString};
use crate::threads::{counted, frame_at, is_alive};
use crate::world::World;
use jdwp_values::{ClassId, FrameId, ObjectId, Tag, ThreadId, TypeTag, Value};

/// The object with an id, if it is there.
pub(crate) fn object_in(world: &World, id: ObjectId) -> Option<&WorldObject>
    ensures { option_copied result ≡ object_in world.now id }
{
    world.objects.as_slice().iter().find(|row| row.id.0 == id.0)
}

/// The array with an id, if it is there.
pub(crate) fn array_in(world: &World, id: ObjectId) -> Option<&WorldArray>
    ensures { option_copied result ≡ array_in world.now id }
{
    world.arrays.as_slice().iter().find(|row| row.id.0 == id.0)
}

// The string with an id, if it is there.
fn string_in(world: &World, id: ObjectId) -> Option<&WorldString>
    ensures { option_copied result ≡ string_in world.now id }
{
    world.strings.as_slice().iter().find(|row| row.id.0 == id.0)
}

// Whether an object's id is that of a thread.
fn is_thread(world: &World, id: ObjectId) -> bool
    ensures { result ≡ is_thread world.now id }
{
    is_alive(world, ThreadId(id.0))
}

/// The object's id behind the tag of what it is.
pub(crate) fn reference_to(world: &World, id: ObjectId) -> Option<Value>
    ensures { result ≡ reference_to world.now id }
{
    if let Some(row) = object_in(world, id) {
        return Some(reference_of(row.tag, id));
    }
    if array_in(world, id).is_some() {
        return Some(Value::Array(id));
    }
    if string_in(world, id).is_some() {
        return Some(Value::String(id));
    }
    if is_thread(world, id) {
        Some(Value::Thread(id))
    } else {
        None
    }
}

/// The same, of null too.
pub(crate) fn reference_in(world: &World, id: ObjectId) -> Option<Value>
    ensures { result ≡ reference_in world.now id }
{
    if id.0 == 0 {
        Some(null())
    } else {
        reference_to(world, id)
    }
}

/// Whether there is an object, of whatever kind.
pub(crate) fn is_there(world: &World, id: ObjectId) -> bool
    ensures { result ≡ is_there world.now id }
{
    reference_to(world, id).is_some()
}

// Why nothing is said of an object.
fn object_fault(world: &World, id: ObjectId) -> u16
    ensures { result ≡ object_fault world.now id }
{
    if is_there(world, id) {
        NOT_IMPLEMENTED
    } else {
        INVALID_OBJECT
    }
}

// The class of an object.
fn class_of(world: &World, id: ObjectId) -> Option<ClassId>
    ensures { result ≡ class_of world.now id }
{
    if let Some(row) = object_in(world, id) {
        return Some(row.class);
    }
    if let Some(row) = array_in(world, id) {
        return Some(row.class);
    }
    if let Some(row) = string_in(world, id) {
        return Some(row.class);
    }
    if is_thread(world, id) {
        Some(ClassId(0))
    } else {
        None
    }
}

// What the class of an object is.
fn tag_of_type(world: &World, class: ClassId) -> TypeTag
    ensures { result ≡ tag_of_type world.now class }
{
    if class.0 == 0 {
        TypeTag::Class
    } else {
        tag_in(world, class)
    }
}

/// The class of an object, and what that is (JDWP, ObjectReference command set, ReferenceType).
pub(crate) fn type_in(world: &World, id: ObjectId) -> Result<(TypeTag, ClassId), u16>
    ensures { result ≡ type_in world.now id }
{
    match class_of(world, id) {
        Some(class) => Ok((tag_of_type(world, class), class)),
        None => Err(INVALID_OBJECT),
    }
}

/// The text of a string (JDWP, StringReference command set, Value).
pub(crate) fn text_in(world: &World, id: ObjectId) -> Result<&[u8], u16>
    ensures { result_map_both (λ text. text.now) (λ code. code) result ≡ text_in world.now id }
{
    match string_in(world, id) {
        Some(row) => Ok(row.text.as_slice()),
        None => Err(object_fault(world, id)),
    }
}

/// The object with an id, or why it isn't there.
pub(crate) fn object_at(world: &World, id: ObjectId) -> Result<&WorldObject, u16>
    ensures { result_map_both (λ row. row.now) (λ code. code) result ≡ object_at world.now id }
{
    match object_in(world, id) {
        Some(row) => Ok(row),
        None => Err(object_fault(world, id)),
    }
}

/// The array with an id, or why it isn't there.
pub(crate) fn array_at(world: &World, id: ObjectId) -> Result<&WorldArray, u16>
    ensures { result_map_both (λ row. row.now) (λ code. code) result ≡ array_at world.now id }
{
    match array_in(world, id) {
        Some(row) => Ok(row),
        None => Err(object_fault(world, id)),
    }
}

/// How many elements an array has (JDWP, ArrayReference command set, Length).
pub(crate) fn length_in(world: &World, id: ObjectId) -> Result<u32, u16>
    ensures { result ≡ length_in world.now id }
{
    match array_at(world, id) {
        Ok(row) => counted(row.values.len()),
        Err(code) => Err(code),
    }
}

/// So many elements from the first one on, where they are all there.
pub(crate) fn elements_from(elements: &[Value], first: i32, n: i32) -> Option<&[Value]>
    ensures { option_copied result ≡ elements_from elements.now first n }
{
    if first < 0 || n < 0 || elements.len() < first as usize + n as usize {
        return None;
    }
    Some(&elements[first as usize..first as usize + n as usize])
}

/// The kind of the elements of an array.
pub(crate) fn kind_of_array(world: &World, row: &WorldArray) -> Option<Tag>
    ensures { result ≡ kind_of_array world.now row.now }
{
    element_kind(class_in(world, row.class)?.signature.as_slice())
}

/// The object whose method runs in a frame (JDWP, StackFrame command set, ThisObject).
pub(crate) fn this_in(world: &World, thread: ThreadId, frame: FrameId) -> Result<Value, u16>
    ensures { result ≡ this_in world.now thread frame }
{
    let row = match frame_at(world, thread, frame) {
        Ok(row) => row,
        Err(code) => return Err(code),
    };
    match reference_in(world, row.this) {
        Some(value) => Ok(value),
        None => Err(INVALID_OBJECT),
    }
}
