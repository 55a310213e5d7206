//! Which values may be put where.
ghost use Rattle.std.specs.Prelude.{◌≡◌};
ghost use Rattle.world_model.specs.Objects.{field_of};
ghost use Rattle.world_model.specs.Storing.{untagged_value, referred, kept_value, value_from, field_put};
ghost use Rattle.world_model.specs.Storing.{field_stored, element_put, element_stored, slot_put, slot_stored};

use crate::codes::{INVALID_OBJECT, NOT_IMPLEMENTED};
use crate::fields::field_of;
use crate::found::Found;
use crate::kinds::{kind_in, same_kind};
use crate::objects::{array_at, kind_of_array, object_at, reference_in};
use crate::rows::{Put, WorldArray, WorldObject};
use crate::threads::{frame_at, slot_in};
use crate::world::World;
use jdwp_values::{FieldId, FrameId, IdSizes, ObjectId, Reader, Tag, ThreadId, Value};

// The value of a kind that bytes are.
fn untagged_value(sizes: IdSizes, kind: Tag, bytes: &[u8]) -> Option<Value>
    ensures { result ≡ untagged_value sizes kind bytes.now }
{
    if bytes.len() > 8 {
        return None;
    }
    let mut reader = Reader::new(bytes, sizes);
    match reader.untagged(kind.byte()) {
        Ok(value) => if reader.left() == 0 {
            Some(value)
        } else {
            None
        },
        Err(_) => None,
    }
}

// The object that a value refers to.
fn referred(value: &Value) -> Option<ObjectId>
    ensures { result ≡ referred value.now }
{
    match value {
        Value::Object(id) => Some(*id),
        Value::Array(id) => Some(*id),
        Value::String(id) => Some(*id),
        Value::Thread(id) => Some(*id),
        Value::ThreadGroup(id) => Some(*id),
        Value::ClassLoader(id) => Some(*id),
        Value::ClassObject(id) => Some(*id),
        _ => None,
    }
}

/// A value as it is kept: a reference behind the tag of what it is.
pub(crate) fn kept_value(world: &World, value: Value) -> Found<Value>
    ensures { result ≡ kept_value world.now value }
{
    match referred(&value) {
        Some(id) => match reference_in(world, id) {
            Some(kept) => Ok(kept),
            None => Err(INVALID_OBJECT),
        },
        None => Ok(value),
    }
}

// The value that bytes are, as it is kept in a place of a kind.
fn value_from(world: &World, bytes: &[u8], kind: Option<Tag>) -> Found<Value>
    ensures { result ≡ value_from world.now bytes.now kind }
{
    match kind {
        Some(tag) => match untagged_value(world.sizes, tag, bytes) {
            Some(value) => kept_value(world, value),
            None => Err(NOT_IMPLEMENTED),
        },
        None => Err(NOT_IMPLEMENTED),
    }
}

// What is put to a field of this object.
fn field_put(world: &World, object: &WorldObject, field: FieldId, bytes: &[u8]) -> Found<Put>
    ensures { result ≡ field_put world.now object.now field bytes.now (field_of world.now object.now.class field) }
{
    let row = match field_of(world, object.class, field) {
        Some(row) => row,
        None => return Err(NOT_IMPLEMENTED),
    };
    match value_from(world, bytes, kind_in(row.field.signature.as_slice())) {
        Ok(value) => Ok(Put {
            object: object.id,
            field,
            value,
        }),
        Err(code) => Err(code),
    }
}

/// What is put to a field of an object (JDWP, ObjectReference command set, SetValues).
pub(crate) fn field_stored(world: &World, id: ObjectId, field: FieldId, bytes: &[u8]) -> Found<Put>
    ensures { result ≡ field_stored world.now id field bytes.now }
{
    match object_at(world, id) {
        Ok(object) => field_put(world, object, field, bytes),
        Err(code) => Err(code),
    }
}

// What is put to an element of this array.
fn element_put(world: &World, row: &WorldArray, first: i32, bytes: &[u8]) -> Found<Value>
    ensures { result ≡ element_put world.now row.now first bytes.now }
{
    if first < 0 || row.values.len() <= first as usize {
        return Err(NOT_IMPLEMENTED);
    }
    value_from(world, bytes, kind_of_array(world, row))
}

/// What is put to an element of an array (JDWP, ArrayReference command set, SetValues).
pub(crate) fn element_stored(world: &World, id: ObjectId, first: i32, bytes: &[u8]) -> Found<Value>
    ensures { result ≡ element_stored world.now id first bytes.now }
{
    match array_at(world, id) {
        Ok(row) => element_put(world, row, first, bytes),
        Err(code) => Err(code),
    }
}

// What is put to a slot that has this value.
fn slot_put(world: &World, value: Value, held: Option<Value>) -> Found<Value>
    ensures { result ≡ slot_put world.now value held }
{
    match held {
        Some(held) => {
            if same_kind(held.tag(), value.tag()) {
                kept_value(world, value)
            } else {
                Err(NOT_IMPLEMENTED)
            }
        }
        None => Err(NOT_IMPLEMENTED),
    }
}

/// What is put to a slot of a frame (JDWP, StackFrame command set, SetValues).
pub(crate) fn slot_stored(
    world: &World,
    thread: ThreadId,
    frame: FrameId,
    slot: i32,
    value: Value,
) -> Found<Value>
    ensures { result ≡ slot_stored world.now thread frame slot value }
{
    match frame_at(world, thread, frame) {
        Ok(row) => slot_put(world, value, slot_in(row.slots.as_slice(), slot)),
        Err(code) => Err(code),
    }
}
