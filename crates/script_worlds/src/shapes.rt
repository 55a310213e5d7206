//! Which rows have numbers of the sizes that a world says, and values of the kinds that it says.
ghost use Rattle.std.specs.Prelude.{◌≡◌};
ghost use Rattle.std.specs.List.{list_all};
ghost use Rattle.jdwp_values.specs.Parts.{tag_of_value};
ghost use Rattle.world_model.specs.Happenings.{fits};
ghost use Rattle.world_model.specs.Kinds.{same_kind};
ghost use Rattle.world_model.specs.Requests.{frames_under};
ghost use Rattle.script_worlds.specs.Shapes.{value_fits, slots_fit, place_fits, is_of_kind, are_of_kind, class_fits};
ghost use Rattle.script_worlds.specs.Shapes.{method_fits, variable_fits, field_fits, object_fits, array_fits};
ghost use Rattle.script_worlds.specs.Shapes.{has_elements, string_fits, field_value_fits, is_for_field, thread_fits};
ghost use Rattle.script_worlds.specs.Shapes.{frame_fits, has_room, move_fits, move_is_of_kind};

use crate::given::{class_in, field_in_object};
use crate::kinds::{element_kind, kind_in, referred, same_kind};
use jdwp_values::{ClassId, FieldId, IdSizes, MethodId, ObjectId, Tag, ThreadId, Value};
use slot_values::SlotValue;
use world_model::{
    Move, World, WorldArray, WorldClass, WorldField, WorldFrame, WorldMethod, WorldObject,
    WorldString, WorldVariable,
};

// One more than the greatest number that an int has room for.
const END: usize = 1 << 31;

// Whether an id takes so many bytes.
fn fits(size: u8, id: u64) -> bool
    ensures { result ≡ fits size id }
{
    match 256u64.checked_pow(u32::from(size)) {
        Some(end) => id < end,
        None => true,
    }
}

// Whether the id of a value, where it has one, takes so many bytes as that of an object.
fn value_fits(sizes: IdSizes, value: &Value) -> bool
    ensures { result ≡ value_fits sizes value.now }
{
    match referred(value) {
        Some(id) => fits(sizes.object, id.0),
        None => true,
    }
}

// Whether the values of all slots do.
fn slots_fit(sizes: IdSizes, slots: &[SlotValue]) -> bool
    ensures { result ≡ slots_fit sizes slots.now }
{
    slots.iter().all(|row| value_fits(sizes, &row.value))
}

// Whether all values do.
fn values_fit(sizes: IdSizes, values: &[Value]) -> bool
    ensures { result ≡ list_all (value_fits sizes) values.now }
{
    values.iter().all(|value| value_fits(sizes, value))
}

// Whether a method's ids do.
fn place_fits(sizes: IdSizes, class: ClassId, method: MethodId) -> bool
    ensures { result ≡ place_fits sizes class method }
{
    fits(sizes.class, class.0) && fits(sizes.method, method.0)
}

// Whether a value is of a kind, where there is one.
fn is_of_kind(kind: Option<Tag>, value: &Value) -> bool
    ensures { result ≡ is_of_kind kind value.now }
{
    match kind {
        Some(kind) => same_kind(kind, value.tag()),
        None => false,
    }
}

// Whether all values are of a kind.
fn are_all_of(kind: Tag, values: &[Value]) -> bool
    ensures { result ≡ list_all (λ value. same_kind kind (tag_of_value value)) values.now }
{
    values.iter().all(|value| same_kind(kind, value.tag()))
}

// Whether all values are of a kind, where there is one.
fn are_of_kind(kind: Option<Tag>, values: &[Value]) -> bool
    ensures { result ≡ are_of_kind kind values.now }
{
    match kind {
        Some(kind) => are_all_of(kind, values),
        None => false,
    }
}

/// Whether the ids of a class fit their sizes, and its own isn't that of null.
pub fn class_fits(sizes: IdSizes, row: &WorldClass) -> bool
    ensures { result ≡ class_fits sizes row.now }
{
    0 < row.id.0 && (fits(sizes.class, row.id.0) && fits(sizes.class, row.above.0))
}

/// Whether the ids of a method fit their sizes.
pub fn method_fits(sizes: IdSizes, row: &WorldMethod) -> bool
    ensures { result ≡ method_fits sizes row.now }
{
    place_fits(sizes, row.class, row.method.id)
}

/// Whether the ids of a variable's method fit their sizes.
pub fn variable_fits(sizes: IdSizes, row: &WorldVariable) -> bool
    ensures { result ≡ variable_fits sizes row.now }
{
    place_fits(sizes, row.class, row.method)
}

/// Whether the ids of a field fit their sizes.
pub fn field_fits(sizes: IdSizes, row: &WorldField) -> bool
    ensures { result ≡ field_fits sizes row.now }
{
    fits(sizes.class, row.class.0) && fits(sizes.field, row.field.id.0)
}

/// Whether the ids of an object fit their sizes.
pub fn object_fits(sizes: IdSizes, row: &WorldObject) -> bool
    ensures { result ≡ object_fits sizes row.now }
{
    fits(sizes.object, row.id.0) && fits(sizes.class, row.class.0)
}

/// Whether the ids of an array and of its values fit their sizes, and an int has room for the number of these.
pub fn array_fits(sizes: IdSizes, row: &WorldArray) -> bool
    ensures { result ≡ array_fits sizes row.now }
{
    (fits(sizes.object, row.id.0) && fits(sizes.class, row.class.0))
        && (values_fit(sizes, row.values.as_slice()) && row.values.len() < END)
}

/// Whether the values of an array are of the kind that its class says, where that was given.
pub fn has_elements(world: &World, row: &WorldArray) -> bool
    ensures { result ≡ has_elements world.now row.now }
{
    match class_in(world, row.class) {
        Some(class) => are_of_kind(
            element_kind(class.signature.as_slice()),
            row.values.as_slice(),
        ),
        None => true,
    }
}

/// Whether the ids of a string fit their sizes.
pub fn string_fits(sizes: IdSizes, row: &WorldString) -> bool
    ensures { result ≡ string_fits sizes row.now }
{
    fits(sizes.object, row.id.0) && fits(sizes.class, row.class.0)
}

/// Whether the ids of an object, of a field and of a value fit their sizes.
pub fn field_value_fits(sizes: IdSizes, object: ObjectId, field: FieldId, value: &Value) -> bool
    ensures { result ≡ field_value_fits sizes object field value.now }
{
    (fits(sizes.object, object.0) && fits(sizes.field, field.0)) && value_fits(sizes, value)
}

/// Whether a value is of the kind of an object's field, where that was given.
pub fn is_for_field(world: &World, object: ObjectId, field: FieldId, value: &Value) -> bool
    ensures { result ≡ is_for_field world.now object field value.now }
{
    match field_in_object(world, object, field) {
        Some(row) => is_of_kind(kind_in(row.field.signature.as_slice()), value),
        None => true,
    }
}

/// Whether the id of a thread fits its size, which is that of an object's.
pub fn thread_fits(sizes: IdSizes, thread: ThreadId) -> bool
    ensures { result ≡ thread_fits sizes thread }
{
    fits(sizes.object, thread.0)
}

/// Whether the ids of a frame and of the values of its slots fit their sizes.
pub fn frame_fits(sizes: IdSizes, row: &WorldFrame) -> bool
    ensures { result ≡ frame_fits sizes row.now }
{
    (fits(sizes.object, row.thread.0) && fits(sizes.frame, row.id.0))
        && (place_fits(sizes, row.class, row.method)
            && (fits(sizes.object, row.this.0) && slots_fit(sizes, row.slots.as_slice())))
}

/// Whether an int has room for the number of a thread's frames and one more.
pub fn has_room(world: &World, thread: ThreadId) -> bool
    ensures { result ≡ has_room world.now thread }
{
    frames_under(world.frames.as_slice(), thread) + 1 < END
}

// How many frames a thread has.
fn frames_under(frames: &[WorldFrame], thread: ThreadId) -> usize
    ensures { result ≡ frames_under frames.now thread }
{
    frames.iter().filter(|row| row.thread.0 == thread.0).count()
}

/// Whether the ids of a move and of its values fit their sizes.
pub fn move_fits(sizes: IdSizes, row: &Move) -> bool
    ensures { result ≡ move_fits sizes row.now }
{
    match row {
        Move::At { thread, slots, .. } => {
            thread_fits(sizes, *thread) && slots_fit(sizes, slots.as_slice())
        }
        Move::Call {
            thread,
            frame,
            class,
            method,
            this,
            slots,
            ..
        } => {
            (thread_fits(sizes, *thread) && fits(sizes.frame, frame.0))
                && (place_fits(sizes, *class, *method)
                    && (fits(sizes.object, this.0) && slots_fit(sizes, slots.as_slice())))
        }
        Move::Return(thread) => thread_fits(sizes, *thread),
        Move::Prepare { class, thread } => {
            fits(sizes.class, class.0) && thread_fits(sizes, *thread)
        }
        Move::Throw {
            thread,
            object,
            class,
            method,
            ..
        } => {
            (thread_fits(sizes, *thread) && fits(sizes.object, object.0))
                && place_fits(sizes, *class, *method)
        }
        Move::Start { thread, .. } => thread_fits(sizes, *thread),
        Move::Die(thread) => thread_fits(sizes, *thread),
        Move::Store {
            object,
            field,
            value,
        } => field_value_fits(sizes, *object, *field, value),
        Move::Death => true,
    }
}

/// Whether a value that a move stores is of its field's kind, where that was given.
pub fn move_is_of_kind(world: &World, row: &Move) -> bool
    ensures { result ≡ move_is_of_kind world.now row.now }
{
    match row {
        Move::Store {
            object,
            field,
            value,
        } => is_for_field(world, *object, *field, value),
        _ => true,
    }
}
