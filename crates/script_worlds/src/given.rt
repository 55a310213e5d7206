//! What a world has been given so far.
ghost use Rattle.std.specs.Prelude.{◌≡◌, option_copied};
ghost use Rattle.world_model.specs.Classes.{class_in};
ghost use Rattle.world_model.specs.Objects.{object_in, field_in, field_of};
ghost use Rattle.script_worlds.specs.Given.{is_class, is_method, is_above, are_related, is_field, is_thread, is_object};
ghost use Rattle.script_worlds.specs.Given.{is_array, is_plain, is_string, is_frame, field_in_object};

use crate::kinds::is_static;
use jdwp_values::{ClassId, FieldId, FrameId, MethodId, ObjectId, ThreadId};
use world_model::{World, WorldClass, WorldField, WorldObject};

/// The class with an id, if it was given.
pub(crate) fn class_in(world: &World, class: ClassId) -> Option<&WorldClass>
    ensures { option_copied result ≡ class_in world.now class }
{
    world
        .classes
        .as_slice()
        .iter()
        .find(|row| row.id.0 == class.0)
}

/// Whether a class was given.
pub fn is_class(world: &World, class: ClassId) -> bool
    ensures { result ≡ is_class world.now class }
{
    world
        .classes
        .as_slice()
        .iter()
        .any(|row| row.id.0 == class.0)
}

/// Whether a method of a class was given.
pub fn is_method(world: &World, class: ClassId, method: MethodId) -> bool
    ensures { result ≡ is_method world.now class method }
{
    world.methods.as_slice().iter().any(|row| row.class.0 == class.0 && row.method.id.0 == method.0)
}

// Whether a class is another one, or below it.
fn is_above(world: &World, class: ClassId, above: ClassId) -> bool
    ensures { result ≡ is_above world.now.classes world.now class above }
{
    let steps = world.classes.as_slice();
    let mut class = class;
    for _step in steps {
        if class.0 == above.0 {
            return true;
        }
        let Some(row) = class_in(world, class) else {
            return false;
        };
        class = row.above;
    }
    class.0 == above.0
}

// Whether one of two classes is above the other, or they are one.
fn are_related(world: &World, a: ClassId, b: ClassId) -> bool
    ensures { result ≡ are_related world.now a b }
{
    is_above(world, a, b) || is_above(world, b, a)
}

/// Whether a field of the class, of one above it or of one below it was given under an id.
pub fn is_field(world: &World, class: ClassId, field: FieldId) -> bool
    ensures { result ≡ is_field world.now class field }
{
    world.fields.as_slice().iter().any(|row| row.field.id.0 == field.0
        && are_related(world, class, row.class))
}

/// Whether a thread was given.
pub fn is_thread(world: &World, thread: ThreadId) -> bool
    ensures { result ≡ is_thread world.now thread }
{
    world
        .threads
        .as_slice()
        .iter()
        .any(|row| row.id.0 == thread.0)
}

// Whether an array was given.
fn is_array(world: &World, id: ObjectId) -> bool
    ensures { result ≡ is_array world.now id }
{
    world.arrays.as_slice().iter().any(|row| row.id.0 == id.0)
}

// Whether an object was given that is no array, no string and no thread.
fn is_plain(world: &World, id: ObjectId) -> bool
    ensures { result ≡ is_plain world.now id }
{
    world.objects.as_slice().iter().any(|row| row.id.0 == id.0)
}

// Whether a string was given.
fn is_string(world: &World, id: ObjectId) -> bool
    ensures { result ≡ is_string world.now id }
{
    world.strings.as_slice().iter().any(|row| row.id.0 == id.0)
}

/// Whether an object, an array, a string or a thread was given under an id.
pub fn is_object(world: &World, id: ObjectId) -> bool
    ensures { result ≡ is_object world.now id }
{
    is_array(world, id)
        || (is_plain(world, id) || (is_string(world, id) || is_thread(world, ThreadId(id.0))))
}

/// Whether a frame was given, of whatever thread.
pub fn is_frame(world: &World, frame: FrameId) -> bool
    ensures { result ≡ is_frame world.now frame }
{
    world
        .frames
        .as_slice()
        .iter()
        .any(|row| row.id.0 == frame.0)
}

// The object with an id that is no array, no string and no thread, if it was given.
fn object_in(world: &World, id: ObjectId) -> Option<&WorldObject>
    ensures { option_copied result ≡ object_in world.now id }
{
    world.objects.as_slice().iter().find(|row| row.id.0 == id.0)
}

// The field of a class itself with an id, where it is a field of objects.
fn field_in(world: &World, class: ClassId, field: FieldId) -> Option<&WorldField>
    ensures { option_copied result ≡ field_in world.now class field }
{
    world.fields.as_slice().iter().find(|row| {
        row.class.0 == class.0 && row.field.id.0 == field.0 && !is_static(row.field.bits)
    })
}

// The field that objects of a class have under an id: of the class itself, or of one above it.
fn field_of(world: &World, class: ClassId, field: FieldId) -> Option<&WorldField>
    ensures { option_copied result ≡ field_of world.now class field }
{
    let steps = world.classes.as_slice();
    let mut class = class;
    for _step in steps {
        if let Some(row) = field_in(world, class, field) {
            return Some(row);
        }
        class = class_in(world, class)?.above;
    }
    None
}

/// The field that an object has under an id, where it is an object that has fields.
pub(crate) fn field_in_object(
    world: &World,
    object: ObjectId,
    field: FieldId,
) -> Option<&WorldField>
    ensures { option_copied result ≡ field_in_object world.now object field }
{
    field_of(world, object_in(world, object)?.class, field)
}
