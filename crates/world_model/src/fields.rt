//! The values of fields.
ghost use Rattle.std.specs.Prelude.{◌≡◌, option_copied, IfOk};
ghost use Rattle.world_model.specs.Objects.{field_in, field_of, put_in, field_value};
ghost use Rattle.world_model.specs.Scans.{all_of};

use crate::classes::class_in;
use crate::kinds::{is_static, zero_in};
use crate::rows::{WorldField, WorldObject};
use crate::world::World;
use jdwp_values::{ClassId, FieldId, ObjectId, Value};
use std::alloc::Global;
use wire_core::{List, NoMemory};

// The field of a class itself with an id, where it is a field of objects.
fn field_in(world: &World, class: ClassId, field: FieldId) -> Option<&WorldField>
    ensures { option_copied result ≡ field_in world.now class field }
{
    world.fields.as_slice().iter().find(|row| {
        row.class.0 == class.0 && row.field.id.0 == field.0 && !is_static(row.field.bits)
    })
}

/// The field that objects of a class have under an id: of the class itself, or of one above it.
pub(crate) fn field_of(world: &World, class: ClassId, field: FieldId) -> Option<&WorldField>
    ensures { option_copied result ≡ field_of world.now class field }
{
    let steps = world.classes.as_slice();
    let mut class = class;
    for _step in steps {
        if let Some(row) = field_in(world, class, field) {
            return Some(row);
        }
        class = class_in(world, class)?.above;
    }
    None
}

// The value that was put to a field of an object last.
fn put_in(world: &World, object: ObjectId, field: FieldId) -> Option<Value>
    ensures { result ≡ put_in world.now object field }
{
    let mut found = None;
    let rows = world.puts.as_slice();
    for row in rows {
        if row.object.0 == object.0 && row.field.0 == field.0 {
            found = Some(row.value);
        }
    }
    found
}

// The value of a field of an object.
fn field_value(world: &World, object: &WorldObject, field: FieldId) -> Option<Value>
    ensures { result ≡ field_value world.now object.now field }
{
    let row = field_of(world, object.class, field)?;
    match put_in(world, object.id, field) {
        Some(value) => Some(value),
        None => Some(zero_in(row.field.signature.as_slice())),
    }
}

/// The values of some fields of an object, where it has them all.
pub(crate) fn field_values(
    alloc: Global,
    world: &World,
    object: &WorldObject,
    fields: &[FieldId],
) -> Result<Option<List<Value>>, NoMemory>
    ensures { IfOk result (λ values. values ≡ all_of (field_value world.now object.now) fields.now) }
{
    let mut values = List::new(alloc);
    for field in fields {
        let Some(value) = field_value(world, object, *field) else {
            return Ok(None);
        };
        values.push(value)?;
    }
    Ok(Some(values))
}
