//! Which rows of a world name what it was given.
ghost use Rattle.std.specs.Prelude.{◌≡◌};
ghost use Rattle.script_worlds.specs.Known.{array_is_known, put_is_known, frame_is_known};

use crate::given::{field_in_object, is_class, is_method, is_thread};
use crate::known::{are_known_slots, are_known_values, is_known, is_known_value};
use world_model::{Move, Put, World, WorldArray, WorldFrame};

/// Whether the class and the values of an array were given.
pub fn array_is_known(world: &World, program: &[Move], row: &WorldArray) -> bool
    ensures { result ≡ array_is_known world.now program.now row.now }
{
    is_class(world, row.class) && are_known_values(world, program, row.values.as_slice())
}

/// Whether the field of an object that a value is put to was given, and the value.
pub fn put_is_known(world: &World, program: &[Move], row: &Put) -> bool
    ensures { result ≡ put_is_known world.now program.now row.now }
{
    field_in_object(world, row.object, row.field).is_some()
        && is_known_value(world, program, &row.value)
}

/// Whether the thread, the method, the object and the values of a frame were given.
pub fn frame_is_known(world: &World, program: &[Move], row: &WorldFrame) -> bool
    ensures { result ≡ frame_is_known world.now program.now row.now }
{
    (is_thread(world, row.thread) && is_method(world, row.class, row.method))
        && (is_known(world, program, row.this)
            && are_known_slots(world, program, row.slots.as_slice()))
}
