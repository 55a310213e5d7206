//! Which moves name what was given, and give what was not.
ghost use Rattle.std.specs.Prelude.{◌≡◌, ◌&&◌};
ghost use Rattle.world_model.specs.declared.moves.Move.TheVariants as moves;
ghost use Rattle.world_model.specs.Happenings.{is_nowhere};
ghost use Rattle.script_worlds.specs.Known.{is_given_thread, are_known_slots};
ghost use Rattle.script_worlds.specs.Known.{move_is_new, move_is_known, call_is_known, throw_is_known};

use crate::given::{field_in_object, is_class, is_method};
use crate::known::{
    are_known_slots, is_given_frame, is_given_object, is_given_thread, is_known, is_known_value,
};
use jdwp_values::{ClassId, FieldId, MethodId, ObjectId, ThreadId, Value};
use slot_values::SlotValue;
use world_model::{Move, World};

/// Whether a move gives no id that was given before.
pub fn move_is_new(world: &World, program: &[Move], row: &Move) -> bool
    ensures { result ≡ move_is_new world.now program.now row.now }
{
    match row {
        Move::Call { frame, .. } => !is_given_frame(world, program, *frame),
        Move::Start { thread, .. } => !is_given_object(world, program, ObjectId(thread.0)),
        _ => true,
    }
}

// Whether a place is none: its ids and its index are 0.
fn is_nowhere(class: ClassId, method: MethodId, index: u64) -> bool
    ensures { result ≡ is_nowhere class method index }
{
    class.0 == 0 && (method.0 == 0 && index == 0)
}

// Whether the thread that goes on and the values of its slots were given.
fn at_is_known(world: &World, program: &[Move], thread: ThreadId, slots: &[SlotValue]) -> bool
    ensures { result ≡ (is_given_thread world.now program.now thread
        && are_known_slots world.now program.now slots.now) }
{
    is_given_thread(world, program, thread) && are_known_slots(world, program, slots)
}

// Whether the thread, the method, the object and the values of a frame that is entered were given.
#[tactic(auto, unfolding(crate::specs::Known::call_is_known))]
fn call_is_known(
    world: &World,
    program: &[Move],
    thread: ThreadId,
    class: ClassId,
    method: MethodId,
    this: ObjectId,
    slots: &[SlotValue],
) -> bool
    ensures { result ≡ call_is_known world.now program.now thread class method this slots.now }
{
    (is_given_thread(world, program, thread) && is_method(world, class, method))
        && (is_known(world, program, this) && are_known_slots(world, program, slots))
}

// Whether the thread, the object that it throws and the place where that is caught were given.
#[tactic(auto, unfolding(crate::specs::Known::throw_is_known))]
fn throw_is_known(
    world: &World,
    program: &[Move],
    thread: ThreadId,
    object: ObjectId,
    class: ClassId,
    method: MethodId,
    index: u64,
) -> bool
    ensures { result ≡ throw_is_known world.now program.now thread object class method index }
{
    (is_given_thread(world, program, thread) && is_given_object(world, program, object))
        && (is_nowhere(class, method, index) || is_method(world, class, method))
}

// Whether the field of an object that a value is put to was given, and the value.
fn store_is_known(
    world: &World,
    program: &[Move],
    object: ObjectId,
    field: FieldId,
    value: &Value,
) -> bool
    ensures { result ≡ move_is_known world.now program.now (moves.Store object field value.now) }
{
    field_in_object(world, object, field).is_some() && is_known_value(world, program, value)
}

/// Whether a move names ids alone that were given before.
pub fn move_is_known(world: &World, program: &[Move], row: &Move) -> bool
    ensures { result ≡ move_is_known world.now program.now row.now }
{
    match row {
        Move::At { thread, slots, .. } => at_is_known(world, program, *thread, slots.as_slice()),
        Move::Call {
            thread,
            class,
            method,
            this,
            slots,
            ..
        } => call_is_known(
            world,
            program,
            *thread,
            *class,
            *method,
            *this,
            slots.as_slice(),
        ),
        Move::Return(thread) => is_given_thread(world, program, *thread),
        Move::Prepare { class, thread } => {
            is_class(world, *class) && is_given_thread(world, program, *thread)
        }
        Move::Throw {
            thread,
            object,
            class,
            method,
            index,
        } => throw_is_known(world, program, *thread, *object, *class, *method, *index),
        Move::Start { .. } => true,
        Move::Die(thread) => is_given_thread(world, program, *thread),
        Move::Store {
            object,
            field,
            value,
        } => store_is_known(world, program, *object, *field, value),
        Move::Death => true,
    }
}
