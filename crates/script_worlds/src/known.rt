//! What a world and the moves of its program give.
ghost use Rattle.std.specs.Prelude.{◌≡◌};
ghost use Rattle.std.specs.List.{list_any, list_all};
ghost use Rattle.script_worlds.specs.Known.{starts, enters, is_given_object, is_given_thread, is_given_frame};
ghost use Rattle.script_worlds.specs.Known.{is_known, is_known_value, are_known_slots};

use crate::given::{is_frame, is_object, is_thread};
use crate::kinds::referred;
use jdwp_values::{FrameId, ObjectId, ThreadId, Value};
use slot_values::SlotValue;
use world_model::{Move, World};

// Whether a thread starts by a move.
fn starts(id: u64, row: &Move) -> bool
    ensures { result ≡ starts id row.now }
{
    match row {
        Move::Start { thread, .. } => thread.0 == id,
        _ => false,
    }
}

// Whether a frame is entered by a move.
fn enters(id: u64, row: &Move) -> bool
    ensures { result ≡ enters id row.now }
{
    match row {
        Move::Call { frame, .. } => frame.0 == id,
        _ => false,
    }
}

// Whether a thread starts by one of some moves.
fn is_started(program: &[Move], id: u64) -> bool
    ensures { result ≡ list_any (starts id) program.now }
{
    program.iter().any(|row| starts(id, row))
}

// Whether a frame is entered by one of some moves.
fn is_entered(program: &[Move], id: u64) -> bool
    ensures { result ≡ list_any (enters id) program.now }
{
    program.iter().any(|row| enters(id, row))
}

/// Whether a world or the moves of its program give an object, an array, a string or a thread.
pub(crate) fn is_given_object(world: &World, program: &[Move], id: ObjectId) -> bool
    ensures { result ≡ is_given_object world.now program.now id }
{
    is_object(world, id) || is_started(program, id.0)
}

/// Whether they give a thread.
pub(crate) fn is_given_thread(world: &World, program: &[Move], thread: ThreadId) -> bool
    ensures { result ≡ is_given_thread world.now program.now thread }
{
    is_thread(world, thread) || is_started(program, thread.0)
}

/// Whether they give a frame.
pub(crate) fn is_given_frame(world: &World, program: &[Move], frame: FrameId) -> bool
    ensures { result ≡ is_given_frame world.now program.now frame }
{
    is_frame(world, frame) || is_entered(program, frame.0)
}

/// Whether an id is that of null or of an object that was given.
pub(crate) fn is_known(world: &World, program: &[Move], id: ObjectId) -> bool
    ensures { result ≡ is_known world.now program.now id }
{
    id.0 == 0 || is_given_object(world, program, id)
}

/// Whether the object of a value, where it has one, is known.
pub(crate) fn is_known_value(world: &World, program: &[Move], value: &Value) -> bool
    ensures { result ≡ is_known_value world.now program.now value.now }
{
    match referred(value) {
        Some(id) => is_known(world, program, id),
        None => true,
    }
}

/// Whether the objects of all values are known.
pub(crate) fn are_known_values(world: &World, program: &[Move], values: &[Value]) -> bool
    ensures { result ≡ list_all (is_known_value world.now program.now) values.now }
{
    values
        .iter()
        .all(|value| is_known_value(world, program, value))
}

/// Whether the objects of the values of all slots are known.
pub(crate) fn are_known_slots(world: &World, program: &[Move], slots: &[SlotValue]) -> bool
    ensures { result ≡ are_known_slots world.now program.now slots.now }
{
    slots
        .iter()
        .all(|row| is_known_value(world, program, &row.value))
}
