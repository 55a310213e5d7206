//! What happens in a target as a move is made.
ghost use Rattle.std.specs.Prelude.{◌≡◌, ◌==◌, option_copied};
ghost use Rattle.std.specs.List.{list_all, list_any};
ghost use Rattle.world_model.specs.Happenings.{place_at, stands, running, is_outer, caller_of, frames_outside, fits};
ghost use Rattle.world_model.specs.Happenings.{can_hold, is_new_frame, can_enter, can_begin, is_unprepared};
ghost use Rattle.world_model.specs.Happenings.{is_new_thread, catch_in, value_for, put_for, stored};
ghost use Rattle.world_model.specs.Happenings.{only_if, returns_from, what_happens};
ghost use Rattle.world_model.specs.declared.happening.Happening.TheVariants as happenings;
ghost use Rattle.world_model.specs.declared.moves.Move.TheVariants as moves;
ghost use Rattle.world_model.specs.Objects.{field_of};

use crate::classes::{class_in, method_at, tag_in};
use crate::codes::NOT_IMPLEMENTED;
use crate::fields::field_of;
use crate::found::Found;
use crate::kinds::{kind_in, same_kind};
use crate::moves::Move;
use crate::objects::{is_there, object_at, reference_in, reference_to};
use crate::rows::{Put, WorldFrame, WorldObject};
use crate::steps::{frames_under, innermost, line_at};
use crate::storing::kept_value;
use crate::threads::is_alive;
use crate::world::World;
use jdwp_values::{ClassId, FieldId, FrameId, Location, MethodId, ObjectId, Tag, ThreadId, Value};
use slot_values::SlotValue;

// One more frame than a thread may have: an int has room for their number.
const END: usize = 1 << 31;

/// What happens in the target as a move is made (JDWP, Event command set, Composite).
#[derive(Clone, Copy, Debug, PartialEq, Eq)]
pub(crate) enum Happening {
    /// The thread stands at a place and in its line, with so many frames. It has come there, or come back from a call.
    Stands {
        thread: ThreadId,
        at: Location,
        frames: usize,
        line: Option<i32>,
        comes: bool,
    },
    /// The thread throws an exception, which is caught somewhere or nowhere.
    Throws {
        thread: ThreadId,
        at: Location,
        exception: Value,
        catch: Option<Location>,
    },
    Starts(ThreadId),
    Dies(ThreadId),
    Prepares {
        thread: ThreadId,
        class: ClassId,
    },
    /// A field gets a value, of which no event tells.
    Stores,
    Ends,
}

// A place in a method's code.
fn place_at(world: &World, class: ClassId, method: MethodId, index: u64) -> Location
    ensures { result ≡ place_at world.now class method index }
{
    Location {
        tag: tag_in(world, class),
        class,
        method,
        index,
    }
}

// A thread stands at a place, with so many frames, and has come there or come back.
fn stands(
    world: &World,
    thread: ThreadId,
    class: ClassId,
    method: MethodId,
    index: u64,
    frames: usize,
    comes: bool,
) -> Happening
    ensures { result ≡ stands world.now thread class method index frames comes }
{
    Happening::Stands {
        thread,
        at: place_at(world, class, method, index),
        frames,
        line: line_at(world, class, method, index),
        comes,
    }
}

// The innermost frame of a thread that is alive.
fn running(world: &World, thread: ThreadId) -> Option<&WorldFrame>
    ensures { option_copied result ≡ running world.now thread }
{
    if is_alive(world, thread) {
        innermost(world, thread)
    } else {
        None
    }
}

// The frame that called a thread's innermost one.
fn caller_of(world: &World, thread: ThreadId, top: FrameId) -> Option<&WorldFrame>
    ensures { option_copied result ≡ caller_of world.now thread top }
{
    world
        .frames
        .as_slice()
        .iter()
        .find(|row| row.thread.0 == thread.0 && !(row.id.0 == top.0))
}

// How many frames a thread has beside its innermost one.
fn frames_outside(frames: &[WorldFrame], thread: ThreadId, top: FrameId) -> usize
    ensures { result ≡ frames_outside frames.now thread top }
{
    frames
        .iter()
        .filter(|row| row.thread.0 == thread.0 && !(row.id.0 == top.0))
        .count()
}

// Whether an id takes so many bytes.
fn fits(size: u8, id: u64) -> bool
    ensures { result ≡ fits size id }
{
    match 256u64.checked_pow(u32::from(size)) {
        Some(end) => id < end,
        None => true,
    }
}

// Whether the value of a slot is there.
fn can_hold(world: &World, row: &SlotValue) -> bool
    ensures { result ≡ can_hold world.now row.now }
{
    kept_value(world, row.value).is_ok()
}

// Whether the values of all slots are there.
fn can_hold_all(world: &World, slots: &[SlotValue]) -> bool
    ensures { result ≡ list_all (can_hold world.now) slots.now }
{
    slots.iter().all(|row| can_hold(world, row))
}

// Whether a frame has this id.
fn is_of_frame(frames: &[WorldFrame], frame: FrameId) -> bool
    ensures { result ≡ list_any (λ row. row.id.0 == frame.0) frames.now }
{
    frames.iter().any(|row| row.id.0 == frame.0)
}

// Whether no frame has this id.
fn is_new_frame(world: &World, frame: FrameId) -> bool
    ensures { result ≡ is_new_frame world.now frame }
{
    fits(world.sizes.frame, frame.0) && !is_of_frame(world.frames.as_slice(), frame)
}

// Whether a thread can call a method.
fn can_enter(world: &World, thread: ThreadId, class: ClassId, method: MethodId) -> bool
    ensures { result ≡ can_enter world.now thread class method }
{
    is_alive(world, thread)
        && (frames_under(world.frames.as_slice(), thread) + 1 < END
            && method_at(world, class, method).is_ok())
}

// Whether a new frame can have this id, this object and these slots.
fn can_begin(world: &World, frame: FrameId, this: ObjectId, slots: &[SlotValue]) -> bool
    ensures { result ≡ can_begin world.now frame this slots.now }
{
    is_new_frame(world, frame)
        && (reference_in(world, this).is_some() && can_hold_all(world, slots))
}

// Whether a class is there and not prepared.
fn is_unprepared(world: &World, class: ClassId) -> bool
    ensures { result ≡ is_unprepared world.now class }
{
    match class_in(world, class) {
        Some(row) => !row.prepared,
        None => false,
    }
}

// Whether nothing has this thread's id, and no frame is of it.
fn is_new_thread(world: &World, thread: ThreadId) -> bool
    ensures { result ≡ is_new_thread world.now thread }
{
    (!(thread.0 == 0) && fits(world.sizes.object, thread.0))
        && (!is_there(world, ObjectId(thread.0))
            && frames_under(world.frames.as_slice(), thread) == 0)
}

// Where an exception is caught, or that it is caught nowhere.
fn catch_in(world: &World, class: ClassId, method: MethodId, index: u64) -> Option<Option<Location>>
    ensures { result ≡ catch_in world.now class method index }
{
    if class.0 == 0 && (method.0 == 0 && index == 0) {
        return Some(None);
    }
    if method_at(world, class, method).is_ok() {
        Some(Some(place_at(world, class, method, index)))
    } else {
        None
    }
}

// A value of a field's kind as it is put there.
fn value_for(world: &World, value: Value, kind: Option<Tag>) -> Found<Value>
    ensures { result ≡ value_for world.now value kind }
{
    match kind {
        Some(tag) => {
            if same_kind(tag, value.tag()) {
                kept_value(world, value)
            } else {
                Err(NOT_IMPLEMENTED)
            }
        }
        None => Err(NOT_IMPLEMENTED),
    }
}

// What a move puts to a field that this object may have.
fn put_for(world: &World, object: &WorldObject, field: FieldId, value: Value) -> Found<Put>
    ensures { result ≡ put_for world.now object.now.id field value (field_of world.now object.now.class field) }
{
    let row = match field_of(world, object.class, field) {
        Some(row) => row,
        None => return Err(NOT_IMPLEMENTED),
    };
    match value_for(world, value, kind_in(row.field.signature.as_slice())) {
        Ok(value) => Ok(Put {
            object: object.id,
            field,
            value,
        }),
        Err(code) => Err(code),
    }
}

/// What a move puts to a field of an object.
pub(crate) fn stored(world: &World, id: ObjectId, field: FieldId, value: Value) -> Found<Put>
    ensures { result ≡ stored world.now id field value }
{
    match object_at(world, id) {
        Ok(object) => put_for(world, object, field, value),
        Err(code) => Err(code),
    }
}

// The thread goes on in its innermost frame.
fn goes_on(world: &World, thread: ThreadId, index: u64, slots: &[SlotValue]) -> Option<Happening>
    ensures { result ≡ what_happens world.now (moves.At thread index slots.now) }
{
    if !can_hold_all(world, slots) {
        return None;
    }
    let row = running(world, thread)?;
    let frames = frames_under(world.frames.as_slice(), thread);
    Some(stands(world, thread, row.class, row.method, index, frames, true))
}

// It comes back from a frame, and stands where that was called.
fn returns_from(world: &World, thread: ThreadId, top: &WorldFrame) -> Option<Happening>
    ensures { result ≡ returns_from world.now thread top.now }
{
    match caller_of(world, thread, top.id) {
        None => None,
        Some(row) => {
            let frames = frames_outside(world.frames.as_slice(), thread, top.id);
            Some(stands(
                world, thread, row.class, row.method, row.index, frames, false,
            ))
        }
    }
}

// The thread comes back from its innermost frame.
fn returns(world: &World, thread: ThreadId) -> Option<Happening>
    ensures { result ≡ what_happens world.now (moves.Return thread) }
{
    let top = running(world, thread)?;
    returns_from(world, thread, top)
}

// The thread throws an object.
fn throws(
    world: &World,
    thread: ThreadId,
    object: ObjectId,
    class: ClassId,
    method: MethodId,
    index: u64,
) -> Option<Happening>
    ensures { result ≡ what_happens world.now (moves.Throw thread object class method index) }
{
    let row = running(world, thread)?;
    Some(Happening::Throws {
        thread,
        at: place_at(world, row.class, row.method, row.index),
        exception: reference_to(world, object)?,
        catch: catch_in(world, class, method, index)?,
    })
}

// What happens, if it can.
fn only_if(can: bool, happening: Happening) -> Option<Happening>
    ensures { result ≡ only_if can happening }
{
    if can { Some(happening) } else { None }
}

// The thread calls a method, by a frame of this id.
fn calls(
    world: &World,
    thread: ThreadId,
    frame: FrameId,
    class: ClassId,
    method: MethodId,
    index: u64,
    this: ObjectId,
    slots: &[SlotValue],
) -> Option<Happening>
    ensures { result ≡ what_happens world.now (moves.Call thread frame class method index this slots.now) }
{
    if !can_enter(world, thread, class, method) || !can_begin(world, frame, this, slots) {
        return None;
    }
    let frames = frames_under(world.frames.as_slice(), thread);
    Some(stands(world, thread, class, method, index, frames + 1, true))
}

// The thread prepares a class.
fn prepares(world: &World, class: ClassId, thread: ThreadId) -> Option<Happening>
    ensures { result ≡ what_happens world.now (moves.Prepare class thread) }
{
    let can = is_alive(world, thread) && is_unprepared(world, class);
    only_if(can, Happening::Prepares { thread, class })
}

// A thread starts.
fn starts(world: &World, thread: ThreadId) -> Option<Happening>
    ensures { result ≡ only_if (is_new_thread world.now thread) (happenings.Starts thread) }
{
    only_if(is_new_thread(world, thread), Happening::Starts(thread))
}

// A thread ends.
fn dies(world: &World, thread: ThreadId) -> Option<Happening>
    ensures { result ≡ what_happens world.now (moves.Die thread) }
{
    only_if(is_alive(world, thread), Happening::Dies(thread))
}

// A field of an object gets a value.
fn stores(world: &World, object: ObjectId, field: FieldId, value: Value) -> Option<Happening>
    ensures { result ≡ what_happens world.now (moves.Store object field value) }
{
    let can = stored(world, object, field, value).is_ok();
    only_if(can, Happening::Stores)
}

/// What happens by a move, where it can be made.
pub(crate) fn what_happens(world: &World, next: &Move) -> Option<Happening>
    ensures { result ≡ what_happens world.now next.now }
{
    match next {
        Move::At {
            thread,
            index,
            slots,
        } => goes_on(world, *thread, *index, slots.as_slice()),
        Move::Call {
            thread,
            frame,
            class,
            method,
            index,
            this,
            slots,
        } => {
            let rows = slots.as_slice();
            calls(world, *thread, *frame, *class, *method, *index, *this, rows)
        }
        Move::Return(thread) => returns(world, *thread),
        Move::Prepare { class, thread } => prepares(world, *class, *thread),
        Move::Throw {
            thread,
            object,
            class,
            method,
            index,
        } => throws(world, *thread, *object, *class, *method, *index),
        Move::Start { thread, .. } => starts(world, *thread),
        Move::Die(thread) => dies(world, *thread),
        Move::Store {
            object,
            field,
            value,
        } => stores(world, *object, *field, *value),
        Move::Death => Some(Happening::Ends),
    }
}
