//! What a move makes of a target's threads, frames, classes and objects.
ghost use Rattle.std.specs.Prelude.{◌≡◌, ◌∷◌, ◌++◌, IfOk, OnOk, OnErr, map, filter, not};
ghost use Rattle.std.specs.Result.{result_unwrap_or};
ghost use Rattle.world_model.specs.declared.moves.Move.TheVariants as moves;
ghost use Rattle.world_model.specs.Moving.{held_slot, is_named, slots_behind, frame_behind, frames_left, class_behind};
ghost use Rattle.world_model.specs.Moving.{threads_left, others_left, entered, prepared, behind};
ghost use Rattle.world_model.specs.Storing.{kept_value};

use crate::changes::is_frame;
use crate::happening::stored;
use crate::moves::Move;
use crate::rows::{WorldClass, WorldFrame, WorldThread};
use crate::steps::innermost;
use crate::storing::kept_value;
use crate::world::World;
use jdwp_values::{ClassId, FieldId, FrameId, MethodId, ObjectId, ThreadId, Value};
use slot_values::SlotValue;
use std::alloc::Global;
use wire_core::{Blob, List, NoMemory};

// A value as it is kept, where what it refers to is there.
fn kept_or_same(world: &World, value: Value) -> Value
    ensures { result ≡ result_unwrap_or (kept_value world.now value) value }
{
    match kept_value(world, value) {
        Ok(kept) => kept,
        Err(_) => value,
    }
}

// A slot with its value as it is kept.
fn held_slot(world: &World, row: &SlotValue) -> SlotValue
    ensures { result ≡ held_slot world.now row.now }
{
    SlotValue {
        slot: row.slot,
        value: kept_or_same(world, row.value),
    }
}

// Whether a slot is named among some.
fn is_named(slots: &[SlotValue], held: &SlotValue) -> bool
    ensures { result ≡ is_named slots.now held.now }
{
    slots.iter().any(|row| row.slot == held.slot)
}

// The slots that are not named.
fn slots_left(
    alloc: Global,
    slots: &[SlotValue],
    held: &[SlotValue],
) -> Result<List<SlotValue>, NoMemory>
    ensures { IfOk result (λ list. list ≡ filter (λ row. not (is_named slots.now row)) held.now) }
{
    let mut list = List::new(alloc);
    for row in held {
        if !is_named(slots, row) {
            list.push(*row)?;
        }
    }
    Ok(list)
}

// Slots with their values as they are kept.
fn held_slots(
    alloc: Global,
    world: &World,
    slots: &[SlotValue],
) -> Result<List<SlotValue>, NoMemory>
    ensures { IfOk result (λ list. list ≡ map (held_slot world.now) slots.now) }
{
    let mut list = List::new(alloc);
    add_slots(&mut list, world, slots)?;
    Ok(list)
}

// Adds slots, with their values as they are kept.
fn add_slots(list: &mut List<SlotValue>, world: &World, slots: &[SlotValue]) -> Result<(), NoMemory>
    ensures { OnOk result (list.new ≡ list.old ++ map (held_slot world.now) slots.now) }
{
    for row in slots {
        list.push(held_slot(world, row))?;
    }
    Ok(())
}

// Slots, of which those that are named get their values.
fn slots_behind(
    alloc: Global,
    world: &World,
    slots: &[SlotValue],
    held: &[SlotValue],
) -> Result<List<SlotValue>, NoMemory>
    ensures { IfOk result (λ list. list ≡ slots_behind world.now slots.now held.now) }
{
    let mut list = slots_left(alloc, slots, held)?;
    add_slots(&mut list, world, slots)?;
    Ok(list)
}

// A copy of a frame.
fn frame_copy(alloc: Global, row: &WorldFrame) -> Result<WorldFrame, NoMemory>
    ensures { IfOk result (λ copy. copy ≡ row.now) }
{
    Ok(WorldFrame {
        thread: row.thread,
        id: row.id,
        class: row.class,
        method: row.method,
        index: row.index,
        this: row.this,
        slots: List::from_slice(alloc, row.slots.as_slice())?,
    })
}

// A copy of a frame, which stands at an index where it is this one.
fn frame_behind(
    alloc: Global,
    world: &World,
    thread: ThreadId,
    top: FrameId,
    index: u64,
    slots: &[SlotValue],
    row: &WorldFrame,
) -> Result<WorldFrame, NoMemory>
    ensures { IfOk result (λ copy. copy ≡ frame_behind world.now thread top index slots.now row.now) }
{
    if !is_frame(thread, top, row) {
        return frame_copy(alloc, row);
    }
    Ok(WorldFrame {
        thread: row.thread,
        id: row.id,
        class: row.class,
        method: row.method,
        index,
        this: row.this,
        slots: slots_behind(alloc, world, slots, row.slots.as_slice())?,
    })
}

// Copies of the frames, of which this one stands at an index.
fn frames_behind(
    alloc: Global,
    world: &World,
    thread: ThreadId,
    top: FrameId,
    index: u64,
    slots: &[SlotValue],
) -> Result<List<WorldFrame>, NoMemory>
    ensures { IfOk result (λ list.
        list ≡ map (frame_behind world.now thread top index slots.now) world.now.frames) }
{
    let mut list = List::new(alloc);
    let rows = world.frames.as_slice();
    for row in rows {
        list.push(frame_behind(alloc, world, thread, top, index, slots, row)?)?;
    }
    Ok(list)
}

// Copies of some frames behind a new one.
fn frames_with(
    alloc: Global,
    frame: WorldFrame,
    frames: &[WorldFrame],
) -> Result<List<WorldFrame>, NoMemory>
    ensures { IfOk result (λ list. list ≡ frame ∷ frames.now) }
{
    let mut list = List::new(alloc);
    list.push(frame)?;
    for row in frames {
        list.push(frame_copy(alloc, row)?)?;
    }
    Ok(list)
}

// Copies of the frames but for this one.
fn frames_left(
    alloc: Global,
    thread: ThreadId,
    top: FrameId,
    frames: &[WorldFrame],
) -> Result<List<WorldFrame>, NoMemory>
    ensures { IfOk result (λ list. list ≡ frames_left thread top frames.now) }
{
    let mut list = List::new(alloc);
    for row in frames {
        if !is_frame(thread, top, row) {
            list.push(frame_copy(alloc, row)?)?;
        }
    }
    Ok(list)
}

// Copies of the frames of all threads but this one.
fn others_left(
    alloc: Global,
    thread: ThreadId,
    frames: &[WorldFrame],
) -> Result<List<WorldFrame>, NoMemory>
    ensures { IfOk result (λ list. list ≡ others_left thread frames.now) }
{
    let mut list = List::new(alloc);
    for row in frames {
        if !(row.thread.0 == thread.0) {
            list.push(frame_copy(alloc, row)?)?;
        }
    }
    Ok(list)
}

// A copy of a thread.
fn thread_copy(alloc: Global, row: &WorldThread) -> Result<WorldThread, NoMemory>
    ensures { IfOk result (λ copy. copy ≡ row.now) }
{
    Ok(WorldThread {
        id: row.id,
        name: Blob::from_slice(alloc, row.name.as_slice())?,
    })
}

// Copies of the threads but this one.
fn threads_left(
    alloc: Global,
    thread: ThreadId,
    threads: &[WorldThread],
) -> Result<List<WorldThread>, NoMemory>
    ensures { IfOk result (λ list. list ≡ threads_left thread threads.now) }
{
    let mut list = List::new(alloc);
    for row in threads {
        if !(row.id.0 == thread.0) {
            list.push(thread_copy(alloc, row)?)?;
        }
    }
    Ok(list)
}

// A copy of the name of a source file.
fn source_copy(alloc: Global, source: &Option<Blob>) -> Result<Option<Blob>, NoMemory>
    ensures { IfOk result (λ copy. copy ≡ source.now) }
{
    match source {
        Some(name) => Ok(Some(Blob::from_slice(alloc, name.as_slice())?)),
        None => Ok(None),
    }
}

// A copy of a class, which is prepared where it is this one.
fn class_behind(alloc: Global, class: ClassId, row: &WorldClass) -> Result<WorldClass, NoMemory>
    ensures { IfOk result (λ copy. copy ≡ class_behind class row.now) }
{
    Ok(WorldClass {
        id: row.id,
        tag: row.tag,
        signature: Blob::from_slice(alloc, row.signature.as_slice())?,
        source: source_copy(alloc, &row.source)?,
        above: row.above,
        prepared: if row.id.0 == class.0 {
            true
        } else {
            row.prepared
        },
    })
}

// Copies of the classes, of which this one is prepared.
fn classes_behind(
    alloc: Global,
    class: ClassId,
    classes: &[WorldClass],
) -> Result<List<WorldClass>, NoMemory>
    ensures { IfOk result (λ list. list ≡ map (class_behind class) classes.now) }
{
    let mut list = List::new(alloc);
    for row in classes {
        list.push(class_behind(alloc, class, row)?)?;
    }
    Ok(list)
}

// The innermost frame stands at an index.
fn go_on(
    alloc: Global,
    world: &mut World,
    thread: ThreadId,
    index: u64,
    slots: &[SlotValue],
) -> Result<(), NoMemory>
    ensures ok { OnOk result (world.new ≡ behind world.old (moves.At thread index slots.now)) }
    ensures err { OnErr result (world.new ≡ world.old) }
{
    let top = match innermost(world, thread) {
        Some(row) => row.id,
        None => return Ok(()),
    };
    world.frames = frames_behind(alloc, world, thread, top, index, slots)?;
    Ok(())
}

// The new frame of a thread that calls a method.
fn new_frame(
    thread: ThreadId,
    frame: FrameId,
    class: ClassId,
    method: MethodId,
    index: u64,
    this: ObjectId,
    slots: List<SlotValue>,
) -> WorldFrame
    ensures { result ≡ record {
      thread = thread;
      id = frame;
      class = class;
      method = method;
      index = index;
      this = this;
      slots = slots;
    } }
{
    WorldFrame {
        thread,
        id: frame,
        class,
        method,
        index,
        this,
        slots,
    }
}

// There is a new innermost frame.
fn enter(alloc: Global, world: &mut World, frame: WorldFrame) -> Result<(), NoMemory>
    ensures ok { OnOk result (world.new ≡ entered world.old frame) }
    ensures err { OnErr result (world.new ≡ world.old) }
{
    world.frames = frames_with(alloc, frame, world.frames.as_slice())?;
    Ok(())
}

// The innermost frame goes.
fn return_from(alloc: Global, world: &mut World, thread: ThreadId) -> Result<(), NoMemory>
    ensures ok { OnOk result (world.new ≡ behind world.old (moves.Return thread)) }
    ensures err { OnErr result (world.new ≡ world.old) }
{
    let top = match innermost(world, thread) {
        Some(row) => row.id,
        None => return Ok(()),
    };
    world.frames = frames_left(alloc, thread, top, world.frames.as_slice())?;
    Ok(())
}

// A class is prepared.
fn prepare(alloc: Global, world: &mut World, class: ClassId) -> Result<(), NoMemory>
    ensures ok { OnOk result (world.new ≡ prepared world.old class) }
    ensures err { OnErr result (world.new ≡ world.old) }
{
    world.classes = classes_behind(alloc, class, world.classes.as_slice())?;
    Ok(())
}

// A thread starts.
fn start(alloc: Global, world: &mut World, thread: ThreadId, name: &[u8]) -> Result<(), NoMemory>
    ensures ok { OnOk result (world.new ≡ behind world.old (moves.Start thread name.now)) }
    ensures err { OnErr result (world.new ≡ world.old) }
{
    let row = WorldThread {
        id: thread,
        name: Blob::from_slice(alloc, name)?,
    };
    world.threads.push(row)
}

// A thread ends, and its frames with it.
fn die(alloc: Global, world: &mut World, thread: ThreadId) -> Result<(), NoMemory>
    ensures ok { OnOk result (world.new ≡ behind world.old (moves.Die thread)) }
    ensures err { OnErr result (world.new ≡ world.old) }
{
    let threads = threads_left(alloc, thread, world.threads.as_slice())?;
    let frames = others_left(alloc, thread, world.frames.as_slice())?;
    world.threads = threads;
    world.frames = frames;
    Ok(())
}

// A field of an object gets a value.
fn store(world: &mut World, object: ObjectId, field: FieldId, value: Value) -> Result<(), NoMemory>
    ensures ok { OnOk result (world.new ≡ behind world.old (moves.Store object field value)) }
    ensures err { OnErr result (world.new ≡ world.old) }
{
    match stored(world, object, field, value) {
        Ok(put) => world.puts.push(put),
        Err(_) => Ok(()),
    }
}

/// Makes what a move that can be made makes of the world.
pub(crate) fn change(alloc: Global, world: &mut World, next: &Move) -> Result<(), NoMemory>
    ensures ok { OnOk result (world.new ≡ behind world.old next.now) }
    ensures err { OnErr result (world.new ≡ world.old) }
{
    match next {
        Move::At {
            thread,
            index,
            slots,
        } => go_on(alloc, world, *thread, *index, slots.as_slice()),
        Move::Call {
            thread,
            frame,
            class,
            method,
            index,
            this,
            slots,
        } => {
            let slots = held_slots(alloc, world, slots.as_slice())?;
            let frame = new_frame(*thread, *frame, *class, *method, *index, *this, slots);
            enter(alloc, world, frame)
        }
        Move::Return(thread) => return_from(alloc, world, *thread),
        Move::Prepare { class, .. } => prepare(alloc, world, *class),
        Move::Throw { .. } => Ok(()),
        Move::Start { thread, name } => start(alloc, world, *thread, name.as_slice()),
        Move::Die(thread) => die(alloc, world, *thread),
        Move::Store {
            object,
            field,
            value,
        } => store(world, *object, *field, *value),
        Move::Death => {
            world.dead = true;
            Ok(())
        }
    }
}
