//! What a world says of its threads and their frames.
ghost use Rattle.std.specs.Prelude.{◌≡◌, option_copied, IfOk, map, ok_or, option_map, Ok, Err};
ghost use Rattle.std.specs.Result.{result_map_both};
ghost use Rattle.world_model.specs.Codes.{not_implemented};
ghost use Rattle.world_model.specs.Scans.{all_of};
ghost use Rattle.world_model.specs.Threads.{thread_in, is_alive, name_in, may_ask, shown_frame, frames_of, at_most};
ghost use Rattle.world_model.specs.Threads.{frames_from, counted, frame_in, frame_at, slot_in, slot_value};

use crate::classes::tag_in;
use crate::codes::{INVALID_THREAD, NOT_IMPLEMENTED};
use crate::kinds::is_of_byte;
use crate::rows::{WorldFrame, WorldThread};
use crate::world::World;
use jdwp_commands::{Frame, Slot};
use jdwp_values::{FrameId, Location, ThreadId, Value};
use slot_values::SlotValue;
use std::alloc::Global;
use wire_core::{List, NoMemory};

// The number of things that an int has no room for.
const END: usize = 2147483648;

/// The thread with an id, while it is alive.
pub(crate) fn thread_in(world: &World, thread: ThreadId) -> Option<&WorldThread>
    ensures { option_copied result ≡ thread_in world.now thread }
{
    world
        .threads
        .as_slice()
        .iter()
        .find(|row| row.id.0 == thread.0)
}

/// Whether a thread is alive.
pub(crate) fn is_alive(world: &World, thread: ThreadId) -> bool
    ensures { result ≡ is_alive world.now thread }
{
    thread_in(world, thread).is_some()
}

/// All threads (JDWP, VirtualMachine command set, AllThreads).
pub(crate) fn all_threads(alloc: Global, world: &World) -> Result<List<ThreadId>, NoMemory>
    ensures { IfOk result (λ threads. threads ≡ map (λ row. row.id) world.now.threads) }
{
    let mut threads = List::new(alloc);
    let rows = world.threads.as_slice();
    for row in rows {
        threads.push(row.id)?;
    }
    Ok(threads)
}

/// The name of a thread (JDWP, ThreadReference command set, Name).
pub(crate) fn name_in(world: &World, thread: ThreadId) -> Result<&[u8], u16>
    ensures { result_map_both (λ name. name.now) (λ code. code) result ≡ name_in world.now thread }
{
    match thread_in(world, thread) {
        Some(row) => Ok(row.name.as_slice()),
        None => Err(INVALID_THREAD),
    }
}

/// Frames may be asked of a thread that is alive, and only while it is suspended.
pub(crate) fn may_ask(world: &World, thread: ThreadId) -> Result<(), u16>
    ensures { result ≡ may_ask world.now thread }
{
    if !is_alive(world, thread) {
        Err(INVALID_THREAD)
    } else if world.count == 0 {
        Err(NOT_IMPLEMENTED)
    } else {
        Ok(())
    }
}

// A frame and where it stands.
fn shown_frame(world: &World, row: &WorldFrame) -> Frame
    ensures { result ≡ shown_frame world.now row.now }
{
    Frame {
        id: row.id,
        at: Location {
            tag: tag_in(world, row.class),
            class: row.class,
            method: row.method,
            index: row.index,
        },
    }
}

/// The frames of a thread, the innermost first.
pub(crate) fn frames_of(
    alloc: Global,
    world: &World,
    thread: ThreadId,
) -> Result<List<Frame>, NoMemory>
    ensures { IfOk result (λ frames. frames ≡ frames_of world.now thread) }
{
    let mut frames = List::new(alloc);
    let rows = world.frames.as_slice();
    for row in rows {
        if row.thread.0 == thread.0 {
            frames.push(shown_frame(world, row))?;
        }
    }
    Ok(frames)
}

// At most so many of them; all where the number is -1.
fn at_most(n: i32, frames: &[Frame]) -> &[Frame]
    ensures { result.now ≡ at_most n frames.now }
{
    if n < 0 || n as usize >= frames.len() {
        frames
    } else {
        &frames[..n as usize]
    }
}

/// From a start on, which may stand right behind the last one.
pub(crate) fn frames_from(frames: &[Frame], start: i32, n: i32) -> Option<&[Frame]>
    ensures { option_copied result ≡ frames_from frames.now start n }
{
    if start < 0 || n < -1 || frames.len() < start as usize {
        return None;
    }
    Some(at_most(n, &frames[start as usize..]))
}

/// A number that an int has room for.
pub(crate) fn counted(n: usize) -> Result<u32, u16>
    ensures { result ≡ counted n }
{
    if n < END {
        Ok(n as u32)
    } else {
        Err(NOT_IMPLEMENTED)
    }
}

/// The frame of a thread with an id, if it is there.
pub(crate) fn frame_in(world: &World, thread: ThreadId, frame: FrameId) -> Option<&WorldFrame>
    ensures { option_copied result ≡ frame_in world.now thread frame }
{
    world
        .frames
        .as_slice()
        .iter()
        .find(|row| row.thread.0 == thread.0 && row.id.0 == frame.0)
}

/// The same, or why nothing is said of it.
pub(crate) fn frame_at(world: &World, thread: ThreadId, frame: FrameId) -> Result<&WorldFrame, u16>
    ensures { result_map_both (λ row. row.now) (λ code. code) result ≡ frame_at world.now thread frame }
{
    may_ask(world, thread)?;
    match frame_in(world, thread, frame) {
        Some(row) => Ok(row),
        None => Err(NOT_IMPLEMENTED),
    }
}

/// The value that a slot has.
pub(crate) fn slot_in(slots: &[SlotValue], slot: i32) -> Option<Value>
    ensures { result ≡ slot_in slots.now slot }
{
    let mut found = None;
    for row in slots {
        if row.slot == slot {
            found = Some(row.value);
        }
    }
    found
}

// The value that is asked for.
fn slot_value(slots: &[SlotValue], asked: &Slot) -> Option<Value>
    ensures { result ≡ slot_value slots.now asked.now }
{
    let value = slot_in(slots, asked.slot)?;
    if is_of_byte(asked.tag, &value) {
        Some(value)
    } else {
        None
    }
}

/// The values of some slots, where all are there.
pub(crate) fn slot_values(
    alloc: Global,
    slots: &[SlotValue],
    asked: &[Slot],
) -> Result<Option<List<Value>>, NoMemory>
    ensures { IfOk result (λ values. values ≡ all_of (slot_value slots.now) asked.now) }
{
    let mut values = List::new(alloc);
    for slot in asked {
        let Some(value) = slot_value(slots, slot) else {
            return Ok(None);
        };
        values.push(value)?;
    }
    Ok(Some(values))
}
