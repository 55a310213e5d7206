//! Copies of parts of a world, with what a command changes.
ghost use Rattle.std.specs.Prelude.{◌≡◌, ◌++◌, IfOk, map, set, option_to_list};
ghost use Rattle.world_model.specs.Effects.{same_event, requests_left, steps_left, array_with, slot_with, is_frame};
ghost use Rattle.world_model.specs.Effects.{frame_with};

use crate::rows::{Installed, StepStart, WorldArray, WorldFrame};
use jdwp_events::{EventKind, Modifier};
use jdwp_values::{FrameId, ObjectId, ThreadId, Value};
use slot_values::SlotValue;
use std::alloc::Global;
use wire_core::{Blob, List, NoMemory};

// A copy of a modifier.
fn modifier_copy(alloc: Global, modifier: &Modifier) -> Result<Modifier, NoMemory>
    ensures { IfOk result (λ copy. copy ≡ modifier.now) }
{
    match modifier {
        Modifier::Count(count) => Ok(Modifier::Count(*count)),
        Modifier::ThreadOnly(thread) => Ok(Modifier::ThreadOnly(*thread)),
        Modifier::ClassOnly(class) => Ok(Modifier::ClassOnly(*class)),
        Modifier::ClassMatch(pattern) => Ok(Modifier::ClassMatch(Blob::from_slice(
            alloc,
            pattern.as_slice(),
        )?)),
        Modifier::ClassExclude(pattern) => Ok(Modifier::ClassExclude(Blob::from_slice(
            alloc,
            pattern.as_slice(),
        )?)),
        Modifier::LocationOnly(at) => Ok(Modifier::LocationOnly(*at)),
        Modifier::ExceptionOnly {
            class,
            caught,
            uncaught,
        } => Ok(Modifier::ExceptionOnly {
            class: *class,
            caught: *caught,
            uncaught: *uncaught,
        }),
        Modifier::Step {
            thread,
            size,
            depth,
        } => Ok(Modifier::Step {
            thread: *thread,
            size: *size,
            depth: *depth,
        }),
    }
}

/// Copies of modifiers.
pub(crate) fn modifier_copies(
    alloc: Global,
    modifiers: &[Modifier],
) -> Result<List<Modifier>, NoMemory>
    ensures { IfOk result (λ copies. copies ≡ modifiers.now) }
{
    let mut copies = List::new(alloc);
    for modifier in modifiers {
        copies.push(modifier_copy(alloc, modifier)?)?;
    }
    Ok(copies)
}

// A copy of a request.
fn request_copy(alloc: Global, row: &Installed) -> Result<Installed, NoMemory>
    ensures { IfOk result (λ copy. copy ≡ row.now) }
{
    Ok(Installed {
        request: row.request,
        wish_kind: row.wish_kind,
        policy: row.policy,
        modifiers: modifier_copies(alloc, row.modifiers.as_slice())?,
    })
}

/// Whether two kinds are one.
pub(crate) fn same_event(a: EventKind, b: EventKind) -> bool
    ensures { result ≡ same_event a b }
{
    a.byte() == b.byte()
}

/// Copies of the requests but for that of a kind under a number.
pub(crate) fn requests_left(
    alloc: Global,
    kind: EventKind,
    id: u32,
    requests: &[Installed],
) -> Result<List<Installed>, NoMemory>
    ensures { IfOk result (λ left. left ≡ requests_left kind id requests.now) }
{
    let mut left = List::new(alloc);
    for row in requests {
        if !(row.request == id && same_event(row.wish_kind, kind)) {
            left.push(request_copy(alloc, row)?)?;
        }
    }
    Ok(left)
}

/// The same of the starts of steps.
pub(crate) fn steps_left(
    alloc: Global,
    kind: EventKind,
    id: u32,
    steps: &[StepStart],
) -> Result<List<StepStart>, NoMemory>
    ensures { IfOk result (λ left. left ≡ steps_left kind id steps.now) }
{
    let mut left = List::new(alloc);
    for row in steps {
        if !(row.request == id && same_event(EventKind::SingleStep, kind)) {
            left.push(*row)?;
        }
    }
    Ok(left)
}

// Values with another one at a place.
fn values_with(
    alloc: Global,
    values: &[Value],
    place: usize,
    value: Value,
) -> Result<List<Value>, NoMemory>
    ensures { IfOk result (λ list. list ≡ set values.now place value) }
{
    let mut list = Vec::from_slice(alloc, values)?;
    if place < list.len() {
        list[place] = value;
    }
    Ok(List::from_vec(list))
}

// A copy of an array; where it is this one, with a value at a place.
fn array_with(
    alloc: Global,
    id: ObjectId,
    place: usize,
    value: Value,
    row: &WorldArray,
) -> Result<WorldArray, NoMemory>
    ensures { IfOk result (λ copy. copy ≡ array_with id place value row.now) }
{
    let values = row.values.as_slice();
    Ok(WorldArray {
        id: row.id,
        class: row.class,
        values: if row.id.0 == id.0 {
            values_with(alloc, values, place, value)?
        } else {
            List::from_slice(alloc, values)?
        },
    })
}

/// Copies of the arrays, this one with a value at a place.
pub(crate) fn arrays_with(
    alloc: Global,
    id: ObjectId,
    place: usize,
    value: Value,
    arrays: &[WorldArray],
) -> Result<List<WorldArray>, NoMemory>
    ensures { IfOk result (λ copies. copies ≡ map (array_with id place value) arrays.now) }
{
    let mut copies = List::new(alloc);
    for row in arrays {
        copies.push(array_with(alloc, id, place, value, row)?)?;
    }
    Ok(copies)
}

// A slot; where it is this one, with a value.
fn slot_with(slot: i32, value: Value, row: &SlotValue) -> SlotValue
    ensures { result ≡ slot_with slot value row.now }
{
    if row.slot == slot {
        SlotValue { slot, value }
    } else {
        *row
    }
}

// Slots, this one with a value.
fn slots_with(
    alloc: Global,
    slot: i32,
    value: Value,
    slots: &[SlotValue],
) -> Result<List<SlotValue>, NoMemory>
    ensures { IfOk result (λ list. list ≡ map (slot_with slot value) slots.now) }
{
    let mut list = List::new(alloc);
    for row in slots {
        list.push(slot_with(slot, value, row))?;
    }
    Ok(list)
}

/// Whether a frame is that of a thread with an id.
pub(crate) fn is_frame(thread: ThreadId, frame: FrameId, row: &WorldFrame) -> bool
    ensures { result ≡ is_frame thread frame row.now }
{
    row.thread.0 == thread.0 && row.id.0 == frame.0
}

// A copy of a frame; where it is this one, with a value in a slot.
fn frame_with(
    alloc: Global,
    thread: ThreadId,
    frame: FrameId,
    slot: i32,
    value: Value,
    row: &WorldFrame,
) -> Result<WorldFrame, NoMemory>
    ensures { IfOk result (λ copy. copy ≡ frame_with thread frame slot value row.now) }
{
    let slots = row.slots.as_slice();
    Ok(WorldFrame {
        thread: row.thread,
        id: row.id,
        class: row.class,
        method: row.method,
        index: row.index,
        this: row.this,
        slots: if is_frame(thread, frame, row) {
            slots_with(alloc, slot, value, slots)?
        } else {
            List::from_slice(alloc, slots)?
        },
    })
}

/// Copies of the frames, this one with a value in a slot.
pub(crate) fn frames_with(
    alloc: Global,
    thread: ThreadId,
    frame: FrameId,
    slot: i32,
    value: Value,
    frames: &[WorldFrame],
) -> Result<List<WorldFrame>, NoMemory>
    ensures { IfOk result (λ copies. copies ≡ map (frame_with thread frame slot value) frames.now) }
{
    let mut copies = List::new(alloc);
    for row in frames {
        copies.push(frame_with(alloc, thread, frame, slot, value, row)?)?;
    }
    Ok(copies)
}

/// The starts of steps, with another one behind them, where there is one.
pub(crate) fn steps_with(
    alloc: Global,
    steps: &[StepStart],
    start: Option<StepStart>,
) -> Result<List<StepStart>, NoMemory>
    ensures { IfOk result (λ list. list ≡ steps.now ++ option_to_list start) }
{
    let mut list = List::from_slice(alloc, steps)?;
    if let Some(start) = start {
        list.push(start)?;
    }
    Ok(list)
}
