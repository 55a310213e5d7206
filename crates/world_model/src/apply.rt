//! What a command that changes a target makes of it.
ghost use Rattle.std.specs.Prelude.{◌≡◌, Some, None, OnOk, OnErr, IfOk, MatchResult, nat_abs};
ghost use Rattle.jdwp_commands.specs.declared.answer.Answer.TheVariants as answers;
ghost use Rattle.world_model.specs.Effects.{suspended, resumed, disposed, exited, cleared, with_request, requested};
ghost use Rattle.world_model.specs.Effects.{with_put};
ghost use Rattle.world_model.specs.Effects.{with_element, with_slot, done_with, living, applied};
ghost use Rattle.world_model.specs.Storing.{field_stored, element_stored, slot_stored};

use crate::changes::{
    arrays_with, frames_with, modifier_copies, requests_left, steps_left, steps_with,
};
use crate::codes::VM_DEAD;
use crate::limits::{next_id, once_more};
use crate::requests::{allowed, behind_id};
use crate::rows::Installed;
use crate::steps::start_of;
use crate::storing::{element_stored, field_stored, slot_stored};
use crate::world::World;
use jdwp_commands::{Answer, Effect, Replied};
use jdwp_events::{EventKind, Modifier, Policy};
use jdwp_values::{FieldId, FrameId, ObjectId, ThreadId, Value};
use std::alloc::Global;
use wire_core::{List, NoMemory};

// All threads are suspended once more. It takes no memory: `NoMemory` comes just where that would be 2^64 times.
fn suspend(world: &mut World) -> Result<Replied, NoMemory>
    ensures count { MatchResult result (λ replied. suspended world.old ≡ Some (world.new, replied))
        (λ _. suspended world.old ≡ None) }
    ensures err { OnErr result (world.new ≡ world.old) }
{
    world.count = once_more(world.count)?;
    Ok(Replied::Answer(Answer::Suspend))
}

// And once less, where they were.
fn resume(world: &mut World) -> Replied
    ensures { resumed world.old ≡ Some (world.new, result) }
{
    world.count = world.count.saturating_sub(1);
    Replied::Answer(Answer::Resume)
}

// All requests go, and all suspensions.
fn dispose(alloc: Global, world: &mut World) -> Replied
    ensures { disposed world.old ≡ Some (world.new, result) }
{
    world.requests = List::new(alloc);
    world.steps = List::new(alloc);
    world.count = 0;
    Replied::Answer(Answer::Dispose)
}

// The target ends.
fn exit(world: &mut World) -> Replied
    ensures { exited world.old ≡ Some (world.new, result) }
{
    world.dead = true;
    Replied::Answer(Answer::Exit)
}

// The request of a kind under a number goes, if it is there.
fn clear(alloc: Global, world: &mut World, kind: EventKind, id: u32) -> Result<Replied, NoMemory>
    ensures ok { IfOk result (λ replied. cleared world.old kind id ≡ Some (world.new, replied)) }
    ensures err { OnErr result (world.new ≡ world.old) }
{
    let requests = requests_left(alloc, kind, id, world.requests.as_slice())?;
    let steps = steps_left(alloc, kind, id, world.steps.as_slice())?;
    world.requests = requests;
    world.steps = steps;
    Ok(Replied::Answer(Answer::Clear))
}

// A value is put to a field.
fn set_field(
    world: &mut World,
    object: ObjectId,
    field: FieldId,
    bytes: &[u8],
) -> Result<Replied, NoMemory>
    ensures ok { IfOk result (λ replied. Some (world.new, replied)
        ≡ done_with world.old (with_put world.old) answers.SetField (field_stored world.old object field bytes.now)) }
    ensures err { OnErr result (world.new ≡ world.old) }
{
    match field_stored(world, object, field, bytes) {
        Ok(put) => {
            world.puts.push(put)?;
            Ok(Replied::Answer(Answer::SetField))
        }
        Err(code) => Ok(Replied::Error(code)),
    }
}

// A value is put to an element of an array.
fn set_element(
    alloc: Global,
    world: &mut World,
    array: ObjectId,
    first: i32,
    bytes: &[u8],
) -> Result<Replied, NoMemory>
    ensures ok { IfOk result (λ replied. Some (world.new, replied)
        ≡ done_with world.old (with_element world.old array (nat_abs first)) answers.SetElement
        (element_stored world.old array first bytes.now)) }
    ensures err { OnErr result (world.new ≡ world.old) }
{
    match element_stored(world, array, first, bytes) {
        Ok(value) => {
            let place = first.unsigned_abs() as usize;
            world.arrays = arrays_with(alloc, array, place, value, world.arrays.as_slice())?;
            Ok(Replied::Answer(Answer::SetElement))
        }
        Err(code) => Ok(Replied::Error(code)),
    }
}

// A value is put to a slot of a frame.
fn set_slot(
    alloc: Global,
    world: &mut World,
    thread: ThreadId,
    frame: FrameId,
    slot: i32,
    value: Value,
) -> Result<Replied, NoMemory>
    ensures ok { IfOk result (λ replied. Some (world.new, replied)
        ≡ done_with world.old (with_slot world.old thread frame slot) answers.SetSlot
        (slot_stored world.old thread frame slot value)) }
    ensures err { OnErr result (world.new ≡ world.old) }
{
    match slot_stored(world, thread, frame, slot, value) {
        Ok(value) => {
            let frames = world.frames.as_slice();
            world.frames = frames_with(alloc, thread, frame, slot, value, frames)?;
            Ok(Replied::Answer(Answer::SetSlot))
        }
        Err(code) => Ok(Replied::Error(code)),
    }
}

// A request is installed under a number.
fn install(
    alloc: Global,
    world: &mut World,
    kind: EventKind,
    policy: Policy,
    modifiers: &[Modifier],
    id: u32,
) -> Result<(), NoMemory>
    ensures ok { OnOk result (world.new ≡ with_request world.old kind policy modifiers.now id) }
    ensures err { OnErr result (world.new ≡ world.old) }
{
    let request = Installed {
        request: id,
        wish_kind: kind,
        policy,
        modifiers: modifier_copies(alloc, modifiers)?,
    };
    let steps = steps_with(
        alloc,
        world.steps.as_slice(),
        start_of(world, modifiers, id),
    )?;
    world.requests.push(request)?;
    world.steps = steps;
    world.next_request = behind_id(id);
    Ok(())
}

// A request is installed under the next number that is free.
fn set(
    alloc: Global,
    world: &mut World,
    kind: EventKind,
    policy: Policy,
    modifiers: &[Modifier],
) -> Result<Replied, NoMemory>
    ensures ok { IfOk result (λ replied. requested world.old kind policy modifiers.now ≡ Some (world.new, replied)) }
    ensures err { OnErr result (world.new ≡ world.old) }
{
    if let Err(code) = allowed(world, kind, policy, modifiers) {
        return Ok(Replied::Error(code));
    }
    let id = next_id(world)?;
    install(alloc, world, kind, policy, modifiers, id)?;
    Ok(Replied::Answer(Answer::Set(id)))
}

// What a living target makes of a command.
fn apply_living(alloc: Global, world: &mut World, effect: &Effect) -> Result<Replied, NoMemory>
    ensures ok { IfOk result (λ replied. living world.old effect.now ≡ Some (world.new, replied)) }
    ensures err { OnErr result (world.new ≡ world.old) }
{
    match effect {
        Effect::Dispose => Ok(dispose(alloc, world)),
        Effect::Suspend => suspend(world),
        Effect::Resume => Ok(resume(world)),
        Effect::Exit(_) => Ok(exit(world)),
        Effect::SetField {
            object,
            field,
            value,
        } => set_field(world, *object, *field, value.as_slice()),
        Effect::SetElement {
            array,
            first,
            value,
        } => set_element(alloc, world, *array, *first, value.as_slice()),
        Effect::Set {
            kind,
            policy,
            modifiers,
        } => set(alloc, world, *kind, *policy, modifiers.as_slice()),
        Effect::Clear { kind, request } => clear(alloc, world, *kind, *request),
        Effect::SetSlot {
            thread,
            frame,
            slot,
            value,
        } => set_slot(alloc, world, *thread, *frame, *slot, *value),
    }
}

impl World {
    /// Does what a command says, and answers the reply; a target that has ended does nothing more. `NoMemory` comes
    /// where memory is refused, and where no number is left for the request or the suspension. The world stays as it
    /// was then, and where the reply is an error (JDWP, Detailed Command Information).
    pub fn apply(&mut self, alloc: Global, effect: &Effect) -> Result<Replied, NoMemory>
        ensures ok { IfOk result (λ replied. applied self.old effect.now ≡ Some (self.new, replied)) }
        ensures err { OnErr result (self.new ≡ self.old) }
    {
        if self.dead {
            return Ok(Replied::Error(VM_DEAD));
        }
        apply_living(alloc, self, effect)
    }
}
