//! Effects as they are sent.
ghost use Rattle.std.specs.Int.{bytes_high_first};
ghost use Rattle.std.specs.Prelude.{◌≡◌, ◌≤◌, IfOk};
ghost use Rattle.machine_model.specs.Replying.{wire_deed, wire_effect};
ghost use Rattle.machine_model.specs.Requests.{set_of};
ghost use Rattle.machine_model.specs.Writing.{good_size, untagged_bytes, written_by};

use jdwp_commands::Effect as WireEffect;
use jdwp_values::Value;
use machine_model::{Deed, Effect, Store, Write};
use std::alloc::Global;
use wire_core::{Blob, NoMemory};
use wish_sets::Wish;

// The lowest bytes of a number, the highest of them first.
#[tactic(auto, using(jdwp_values::proofs::Numbers::drop_to_size))]
fn last_bytes(alloc: Global, size: u8, number: u64) -> Result<Blob, NoMemory>
    requires { size ≤ 8 }
    ensures { IfOk result (λ bytes. bytes ≡ bytes_high_first size number) }
{
    let bytes = number.to_be_bytes();
    Blob::from_slice(alloc, &bytes[8 - size as usize..])
}

// So many bytes does an object's id take; a number that is no size stands for 8.
fn good_size(size: u32) -> u8
    ensures size { result ≡ good_size size }
    ensures small { result ≤ 8 }
{
    if size == 0 || size > 8 { 8 } else { size as u8 }
}

// A value without its tag, where an object's id takes so many bytes.
fn untagged_bytes(alloc: Global, size: u8, value: Value) -> Result<Blob, NoMemory>
    requires { size ≤ 8 }
    ensures { IfOk result (λ bytes. bytes ≡ untagged_bytes size value) }
{
    match value {
        Value::Byte(number) => last_bytes(alloc, 1, u64::from(number.cast_unsigned())),
        Value::Char(number) => last_bytes(alloc, 2, u64::from(number)),
        Value::Double(bits) => last_bytes(alloc, 8, bits),
        Value::Float(bits) => last_bytes(alloc, 4, u64::from(bits)),
        Value::Int(number) => last_bytes(alloc, 4, u64::from(number.cast_unsigned())),
        Value::Long(number) => last_bytes(alloc, 8, number.cast_unsigned()),
        Value::Short(number) => last_bytes(alloc, 2, u64::from(number.cast_unsigned())),
        Value::Boolean(byte) => last_bytes(alloc, 1, u64::from(byte)),
        Value::Void => Ok(Blob::new(alloc)),
        Value::Object(object) => last_bytes(alloc, size, object.0),
        Value::Array(object) => last_bytes(alloc, size, object.0),
        Value::String(object) => last_bytes(alloc, size, object.0),
        Value::Thread(object) => last_bytes(alloc, size, object.0),
        Value::ThreadGroup(object) => last_bytes(alloc, size, object.0),
        Value::ClassLoader(object) => last_bytes(alloc, size, object.0),
        Value::ClassObject(object) => last_bytes(alloc, size, object.0),
    }
}

// The command that writes a value (JDWP, StackFrame, ObjectReference and ArrayReference command sets, SetValues).
fn written_by(alloc: Global, write: Write) -> Result<WireEffect, NoMemory>
    ensures { IfOk result (λ effect. effect ≡ written_by write) }
{
    match write.store {
        Store::Slot {
            thread,
            frame,
            slot,
        } => Ok(WireEffect::SetSlot {
            thread,
            frame,
            slot,
            value: write.value,
        }),
        Store::Field { object, field } => Ok(WireEffect::SetField {
            object,
            field,
            value: untagged_bytes(alloc, good_size(write.size), write.value)?,
        }),
        Store::Element { array, index } => Ok(WireEffect::SetElement {
            array,
            first: index,
            value: untagged_bytes(alloc, good_size(write.size), write.value)?,
        }),
    }
}

// What an item does to the target (JDWP, VirtualMachine command set, Suspend, Resume, Dispose and Exit; JDWP, StackFrame,
// ObjectReference and ArrayReference command sets, SetValues).
fn wire_deed(alloc: Global, deed: Deed) -> Result<WireEffect, NoMemory>
    ensures { IfOk result (λ effect. effect ≡ wire_deed deed) }
{
    match deed {
        Deed::Suspend => Ok(WireEffect::Suspend),
        Deed::Resume(_) => Ok(WireEffect::Resume),
        Deed::Dispose => Ok(WireEffect::Dispose),
        Deed::Exit => Ok(WireEffect::Exit(0)),
        Deed::Writes(write) => written_by(alloc, write),
    }
}

// The Set of a wish (JDWP, EventRequest command set, Set).
fn set_of(alloc: Global, wish: &Wish) -> Result<WireEffect, NoMemory>
    ensures { IfOk result (λ effect. effect ≡ set_of wish.now) }
{
    Ok(WireEffect::Set {
        kind: wish.kind(),
        policy: wish.policy(),
        modifiers: wish.modifiers(alloc)?,
    })
}

/// An effect as it is sent. `NoMemory` comes where memory is refused (JDWP, VirtualMachine command set, Suspend,
/// Resume, Dispose and Exit; JDWP, EventRequest command set, Set and Clear; JDWP, StackFrame, ObjectReference and
/// ArrayReference command sets, SetValues).
pub fn wire_effect(alloc: Global, effect: &Effect) -> Result<WireEffect, NoMemory>
    ensures { IfOk result (λ sent. sent ≡ wire_effect effect.now) }
{
    match effect {
        Effect::Does(deed) => wire_deed(alloc, *deed),
        Effect::Set(wish) => set_of(alloc, wish),
        Effect::Clear { wish, request } => Ok(WireEffect::Clear {
            kind: wish.kind(),
            request: *request,
        }),
    }
}
