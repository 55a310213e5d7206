//! What was answered to questions for values.
ghost use Rattle.std.specs.Prelude.{◌≡◌, ◌<◌, ◌≤◌, ◌^◌, ◌+◌, ◌∷◌, [], pos, IfOk, MatchResult, OnOk, Some};
ghost use Rattle.machine_model.specs.Plans.{asking, need};
ghost use Rattle.machine_model.specs.Variables.{elements_plan, field_values, slots_plan, values_in};
ghost use Rattle.machine_model.specs.declared.acts.Want.{Want};
ghost use Rattle.look_ups.specs.Needs.{need_with, seen_by};

use crate::need::Need;
use crate::sight::{Sight, must_hear};
use jdwp_commands::{Answer, Question, Slot};
use jdwp_values::{FieldId, ObjectId, Value};
use std::alloc::Global;
use stop_refs::FrameThing;
use wire_core::{List, NoMemory};

// The greatest int.
const LAST_INT: u32 = 2147483647;

// The values in an answer (JDWP, StackFrame, ObjectReference and ArrayReference command sets, GetValues).
fn values_in(answer: &Answer) -> &[Value]
    ensures { result.now ≡ values_in (Some answer.now) }
{
    match answer {
        Answer::GetSlots(found) => found.as_slice(),
        Answer::GetFields(found) => found.as_slice(),
        Answer::GetElements(region) => region.values.as_slice(),
        _ => &[],
    }
}

// What was answered to a question for values.
#[tactic(auto, unfolding(machine_model::specs::Plans::need))]
fn values_heard<'a>(
    alloc: Global,
    sight: Sight<'a>,
    question: Question,
) -> Result<Need<&'a [Value]>, NoMemory>
    ensures { IfOk result (λ found. need_with (λ values. values.now) found
        ≡ need (seen_by sight.entry) (asking values_in (Want.Must question))) }
{
    match must_hear(alloc, sight.asked, question)? {
        Need::Has(answer) => Ok(Need::Has(values_in(answer))),
        Need::Fails { place, code } => Ok(Need::Fails { place, code }),
        Need::Lacks { first, others } => Ok(Need::Lacks { first, others }),
    }
}

/// The values of slots of a frame in their order, by what was replied; of no slots nothing is asked. `NoMemory` comes
/// where memory is refused (JDWP, StackFrame command set, GetValues).
#[tactic(auto, unfolding(machine_model::specs::Plans::need))]
pub fn slots_heard<'a>(
    alloc: Global,
    sight: Sight<'a>,
    frame: FrameThing,
    slots: List<Slot>,
) -> Result<Need<&'a [Value]>, NoMemory>
    ensures { IfOk result (λ found. need_with (λ values. values.now) found
        ≡ need (seen_by sight.entry) (slots_plan frame slots)) }
{
    if slots.is_empty() {
        return Ok(Need::Has(&[]));
    }
    values_heard(
        alloc,
        sight,
        Question::GetSlots {
            thread: frame.thread,
            frame: frame.frame,
            slots,
        },
    )
}

/// The values of fields of the object of an id in their order, by what was replied; of no fields nothing is asked.
/// `NoMemory` comes where memory is refused (JDWP, ObjectReference command set, GetValues).
#[tactic(auto, unfolding(machine_model::specs::Plans::need))]
pub fn fields_heard<'a>(
    alloc: Global,
    sight: Sight<'a>,
    object: u64,
    fields: List<FieldId>,
) -> Result<Need<&'a [Value]>, NoMemory>
    ensures { IfOk result (λ found. need_with (λ values. values.now) found
        ≡ need (seen_by sight.entry) (field_values object fields)) }
{
    if fields.is_empty() {
        return Ok(Need::Has(&[]));
    }
    values_heard(
        alloc,
        sight,
        Question::GetFields {
            object: ObjectId(object),
            fields,
        },
    )
}

/// A number as an int. It takes no memory: `NoMemory` comes just for a number of 2^31 or more, which is no int, and
/// which no target tells or takes (JDWP, ArrayReference command set, GetValues).
pub fn as_int(number: u32) -> Result<i32, NoMemory>
    ensures { MatchResult result (λ int. (int ≡ pos number) × (number < 2 ^ 31)) (λ _. 2 ^ 31 ≤ number) }
{
    if number > LAST_INT {
        return Err(NoMemory);
    }
    Ok(number as i32)
}

/// The values of so many elements of the array of an id, from an index on, by what was replied; of no elements
/// nothing is asked. `NoMemory` comes where memory is refused, and for a number of 2^31 or more: so an element that is
/// asked for has an index (JDWP, ArrayReference command set, GetValues).
#[tactic(auto, unfolding(machine_model::specs::Plans::need))]
pub fn elements_heard<'a>(
    alloc: Global,
    sight: Sight<'a>,
    array: u64,
    start: u32,
    count: u32,
) -> Result<Need<&'a [Value]>, NoMemory>
    ensures found { IfOk result (λ found. need_with (λ values. values.now) found
        ≡ need (seen_by sight.entry) (elements_plan array start count)) }
    ensures indices { OnOk result (start + count < 2 ^ 32) }
{
    if count == 0 {
        return Ok(Need::Has(&[]));
    }
    values_heard(
        alloc,
        sight,
        Question::GetElements {
            array: ObjectId(array),
            first: as_int(start)?,
            length: as_int(count)?,
        },
    )
}
