//! What is heard of an object: its class and that class's signature, an array's length, a string's text.
ghost use Rattle.std.specs.Prelude.{◌≡◌, Some, IfOk, option_copied, option_map};
ghost use Rattle.class_tables.specs.Lookups.{found_in};
ghost use Rattle.machine_model.specs.Facts.{signature_in};
ghost use Rattle.machine_model.specs.Frames.{signature_plan};
ghost use Rattle.machine_model.specs.Plans.{answer_in, need};
ghost use Rattle.machine_model.specs.Values.{class_in, class_plan, length_in, length_plan, text_in, text_plan};
ghost use Rattle.machine_model.specs.Values.{type_plan};
ghost use Rattle.look_ups.specs.Needs.{need_of, seen_by};

use crate::need::Need;
use crate::sight::{Sight, fact_replied, must_hear};
use class_tables::Classes;
use jdwp_commands::{Answer, Question, Replied};
use jdwp_values::{ClassId, ObjectId};
use std::alloc::Global;
use wire_core::{Blob, NoMemory};

// The class in an answer (JDWP, ObjectReference command set, ReferenceType).
fn class_in(answer: &Answer) -> ClassId
    ensures { result ≡ class_in (Some answer.now) }
{
    match answer {
        Answer::ObjectType { class, .. } => *class,
        _ => ClassId(0),
    }
}

// The length in an answer (JDWP, ArrayReference command set, Length).
fn length_in(answer: &Answer) -> u32
    ensures { result ≡ length_in (Some answer.now) }
{
    match answer {
        Answer::ArrayLength(count) => *count,
        _ => 0,
    }
}

// The text in an answer (JDWP, StringReference command set, Value).
fn text_in(answer: &Answer) -> &[u8]
    ensures { result.now ≡ text_in (Some answer.now) }
{
    match answer {
        Answer::StringValue(text) => text.as_slice(),
        _ => &[],
    }
}

// The signature of a class in a reply (JDWP, ReferenceType command set, Signature).
fn signature_in(replied: &Replied) -> &[u8]
    ensures { result.now ≡ signature_in (answer_in replied.now) }
{
    match replied {
        Replied::Answer(Answer::Signature(signature)) => signature.as_slice(),
        _ => &[],
    }
}

// The signature of a class, where it was learnt.
fn known_signature(classes: &Classes, class: ClassId) -> Option<&[u8]>
    ensures { option_copied result ≡ option_map (λ loaded. loaded.signature) ((found_in classes.now).loaded class) }
{
    Some(classes.class(class)?.signature?.as_slice())
}

/// The class of the object of an id, by what was replied. `NoMemory` comes where memory is refused (JDWP,
/// ObjectReference command set, ReferenceType).
#[tactic(auto, unfolding(machine_model::specs::Plans::need))]
pub fn class_need(alloc: Global, sight: Sight<'_>, id: u64) -> Result<Need<ClassId>, NoMemory>
    ensures { IfOk result (λ found. need_of found ≡ need (seen_by sight.entry) (class_plan id)) }
{
    match must_hear(alloc, sight.asked, Question::ObjectType(ObjectId(id)))? {
        Need::Has(answer) => Ok(Need::Has(class_in(answer))),
        Need::Fails { place, code } => Ok(Need::Fails { place, code }),
        Need::Lacks { first, others } => Ok(Need::Lacks { first, others }),
    }
}

/// How many elements the array of an id has, by what was replied. `NoMemory` comes where memory is refused (JDWP,
/// ArrayReference command set, Length).
#[tactic(auto, unfolding(machine_model::specs::Plans::need))]
pub fn length_need(alloc: Global, sight: Sight<'_>, id: u64) -> Result<Need<u32>, NoMemory>
    ensures { IfOk result (λ found. need_of found ≡ need (seen_by sight.entry) (length_plan id)) }
{
    match must_hear(alloc, sight.asked, Question::ArrayLength(ObjectId(id)))? {
        Need::Has(answer) => Ok(Need::Has(length_in(answer))),
        Need::Fails { place, code } => Ok(Need::Fails { place, code }),
        Need::Lacks { first, others } => Ok(Need::Lacks { first, others }),
    }
}

/// The text of the string of an id as the target's bytes, by what was replied. `NoMemory` comes where memory is refused
/// (JDWP, StringReference command set, Value).
#[tactic(auto, unfolding(machine_model::specs::Plans::need))]
pub fn text_need(alloc: Global, sight: Sight<'_>, id: u64) -> Result<Need<Blob>, NoMemory>
    ensures { IfOk result (λ found. need_of found ≡ need (seen_by sight.entry) (text_plan id)) }
{
    match must_hear(alloc, sight.asked, Question::StringValue(ObjectId(id)))? {
        Need::Has(answer) => Ok(Need::Has(Blob::from_slice(alloc, text_in(answer))?)),
        Need::Fails { place, code } => Ok(Need::Fails { place, code }),
        Need::Lacks { first, others } => Ok(Need::Lacks { first, others }),
    }
}

/// The signature of a class as the target's bytes, by what was learnt and replied. `NoMemory` comes where memory is
/// refused (JDWP, ReferenceType command set, Signature).
#[tactic(auto, unfolding(machine_model::specs::Plans::need))]
pub fn signature_need(
    alloc: Global,
    sight: Sight<'_>,
    class: ClassId,
) -> Result<Need<Blob>, NoMemory>
    ensures { IfOk result (λ found. need_of found ≡ need (seen_by sight.entry) (signature_plan class)) }
{
    if let Some(signature) = known_signature(sight.classes, class) {
        return Ok(Need::Has(Blob::from_slice(alloc, signature)?));
    }
    match fact_replied(alloc, sight.asked, Question::Signature(class))? {
        Need::Has(replied) => Ok(Need::Has(Blob::from_slice(alloc, signature_in(replied))?)),
        Need::Fails { place, code } => Ok(Need::Fails { place, code }),
        Need::Lacks { first, others } => Ok(Need::Lacks { first, others }),
    }
}

/// The signature of the class of the object of an id as the target's bytes, by what was learnt and replied. `NoMemory`
/// comes where memory is refused (JDWP, ObjectReference command set, ReferenceType; JDWP, ReferenceType command set,
/// Signature).
#[tactic(auto, using(machine_model::proofs::PlanIds::need_chained))]
pub fn type_need(alloc: Global, sight: Sight<'_>, id: u64) -> Result<Need<Blob>, NoMemory>
    ensures { IfOk result (λ found. need_of found ≡ need (seen_by sight.entry) (type_plan id)) }
{
    match class_need(alloc, sight, id)? {
        Need::Has(class) => signature_need(alloc, sight, class),
        Need::Fails { place, code } => Ok(Need::Fails { place, code }),
        Need::Lacks { first, others } => Ok(Need::Lacks { first, others }),
    }
}
