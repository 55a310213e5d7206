//! The question that a name and the parts of its line are.
ghost use Rattle.std.specs.Prelude.{◌≡◌, option_and_then, option_map, IfOk};
ghost use Rattle.jdwp_commands.specs.declared.kind.QuestionKind.TheVariants as kinds;
ghost use Rattle.jdwp_commands.specs.declared.question.Question.TheVariants as questions;
ghost use Rattle.line_elements.specs.Numbers.{int_of};
ghost use Rattle.line_elements.specs.Values.{list_of, two_of};
ghost use Rattle.serde_json.specs.View.{items_view};
ghost use Rattle.ask_texts.specs.Parts.{bytes_in, field_in, id_of, nothing_in, only_of, slot_of, three_of};
ghost use Rattle.ask_texts.specs.Questions.{both_in, all_in, one_in, plain_of, question_of, three_in, two_in};

use crate::parts::{bytes, id, int, list, only, three, two};
use jdwp_commands::{Question, QuestionKind};
use jdwp_values::{ClassId, FrameId, MethodId, ObjectId, ThreadId};
use serde_json::Value as Json;
use std::alloc::Global;
use wire_core::NoMemory;

/// The question of a kind, where the elements behind its name are its parts; None exactly where they aren't. `NoMemory`
/// comes where memory is refused.
pub(crate) fn question(
    alloc: Global,
    kind: QuestionKind,
    parts: &[Json],
) -> Result<Option<Question>, NoMemory>
    ensures { IfOk result (λ question. question ≡ question_of kind (items_view parts.now)) }
{
    match kind {
        QuestionKind::ClassesBySignature => classes_by_signature(alloc, parts),
        QuestionKind::GetFields => get_fields(alloc, parts),
        QuestionKind::GetSlots => get_slots(alloc, parts),
        _ => Ok(plain(kind, parts)),
    }
}

fn classes_by_signature(alloc: Global, parts: &[Json]) -> Result<Option<Question>, NoMemory>
    ensures { IfOk result (λ question. question
        ≡ one_in bytes_in questions.ClassesBySignature (items_view parts.now)) }
{
    let Some(signature) = only(parts) else {
        return Ok(None);
    };
    match bytes(alloc, signature)? {
        Some(signature) => Ok(Some(Question::ClassesBySignature(signature))),
        None => Ok(None),
    }
}

fn get_fields(alloc: Global, parts: &[Json]) -> Result<Option<Question>, NoMemory>
    ensures { IfOk result (λ question. question ≡ two_in id_of (list_of field_in)
        (λ object fields. questions.GetFields (record { 0 = object }) fields) (items_view parts.now)) }
{
    let Some((object, fields)) = two(parts) else {
        return Ok(None);
    };
    let Some(object) = id(object) else {
        return Ok(None);
    };
    match list(alloc, fields)? {
        Some(fields) => Ok(Some(Question::GetFields {
            object: ObjectId(object),
            fields,
        })),
        None => Ok(None),
    }
}

fn get_slots(alloc: Global, parts: &[Json]) -> Result<Option<Question>, NoMemory>
    ensures { IfOk result (λ question. question ≡ three_in id_of id_of (list_of slot_of)
        (λ thread frame slots. questions.GetSlots (record { 0 = thread }) (record { 0 = frame }) slots)
        (items_view parts.now)) }
{
    let Some((thread, frame, slots)) = three(parts) else {
        return Ok(None);
    };
    let Some(thread) = id(thread) else {
        return Ok(None);
    };
    let Some(frame) = id(frame) else {
        return Ok(None);
    };
    match list(alloc, slots)? {
        Some(slots) => Ok(Some(Question::GetSlots {
            thread: ThreadId(thread),
            frame: FrameId(frame),
            slots,
        })),
        None => Ok(None),
    }
}

// A question of ids and numbers alone.
fn plain(kind: QuestionKind, parts: &[Json]) -> Option<Question>
    ensures { result ≡ plain_of kind (items_view parts.now) }
{
    match kind {
        QuestionKind::ClassesBySignature => None,
        QuestionKind::AllClasses => alone(Question::AllClasses, parts),
        QuestionKind::AllThreads => alone(Question::AllThreads, parts),
        QuestionKind::IdSizes => alone(Question::IdSizes, parts),
        QuestionKind::Signature => Some(Question::Signature(ClassId(one_id(parts)?))),
        QuestionKind::Fields => Some(Question::Fields(ClassId(one_id(parts)?))),
        QuestionKind::Methods => Some(Question::Methods(ClassId(one_id(parts)?))),
        QuestionKind::SourceFile => Some(Question::SourceFile(ClassId(one_id(parts)?))),
        QuestionKind::Superclass => Some(Question::Superclass(ClassId(one_id(parts)?))),
        QuestionKind::LineTable => line_table(parts),
        QuestionKind::VariableTable => variable_table(parts),
        QuestionKind::ObjectType => Some(Question::ObjectType(ObjectId(one_id(parts)?))),
        QuestionKind::GetFields => None,
        QuestionKind::StringValue => Some(Question::StringValue(ObjectId(one_id(parts)?))),
        QuestionKind::ThreadName => Some(Question::ThreadName(ThreadId(one_id(parts)?))),
        QuestionKind::Frames => frames(parts),
        QuestionKind::FrameCount => Some(Question::FrameCount(ThreadId(one_id(parts)?))),
        QuestionKind::ArrayLength => Some(Question::ArrayLength(ObjectId(one_id(parts)?))),
        QuestionKind::GetElements => get_elements(parts),
        QuestionKind::GetSlots => None,
        QuestionKind::ThisObject => this_object(parts),
    }
}

// A question that has no parts.
#[tactic(auto, using(crate::proofs::PartLaws::nothing_in_many))]
fn alone(question: Question, parts: &[Json]) -> Option<Question>
    ensures { result ≡ nothing_in question (items_view parts.now) }
{
    match parts {
        [] => Some(question),
        _ => None,
    }
}

// The id that is the only part.
fn one_id(parts: &[Json]) -> Option<u64>
    ensures { result ≡ option_and_then id_of (only_of (items_view parts.now)) }
{
    id(only(parts)?)
}

fn line_table(parts: &[Json]) -> Option<Question>
    ensures { result ≡ question_of kinds.LineTable (items_view parts.now) }
{
    let (class, method) = two(parts)?;
    Some(Question::LineTable {
        class: ClassId(id(class)?),
        method: MethodId(id(method)?),
    })
}

fn variable_table(parts: &[Json]) -> Option<Question>
    ensures { result ≡ question_of kinds.VariableTable (items_view parts.now) }
{
    let (class, method) = two(parts)?;
    Some(Question::VariableTable {
        class: ClassId(id(class)?),
        method: MethodId(id(method)?),
    })
}

fn frames(parts: &[Json]) -> Option<Question>
    ensures { result ≡ question_of kinds.Frames (items_view parts.now) }
{
    let (thread, start, length) = three(parts)?;
    Some(Question::Frames {
        thread: ThreadId(id(thread)?),
        start: int(start)?,
        length: int(length)?,
    })
}

fn get_elements(parts: &[Json]) -> Option<Question>
    ensures { result ≡ question_of kinds.GetElements (items_view parts.now) }
{
    let (array, first, length) = three(parts)?;
    Some(Question::GetElements {
        array: ObjectId(id(array)?),
        first: int(first)?,
        length: int(length)?,
    })
}

fn this_object(parts: &[Json]) -> Option<Question>
    ensures { result ≡ question_of kinds.ThisObject (items_view parts.now) }
{
    let (thread, frame) = two(parts)?;
    Some(Question::ThisObject {
        thread: ThreadId(id(thread)?),
        frame: FrameId(id(frame)?),
    })
}
