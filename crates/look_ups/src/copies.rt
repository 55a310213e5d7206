//! Copies of questions, which are sent and kept.
ghost use Rattle.std.specs.Prelude.{◌≡◌, IfOk};
ghost use Rattle.jdwp_commands.specs.declared.question.Question.TheVariants as questions;

use jdwp_commands::{Question, Slot};
use jdwp_values::{ClassId, FieldId, FrameId, MethodId, ObjectId, ThreadId};
use std::alloc::Global;
use wire_core::{List, NoMemory};

fn signature_copy(alloc: Global, signature: &[u8]) -> Result<Question, NoMemory>
    ensures { IfOk result (λ copy. copy ≡ questions.ClassesBySignature signature.now) }
{
    Ok(Question::ClassesBySignature(List::from_slice(alloc, signature)?))
}

fn fields_copy(alloc: Global, object: ObjectId, fields: &[FieldId]) -> Result<Question, NoMemory>
    ensures { IfOk result (λ copy. copy ≡ questions.GetFields object fields.now) }
{
    let fields = List::from_slice(alloc, fields)?;
    Ok(Question::GetFields { object, fields })
}

fn slots_copy(
    alloc: Global,
    thread: ThreadId,
    frame: FrameId,
    slots: &[Slot],
) -> Result<Question, NoMemory>
    ensures { IfOk result (λ copy. copy ≡ questions.GetSlots thread frame slots.now) }
{
    Ok(Question::GetSlots {
        thread,
        frame,
        slots: List::from_slice(alloc, slots)?,
    })
}

fn lines_question(class: ClassId, method: MethodId) -> Question
    ensures { result ≡ questions.LineTable class method }
{
    Question::LineTable { class, method }
}

fn variables_question(class: ClassId, method: MethodId) -> Question
    ensures { result ≡ questions.VariableTable class method }
{
    Question::VariableTable { class, method }
}

fn frames_question(thread: ThreadId, start: i32, length: i32) -> Question
    ensures { result ≡ questions.Frames thread start length }
{
    Question::Frames {
        thread,
        start,
        length,
    }
}

fn elements_question(array: ObjectId, first: i32, length: i32) -> Question
    ensures { result ≡ questions.GetElements array first length }
{
    Question::GetElements {
        array,
        first,
        length,
    }
}

fn this_question(thread: ThreadId, frame: FrameId) -> Question
    ensures { result ≡ questions.ThisObject thread frame }
{
    Question::ThisObject { thread, frame }
}

/// A copy of a question, equal to it in each part. `NoMemory` comes where memory is refused (JDWP, JDWP Packets,
/// command packet).
pub fn question_copy(alloc: Global, question: &Question) -> Result<Question, NoMemory>
    ensures { IfOk result (λ copy. copy ≡ question.now) }
{
    match question {
        Question::ClassesBySignature(signature) => signature_copy(alloc, signature.as_slice()),
        Question::AllClasses => Ok(Question::AllClasses),
        Question::AllThreads => Ok(Question::AllThreads),
        Question::IdSizes => Ok(Question::IdSizes),
        Question::Signature(class) => Ok(Question::Signature(*class)),
        Question::Fields(class) => Ok(Question::Fields(*class)),
        Question::Methods(class) => Ok(Question::Methods(*class)),
        Question::SourceFile(class) => Ok(Question::SourceFile(*class)),
        Question::Superclass(class) => Ok(Question::Superclass(*class)),
        Question::LineTable { class, method } => Ok(lines_question(*class, *method)),
        Question::VariableTable { class, method } => Ok(variables_question(*class, *method)),
        Question::ObjectType(object) => Ok(Question::ObjectType(*object)),
        Question::GetFields { object, fields } => fields_copy(alloc, *object, fields.as_slice()),
        Question::StringValue(object) => Ok(Question::StringValue(*object)),
        Question::ThreadName(thread) => Ok(Question::ThreadName(*thread)),
        Question::Frames {
            thread,
            start,
            length,
        } => Ok(frames_question(*thread, *start, *length)),
        Question::FrameCount(thread) => Ok(Question::FrameCount(*thread)),
        Question::ArrayLength(array) => Ok(Question::ArrayLength(*array)),
        Question::GetElements {
            array,
            first,
            length,
        } => Ok(elements_question(*array, *first, *length)),
        Question::GetSlots {
            thread,
            frame,
            slots,
        } => slots_copy(alloc, *thread, *frame, slots.as_slice()),
        Question::ThisObject { thread, frame } => Ok(this_question(*thread, *frame)),
    }
}
