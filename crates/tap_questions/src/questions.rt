//! Questions: whether one has a spelling that fits a packet, its bytes, and a copy of it.
ghost use Rattle.std.specs.Prelude.{◌≡◌, ◌<◌, ◌+◌, ◌*◌, ◌&&◌, IfNone, IfOk, IfSome, false, length, nat_le, true};
ghost use Rattle.std.specs.List.{list_all};
ghost use Rattle.jdwp_commands.specs.Commands.{number_of, spell_command};
ghost use Rattle.jdwp_packets.specs.Packets.{command_packet, packet_bytes};
ghost use Rattle.tap_questions.specs.Names.{a_question};
ghost use Rattle.tap_model.specs.Questions.{id_fits, is_fit, most_body};

use jdwp_commands::{Asked, Question, Slot, write};
use jdwp_packets::write_command;
use jdwp_values::{ClassId, FieldId, FrameId, IdSizes, MethodId, ObjectId};
use std::alloc::Global;
use wire_core::{Blob, List, NoMemory};

// The length of the longest body of a packet, whose header has 11 bytes (JDWP, JDWP Packets).
const LONGEST_BODY: usize = 67_108_853;

// Whether so many bytes hold an id.
fn id_fits(size: u8, id: u64) -> bool
    ensures { result ≡ id_fits size id }
{
    match 256u64.checked_pow(u32::from(size)) {
        Some(end) => id < end,
        None => true,
    }
}

// Whether a body has room for a text behind its length.
fn text_fits(text: &Blob) -> bool
    ensures { result ≡ nat_le (4 + length text.now) most_body }
{
    text.len() <= LONGEST_BODY - 4
}

// Whether a method of a class has a spelling.
fn method_fits(sizes: IdSizes, class: ClassId, method: MethodId) -> bool
    ensures { result ≡ id_fits sizes.class class.0 && id_fits sizes.method method.0 }
{
    id_fits(sizes.class, class.0) && id_fits(sizes.method, method.0)
}

// Whether a frame of a thread, or of another object, has a spelling.
fn frame_fits(sizes: IdSizes, thread: u64, frame: FrameId) -> bool
    ensures { result ≡ id_fits sizes.object thread && id_fits sizes.frame frame.0 }
{
    id_fits(sizes.object, thread) && id_fits(sizes.frame, frame.0)
}

// Whether each field has a spelling.
fn each_fits(size: u8, fields: &[FieldId]) -> bool
    ensures { result ≡ list_all (λ field. id_fits size field.0) fields.now }
{
    fields.iter().all(|field| id_fits(size, field.0))
}

// Whether a body has room for so many items of this size, the length of their list, and what stands before it.
fn list_fits(before: u8, size: u8, count: usize) -> bool
    requires { 0 < size }
    ensures { result ≡ nat_le (before + (4 + size * count)) most_body }
{
    if count > LONGEST_BODY {
        return false;
    }
    before as usize + (4 + size as usize * count) <= LONGEST_BODY
}

fn fields_fit(sizes: IdSizes, object: ObjectId, fields: &[FieldId]) -> bool
    ensures { result ≡ (id_fits sizes.object object.0 && list_all (λ field. id_fits sizes.field field.0) fields.now)
        && nat_le (sizes.object + (4 + sizes.field * length fields.now)) most_body }
{
    id_fits(sizes.object, object.0)
        && each_fits(sizes.field, fields)
        && list_fits(sizes.object, sizes.field, fields.len())
}

fn slots_fit(sizes: IdSizes, thread: u64, frame: FrameId, slots: &[Slot]) -> bool
    ensures { result ≡ (id_fits sizes.object thread && id_fits sizes.frame frame.0)
        && nat_le (sizes.object + (sizes.frame + (4 + 5 * length slots.now))) most_body }
{
    frame_fits(sizes, thread, frame) && list_fits(sizes.object + sizes.frame, SLOT, slots.len())
}

// How many bytes a slot takes, with its tag (JDWP, StackFrame command set, GetValues).
const SLOT: u8 = 5;

/// Whether the body of a question has a spelling under these sizes of ids, and fits a packet (JDWP, Detailed Command
/// Information).
pub fn is_fit(sizes: IdSizes, question: &Question) -> bool
    ensures { result ≡ is_fit sizes question.now }
{
    match question {
        Question::ClassesBySignature(signature) => text_fits(signature),
        Question::AllClasses => true,
        Question::AllThreads => true,
        Question::IdSizes => true,
        Question::Signature(class) => id_fits(sizes.class, class.0),
        Question::Fields(class) => id_fits(sizes.class, class.0),
        Question::Methods(class) => id_fits(sizes.class, class.0),
        Question::SourceFile(class) => id_fits(sizes.class, class.0),
        Question::Superclass(class) => id_fits(sizes.class, class.0),
        Question::LineTable { class, method } => method_fits(sizes, *class, *method),
        Question::VariableTable { class, method } => method_fits(sizes, *class, *method),
        Question::ObjectType(object) => id_fits(sizes.object, object.0),
        Question::GetFields { object, fields } => fields_fit(sizes, *object, fields.as_slice()),
        Question::StringValue(object) => id_fits(sizes.object, object.0),
        Question::ThreadName(thread) => id_fits(sizes.object, thread.0),
        Question::Frames { thread, .. } => id_fits(sizes.object, thread.0),
        Question::FrameCount(thread) => id_fits(sizes.object, thread.0),
        Question::ArrayLength(array) => id_fits(sizes.object, array.0),
        Question::GetElements { array, .. } => id_fits(sizes.object, array.0),
        Question::GetSlots {
            thread,
            frame,
            slots,
        } => slots_fit(sizes, thread.0, *frame, slots.as_slice()),
        Question::ThisObject { thread, frame } => frame_fits(sizes, thread.0, *frame),
    }
}

/// A copy of a question.
pub fn copy_of(alloc: Global, question: &Question) -> Result<Question, NoMemory>
    ensures { IfOk result (λ copy. copy ≡ question.now) }
{
    match question {
        Question::ClassesBySignature(signature) => Ok(Question::ClassesBySignature(Blob::from_slice(
            alloc,
            signature.as_slice(),
        )?)),
        Question::GetFields { object, fields } => Ok(Question::GetFields {
            object: *object,
            fields: List::from_slice(alloc, fields.as_slice())?,
        }),
        Question::GetSlots {
            thread,
            frame,
            slots,
        } => Ok(Question::GetSlots {
            thread: *thread,
            frame: *frame,
            slots: List::from_slice(alloc, slots.as_slice())?,
        }),
        Question::AllClasses => Ok(Question::AllClasses),
        Question::AllThreads => Ok(Question::AllThreads),
        Question::IdSizes => Ok(Question::IdSizes),
        Question::Signature(class) => Ok(Question::Signature(*class)),
        Question::Fields(class) => Ok(Question::Fields(*class)),
        Question::Methods(class) => Ok(Question::Methods(*class)),
        Question::SourceFile(class) => Ok(Question::SourceFile(*class)),
        Question::Superclass(class) => Ok(Question::Superclass(*class)),
        Question::LineTable { class, method } => Ok(Question::LineTable {
            class: *class,
            method: *method,
        }),
        Question::VariableTable { class, method } => Ok(Question::VariableTable {
            class: *class,
            method: *method,
        }),
        Question::ObjectType(object) => Ok(Question::ObjectType(*object)),
        Question::StringValue(object) => Ok(Question::StringValue(*object)),
        Question::ThreadName(thread) => Ok(Question::ThreadName(*thread)),
        Question::Frames {
            thread,
            start,
            length,
        } => Ok(Question::Frames {
            thread: *thread,
            start: *start,
            length: *length,
        }),
        Question::FrameCount(thread) => Ok(Question::FrameCount(*thread)),
        Question::ArrayLength(array) => Ok(Question::ArrayLength(*array)),
        Question::GetElements {
            array,
            first,
            length,
        } => Ok(Question::GetElements {
            array: *array,
            first: *first,
            length: *length,
        }),
        Question::ThisObject { thread, frame } => Ok(Question::ThisObject {
            thread: *thread,
            frame: *frame,
        }),
    }
}

/// The bytes of the command of a question under this id (JDWP, JDWP Packets, command packet); nothing where it isn't
/// fit. `NoMemory` comes where memory is refused alone.
#[tactic(auto, using(tap_model::proofs::FitLaws::fits))]
pub fn question_bytes(
    alloc: Global,
    sizes: IdSizes,
    id: u32,
    question: &Question,
) -> Result<Option<Blob>, NoMemory>
    ensures unfit { IfOk result (λ bytes. IfNone bytes (is_fit sizes question.now ≡ false)) }
    ensures fit { IfOk result (λ bytes. IfSome bytes (λ b. is_fit sizes question.now ≡ true)) }
    ensures spelled { IfOk result (λ bytes. IfSome bytes (λ b. b ≡ packet_bytes (command_packet id
        (number_of (a_question question.now)).0 (number_of (a_question question.now)).1
        (spell_command sizes (a_question question.now))))) }
{
    if !is_fit(sizes, question) {
        return Ok(None);
    }
    let asked = Asked::Question(copy_of(alloc, question)?);
    let (set, command, body) = write(alloc, sizes, &asked)?;
    Ok(Some(write_command(alloc, id, set, command, body.as_slice())?))
}
