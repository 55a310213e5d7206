//! The bodies of commands.

ghost use Rattle.std.specs.Prelude.{◌≡◌, ◌<◌, ◌^◌, ◌↔◌, length, Ok, Err, None, IfOk};
ghost use Rattle.jdwp_values.specs.Rows.{Tells};
ghost use Rattle.jdwp_values.specs.Spelling.{Writes};
ghost use Rattle.jdwp_commands.specs.declared.asked.Asked.{Asked as AnAsked};
ghost use Rattle.jdwp_commands.specs.declared.fault.BodyFault.TheVariants.{UnknownCommand as unknown_command};
ghost use Rattle.jdwp_commands.specs.declared.effect.Effect.TheVariants as effects;
ghost use Rattle.jdwp_commands.specs.declared.kind.EffectKind.TheVariants as effect_kinds;
ghost use Rattle.jdwp_commands.specs.declared.kind.QuestionKind.TheVariants as question_kinds;
ghost use Rattle.jdwp_commands.specs.declared.question.Question.TheVariants as questions;
ghost use Rattle.jdwp_commands.specs.Bodies.{IsRead, whole};
ghost use Rattle.jdwp_commands.specs.Commands.{number_of, question_at, effect_at, asked_at, told_question, told_effect};
ghost use Rattle.jdwp_commands.specs.Commands.{told, spell_command, FitsCommand, InRangeCommand, command_at};
ghost use Rattle.jdwp_commands.specs.Items.{spell_sayings, FitsSayings};
ghost use Rattle.jdwp_commands.specs.Kinds.{kind_of_numbers};

use crate::asked::Asked;
use crate::effect::Effect;
use crate::fault::BodyFault;
use crate::kind::{CommandKind, EffectKind, QuestionKind};
use crate::listed::Slot;
use crate::meaning;
use crate::question::Question;
use jdwp_events::{EventKind, Modifier, Policy};
use jdwp_values::{
    ClassId, FieldId, FrameId, IdSizes, Limit, MethodId, ObjectId, Reader, RowFault, ThreadId,
    Value, Writer, read_list, write_list,
};
use std::alloc::Global;
use wire_core::{Blob, List, NoMemory};

// LineTable and VariableTable ask of a method.
#[tactic(auto, using(jdwp_values::proofs::Appends::appends))]
fn write_table_of(class: ClassId, method: MethodId, writer: &mut Writer) -> Result<(), NoMemory>
    requires { FitsSayings writer.old.sizes (told_question (questions.LineTable class method)) }
    ensures { Writes (spell_sayings writer.old.sizes (told_question (questions.LineTable class method)))
        writer.old writer.new result }
{
    writer.class(class)?;
    writer.method(method)?;
    Ok(())
}

#[tactic(auto, using(jdwp_values::proofs::Appends::appends))]
fn write_get_fields(
    object: ObjectId,
    fields: &List<FieldId>,
    writer: &mut Writer,
) -> Result<(), NoMemory>
    requires { FitsSayings writer.old.sizes (told_question (questions.GetFields object fields.now)) }
    ensures { Writes (spell_sayings writer.old.sizes (told_question (questions.GetFields object fields.now)))
        writer.old writer.new result }
{
    writer.object(object)?;
    write_list(writer, fields.as_slice())?;
    Ok(())
}

#[tactic(auto, using(jdwp_values::proofs::Appends::appends))]
fn write_frames(
    thread: ThreadId,
    start: i32,
    length: i32,
    writer: &mut Writer,
) -> Result<(), NoMemory>
    requires { FitsSayings writer.old.sizes (told_question (questions.Frames thread start length)) }
    ensures { Writes (spell_sayings writer.old.sizes (told_question (questions.Frames thread start length)))
        writer.old writer.new result }
{
    writer.thread(thread)?;
    writer.int(start)?;
    writer.int(length)?;
    Ok(())
}

#[tactic(auto, using(jdwp_values::proofs::Appends::appends))]
fn write_get_elements(
    array: ObjectId,
    first: i32,
    length: i32,
    writer: &mut Writer,
) -> Result<(), NoMemory>
    requires { FitsSayings writer.old.sizes (told_question (questions.GetElements array first length)) }
    ensures { Writes (spell_sayings writer.old.sizes (told_question (questions.GetElements array first length)))
        writer.old writer.new result }
{
    writer.object(array)?;
    writer.int(first)?;
    writer.int(length)?;
    Ok(())
}

#[tactic(auto, using(jdwp_values::proofs::Appends::appends))]
fn write_get_slots(
    thread: ThreadId,
    frame: FrameId,
    slots: &List<Slot>,
    writer: &mut Writer,
) -> Result<(), NoMemory>
    requires { FitsSayings writer.old.sizes (told_question (questions.GetSlots thread frame slots.now)) }
    ensures { Writes (spell_sayings writer.old.sizes (told_question (questions.GetSlots thread frame slots.now)))
        writer.old writer.new result }
{
    writer.thread(thread)?;
    writer.frame(frame)?;
    write_list(writer, slots.as_slice())?;
    Ok(())
}

#[tactic(auto, using(jdwp_values::proofs::Appends::appends))]
fn write_this_object(thread: ThreadId, frame: FrameId, writer: &mut Writer) -> Result<(), NoMemory>
    requires { FitsSayings writer.old.sizes (told_question (questions.ThisObject thread frame)) }
    ensures { Writes (spell_sayings writer.old.sizes (told_question (questions.ThisObject thread frame)))
        writer.old writer.new result }
{
    writer.thread(thread)?;
    writer.frame(frame)?;
    Ok(())
}

#[tactic(auto, using(jdwp_values::proofs::Appends::appends))]
fn write_question(question: &Question, writer: &mut Writer) -> Result<(), NoMemory>
    requires { FitsSayings writer.old.sizes (told_question question.now) }
    ensures { Writes (spell_sayings writer.old.sizes (told_question question.now)) writer.old writer.new result }
{
    match question {
        Question::ClassesBySignature(signature) => writer.text(signature.as_slice())?,
        Question::AllClasses => {}
        Question::AllThreads => {}
        Question::IdSizes => {}
        Question::Signature(class) => writer.class(*class)?,
        Question::Fields(class) => writer.class(*class)?,
        Question::Methods(class) => writer.class(*class)?,
        Question::SourceFile(class) => writer.class(*class)?,
        Question::Superclass(class) => writer.class(*class)?,
        Question::LineTable { class, method } => write_table_of(*class, *method, writer)?,
        Question::VariableTable { class, method } => write_table_of(*class, *method, writer)?,
        Question::ObjectType(object) => writer.object(*object)?,
        Question::GetFields { object, fields } => write_get_fields(*object, fields, writer)?,
        Question::StringValue(object) => writer.object(*object)?,
        Question::ThreadName(thread) => writer.thread(*thread)?,
        Question::Frames {
            thread,
            start,
            length,
        } => write_frames(*thread, *start, *length, writer)?,
        Question::FrameCount(thread) => writer.thread(*thread)?,
        Question::ArrayLength(object) => writer.object(*object)?,
        Question::GetElements {
            array,
            first,
            length,
        } => write_get_elements(*array, *first, *length, writer)?,
        Question::GetSlots {
            thread,
            frame,
            slots,
        } => write_get_slots(*thread, *frame, slots, writer)?,
        Question::ThisObject { thread, frame } => write_this_object(*thread, *frame, writer)?,
    }
    Ok(())
}

#[tactic(auto, using(jdwp_values::proofs::Appends::appends))]
fn write_set_field(
    object: ObjectId,
    field: FieldId,
    value: &Blob,
    writer: &mut Writer,
) -> Result<(), NoMemory>
    requires { FitsSayings writer.old.sizes (told_effect (effects.SetField object field value.now)) }
    ensures { Writes (spell_sayings writer.old.sizes (told_effect (effects.SetField object field value.now)))
        writer.old writer.new result }
{
    writer.object(object)?;
    writer.count(1)?;
    writer.field(field)?;
    writer.tail(value.as_slice())?;
    Ok(())
}

#[tactic(auto, using(jdwp_values::proofs::Appends::appends))]
fn write_set_element(
    array: ObjectId,
    first: i32,
    value: &Blob,
    writer: &mut Writer,
) -> Result<(), NoMemory>
    requires { FitsSayings writer.old.sizes (told_effect (effects.SetElement array first value.now)) }
    ensures { Writes (spell_sayings writer.old.sizes (told_effect (effects.SetElement array first value.now)))
        writer.old writer.new result }
{
    writer.object(array)?;
    writer.int(first)?;
    writer.count(1)?;
    writer.tail(value.as_slice())?;
    Ok(())
}

#[tactic(auto, using(jdwp_values::proofs::Appends::appends))]
fn write_set(
    kind: EventKind,
    policy: Policy,
    modifiers: &List<Modifier>,
    writer: &mut Writer,
) -> Result<(), NoMemory>
    requires { FitsSayings writer.old.sizes (told_effect (effects.Set kind policy modifiers.now)) }
    ensures { Writes (spell_sayings writer.old.sizes (told_effect (effects.Set kind policy modifiers.now)))
        writer.old writer.new result }
{
    writer.byte(kind.byte())?;
    writer.byte(policy.byte())?;
    write_list(writer, modifiers.as_slice())?;
    Ok(())
}

#[tactic(auto, using(jdwp_values::proofs::Appends::appends))]
fn write_set_slot(
    thread: ThreadId,
    frame: FrameId,
    slot: i32,
    value: &Value,
    writer: &mut Writer,
) -> Result<(), NoMemory>
    requires { FitsSayings writer.old.sizes (told_effect (effects.SetSlot thread frame slot value.now)) }
    ensures { Writes (spell_sayings writer.old.sizes (told_effect (effects.SetSlot thread frame slot value.now)))
        writer.old writer.new result }
{
    writer.thread(thread)?;
    writer.frame(frame)?;
    writer.count(1)?;
    writer.int(slot)?;
    writer.value(value)?;
    Ok(())
}

#[tactic(auto, using(jdwp_values::proofs::Appends::appends))]
fn write_effect(effect: &Effect, writer: &mut Writer) -> Result<(), NoMemory>
    requires { FitsSayings writer.old.sizes (told_effect effect.now) }
    ensures { Writes (spell_sayings writer.old.sizes (told_effect effect.now)) writer.old writer.new result }
{
    match effect {
        Effect::Dispose => {}
        Effect::Suspend => {}
        Effect::Resume => {}
        Effect::Exit(code) => writer.int(*code)?,
        Effect::SetField {
            object,
            field,
            value,
        } => write_set_field(*object, *field, value, writer)?,
        Effect::SetElement {
            array,
            first,
            value,
        } => write_set_element(*array, *first, value, writer)?,
        Effect::Set {
            kind,
            policy,
            modifiers,
        } => write_set(*kind, *policy, modifiers, writer)?,
        Effect::Clear { kind, request } => {
            writer.byte(kind.byte())?;
            writer.number(*request)?;
        }
        Effect::SetSlot {
            thread,
            frame,
            slot,
            value,
        } => write_set_slot(*thread, *frame, *slot, value, writer)?,
    }
    Ok(())
}

fn write_asked(asked: &Asked, writer: &mut Writer) -> Result<(), NoMemory>
    requires { FitsSayings writer.old.sizes (told asked.now) }
    ensures { Writes (spell_sayings writer.old.sizes (told asked.now)) writer.old writer.new result }
{
    match asked {
        Asked::Question(question) => write_question(question, writer),
        Asked::Effect(effect) => write_effect(effect, writer),
    }
}

/// The number of a command's set, its own number in there, and its body without a packet's header (JDWP, Detailed
/// Command Information). Its ids fit the sizes; its texts and lists have fewer than 2^31 bytes and items. `NoMemory`
/// comes where memory is refused.
#[tactic(auto, unfolding(crate::specs::Commands::spell_command))]
pub fn write(alloc: Global, sizes: IdSizes, asked: &Asked) -> Result<(u8, u8, Blob), NoMemory>
    requires { FitsCommand sizes asked.now }
    ensures number { IfOk result (λ w. (w.0, w.1) ≡ number_of asked.now) }
    ensures body { IfOk result (λ w. w.2 ≡ spell_command sizes asked.now) }
{
    let mut writer = Writer::new(alloc, sizes);
    write_asked(asked, &mut writer)?;
    let (set, command) = asked.kind().numbers();
    Ok((set, command, writer.done()))
}

fn read_get_fields(alloc: Global, reader: &mut Reader<'_>) -> Result<Question, RowFault>
    ensures { Tells (λ x. x) (question_at question_kinds.GetFields reader.old) reader.new result }
{
    Ok(Question::GetFields {
        object: reader.object()?,
        fields: read_list(alloc, Limit::Any, reader)?,
    })
}

fn read_frames(reader: &mut Reader<'_>) -> Result<Question, RowFault>
    ensures { Tells (λ x. x) (question_at question_kinds.Frames reader.old) reader.new result }
{
    Ok(Question::Frames {
        thread: reader.thread()?,
        start: reader.int()?,
        length: reader.int()?,
    })
}

fn read_get_elements(reader: &mut Reader<'_>) -> Result<Question, RowFault>
    ensures { Tells (λ x. x) (question_at question_kinds.GetElements reader.old) reader.new result }
{
    Ok(Question::GetElements {
        array: reader.object()?,
        first: reader.int()?,
        length: reader.int()?,
    })
}

fn read_get_slots(alloc: Global, reader: &mut Reader<'_>) -> Result<Question, RowFault>
    ensures { Tells (λ x. x) (question_at question_kinds.GetSlots reader.old) reader.new result }
{
    Ok(Question::GetSlots {
        thread: reader.thread()?,
        frame: reader.frame()?,
        slots: read_list(alloc, Limit::Any, reader)?,
    })
}

fn read_question(
    alloc: Global,
    kind: QuestionKind,
    reader: &mut Reader<'_>,
) -> Result<Question, RowFault>
    ensures { Tells (λ x. x) (question_at kind reader.old) reader.new result }
{
    match kind {
        QuestionKind::ClassesBySignature => Ok(Question::ClassesBySignature(Blob::from_slice(
            alloc,
            reader.text()?,
        )?)),
        QuestionKind::AllClasses => Ok(Question::AllClasses),
        QuestionKind::AllThreads => Ok(Question::AllThreads),
        QuestionKind::IdSizes => Ok(Question::IdSizes),
        QuestionKind::Signature => Ok(Question::Signature(reader.class()?)),
        QuestionKind::Fields => Ok(Question::Fields(reader.class()?)),
        QuestionKind::Methods => Ok(Question::Methods(reader.class()?)),
        QuestionKind::SourceFile => Ok(Question::SourceFile(reader.class()?)),
        QuestionKind::Superclass => Ok(Question::Superclass(reader.class()?)),
        QuestionKind::LineTable => Ok(Question::LineTable {
            class: reader.class()?,
            method: reader.method()?,
        }),
        QuestionKind::VariableTable => Ok(Question::VariableTable {
            class: reader.class()?,
            method: reader.method()?,
        }),
        QuestionKind::ObjectType => Ok(Question::ObjectType(reader.object()?)),
        QuestionKind::GetFields => read_get_fields(alloc, reader),
        QuestionKind::StringValue => Ok(Question::StringValue(reader.object()?)),
        QuestionKind::ThreadName => Ok(Question::ThreadName(reader.thread()?)),
        QuestionKind::Frames => read_frames(reader),
        QuestionKind::FrameCount => Ok(Question::FrameCount(reader.thread()?)),
        QuestionKind::ArrayLength => Ok(Question::ArrayLength(reader.object()?)),
        QuestionKind::GetElements => read_get_elements(reader),
        QuestionKind::GetSlots => read_get_slots(alloc, reader),
        QuestionKind::ThisObject => Ok(Question::ThisObject {
            thread: reader.thread()?,
            frame: reader.frame()?,
        }),
    }
}

fn read_set_field(alloc: Global, reader: &mut Reader<'_>) -> Result<Effect, RowFault>
    ensures { Tells (λ x. x) (effect_at effect_kinds.SetField reader.old) reader.new result }
{
    let object = reader.object()?;
    reader.count(Limit::Exactly(1))?;
    Ok(Effect::SetField {
        object,
        field: reader.field()?,
        value: Blob::from_slice(alloc, reader.tail()?)?,
    })
}

fn read_set_element(alloc: Global, reader: &mut Reader<'_>) -> Result<Effect, RowFault>
    ensures { Tells (λ x. x) (effect_at effect_kinds.SetElement reader.old) reader.new result }
{
    let array = reader.object()?;
    let first = reader.int()?;
    reader.count(Limit::Exactly(1))?;
    Ok(Effect::SetElement {
        array,
        first,
        value: Blob::from_slice(alloc, reader.tail()?)?,
    })
}

fn read_set_slot(reader: &mut Reader<'_>) -> Result<Effect, RowFault>
    ensures { Tells (λ x. x) (effect_at effect_kinds.SetSlot reader.old) reader.new result }
{
    let thread = reader.thread()?;
    let frame = reader.frame()?;
    reader.count(Limit::Exactly(1))?;
    Ok(Effect::SetSlot {
        thread,
        frame,
        slot: reader.int()?,
        value: reader.value()?,
    })
}

fn read_effect(alloc: Global, kind: EffectKind, reader: &mut Reader<'_>) -> Result<Effect, RowFault>
    ensures { Tells (λ x. x) (effect_at kind reader.old) reader.new result }
{
    match kind {
        EffectKind::Dispose => Ok(Effect::Dispose),
        EffectKind::Suspend => Ok(Effect::Suspend),
        EffectKind::Resume => Ok(Effect::Resume),
        EffectKind::Exit => Ok(Effect::Exit(reader.int()?)),
        EffectKind::SetField => read_set_field(alloc, reader),
        EffectKind::SetElement => read_set_element(alloc, reader),
        EffectKind::Set => Ok(Effect::Set {
            kind: meaning::event_kind(reader)?,
            policy: meaning::policy(reader)?,
            modifiers: read_list(alloc, Limit::Any, reader)?,
        }),
        EffectKind::Clear => Ok(Effect::Clear {
            kind: meaning::event_kind(reader)?,
            request: reader.number()?,
        }),
        EffectKind::SetSlot => read_set_slot(reader),
    }
}

fn read_asked(alloc: Global, kind: CommandKind, reader: &mut Reader<'_>) -> Result<Asked, RowFault>
    ensures { Tells (λ x. x) (asked_at kind reader.old) reader.new result }
{
    match kind {
        CommandKind::Question(kind) => Ok(Asked::Question(read_question(alloc, kind, reader)?)),
        CommandKind::Effect(kind) => Ok(Asked::Effect(read_effect(alloc, kind, reader)?)),
    }
}

fn read_body(
    alloc: Global,
    sizes: IdSizes,
    kind: CommandKind,
    body: &[u8],
) -> Result<Asked, BodyFault>
    requires { length body.now < 2 ^ 32 }
    ensures { IsRead (whole (asked_at kind) sizes body.now) result }
{
    let mut reader = Reader::new(body, sizes);
    let asked = read_asked(alloc, kind, &mut reader)?;
    if reader.left() > 0 {
        return Err(BodyFault::Trailing { at: reader.at() });
    }
    Ok(asked)
}

#[tactic(auto, unfolding(crate::specs::Commands::command_at))]
fn read(
    alloc: Global,
    sizes: IdSizes,
    set: u8,
    command: u8,
    body: &[u8],
) -> Result<Asked, BodyFault>
    requires { length body.now < 2 ^ 32 }
    ensures exact { IsRead (command_at sizes set command body.now) result }
    ensures unknown { (result ≡ Err unknown_command) ↔ (kind_of_numbers set command ≡ None) }
{
    match CommandKind::from_numbers(set, command) {
        Some(kind) => read_body(alloc, sizes, kind, body),
        None => Err(BodyFault::UnknownCommand),
    }
}

/// Reads the command with these numbers that the whole body spells, the data of a command packet behind its header
/// (JDWP, Detailed Command Information). The ids take as many bytes as the sizes say; texts and lists are copied.
/// `UnknownCommand` comes where no command has the numbers, else the fault of the first part from the left that can't
/// be read.
pub fn read_command(
    alloc: Global,
    sizes: IdSizes,
    set: u8,
    command: u8,
    body: &[u8],
) -> Result<Asked, BodyFault>
    requires { length body.now < 2 ^ 32 }
    // What is read is spelled so.
    ensures found { IfOk result (λ c. (number_of c ≡ (set, command)) × FitsCommand sizes c
        × (body.now ≡ spell_command sizes c)) }
    // What is spelled so is read, unless memory runs out.
    ensures only { (c : AnAsked) → FitsCommand sizes c → InRangeCommand c → number_of c ≡ (set, command)
        → body.now ≡ spell_command sizes c → IsRead (Ok c) result }
    // No command has these numbers.
    ensures unknown { (result ≡ Err unknown_command) ↔ (kind_of_numbers set command ≡ None) }
    // Which fault it is: that of the first part from the left that can't be read.
    ensures exact { IsRead (command_at sizes set command body.now) result }
{
    read(alloc, sizes, set, command, body)
}
