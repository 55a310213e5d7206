//! The bodies of answers.

ghost use Rattle.std.specs.Prelude.{◌≡◌, ◌<◌, ◌^◌, length, Ok, IfOk};
ghost use Rattle.jdwp_values.specs.declared.limit.Limit.TheVariants.{Any as any_count};
ghost use Rattle.jdwp_values.specs.Rows.{Tells};
ghost use Rattle.jdwp_values.specs.Spelling.{Writes};
ghost use Rattle.jdwp_commands.specs.declared.answer.Answer.{Answer as AnAnswer};
ghost use Rattle.jdwp_commands.specs.declared.answer.Answer.TheVariants.{IdSizes as the_sizes, LineTable as the_lines};
ghost use Rattle.jdwp_commands.specs.declared.answer.Answer.TheVariants.{ObjectType as the_type};
ghost use Rattle.jdwp_commands.specs.declared.answer.Answer.TheVariants.{VariableTable as the_variables};
ghost use Rattle.jdwp_commands.specs.declared.kind.QuestionKind.TheVariants as question_kinds;
ghost use Rattle.jdwp_commands.specs.Answers.{question_answer_at, effect_answer_at, answered_at, told_answer};
ghost use Rattle.jdwp_commands.specs.Answers.{spell_answer, FitsAnswer, InRangeAnswer, IsAnswerTo, answer_at};
ghost use Rattle.jdwp_commands.specs.Bodies.{IsRead};
ghost use Rattle.jdwp_commands.specs.Items.{spell_sayings, FitsSayings};

use crate::answer::Answer;
use crate::asked::Asked;
use crate::fault::BodyFault;
use crate::kind::{CommandKind, EffectKind, QuestionKind};
use crate::region::{read_region, write_region};
use jdwp_values::{
    ClassId, IdSizes, Limit, LineTable, Reader, RowFault, TypeTag, Variable, Writer, read_list,
    write_list,
};
use std::alloc::Global;
use wire_core::{Blob, List, NoMemory};

fn read_sizes(reader: &mut Reader<'_>) -> Result<Answer, RowFault>
    ensures { Tells (λ x. x) (question_answer_at question_kinds.IdSizes any_count reader.old) reader.new result }
{
    Ok(Answer::IdSizes {
        field: reader.number()?,
        method: reader.number()?,
        object: reader.number()?,
        class: reader.number()?,
        frame: reader.number()?,
    })
}

fn read_lines(alloc: Global, reader: &mut Reader<'_>) -> Result<Answer, RowFault>
    ensures { Tells (λ x. x) (question_answer_at question_kinds.LineTable any_count reader.old) reader.new result }
{
    Ok(Answer::LineTable(LineTable {
        start: reader.long()?,
        end: reader.long()?,
        lines: read_list(alloc, Limit::Any, reader)?,
    }))
}

fn read_variables(alloc: Global, reader: &mut Reader<'_>) -> Result<Answer, RowFault>
    ensures { Tells (λ x. x) (question_answer_at question_kinds.VariableTable any_count reader.old) reader.new result }
{
    Ok(Answer::VariableTable {
        arguments: reader.int()?,
        variables: read_list(alloc, Limit::Any, reader)?,
    })
}

fn read_type(reader: &mut Reader<'_>) -> Result<Answer, RowFault>
    ensures { Tells (λ x. x) (question_answer_at question_kinds.ObjectType any_count reader.old) reader.new result }
{
    Ok(Answer::ObjectType {
        tag: reader.type_tag()?,
        class: reader.class()?,
    })
}

/// The answer to a question; the limit says how many items it may have.
fn read_question_answer(
    alloc: Global,
    kind: QuestionKind,
    limit: Limit,
    reader: &mut Reader<'_>,
) -> Result<Answer, RowFault>
    ensures { Tells (λ x. x) (question_answer_at kind limit reader.old) reader.new result }
{
    match kind {
        QuestionKind::ClassesBySignature => Ok(Answer::ClassesBySignature(read_list(
            alloc,
            Limit::Any,
            reader,
        )?)),
        QuestionKind::AllClasses => Ok(Answer::AllClasses(read_list(alloc, Limit::Any, reader)?)),
        QuestionKind::AllThreads => Ok(Answer::AllThreads(read_list(alloc, Limit::Any, reader)?)),
        QuestionKind::IdSizes => read_sizes(reader),
        QuestionKind::Signature => {
            Ok(Answer::Signature(Blob::from_slice(alloc, reader.text()?)?))
        }
        QuestionKind::Fields => Ok(Answer::Fields(read_list(alloc, Limit::Any, reader)?)),
        QuestionKind::Methods => Ok(Answer::Methods(read_list(alloc, Limit::Any, reader)?)),
        QuestionKind::SourceFile => {
            Ok(Answer::SourceFile(Blob::from_slice(alloc, reader.text()?)?))
        }
        QuestionKind::Superclass => Ok(Answer::Superclass(reader.class()?)),
        QuestionKind::LineTable => read_lines(alloc, reader),
        QuestionKind::VariableTable => read_variables(alloc, reader),
        QuestionKind::ObjectType => read_type(reader),
        QuestionKind::GetFields => Ok(Answer::GetFields(read_list(alloc, limit, reader)?)),
        QuestionKind::StringValue => {
            Ok(Answer::StringValue(Blob::from_slice(alloc, reader.text()?)?))
        }
        QuestionKind::ThreadName => {
            Ok(Answer::ThreadName(Blob::from_slice(alloc, reader.text()?)?))
        }
        QuestionKind::Frames => Ok(Answer::Frames(read_list(alloc, limit, reader)?)),
        QuestionKind::FrameCount => Ok(Answer::FrameCount(reader.count(Limit::Any)?)),
        QuestionKind::ArrayLength => Ok(Answer::ArrayLength(reader.count(Limit::Any)?)),
        QuestionKind::GetElements => Ok(Answer::GetElements(read_region(alloc, limit, reader)?)),
        QuestionKind::GetSlots => Ok(Answer::GetSlots(read_list(alloc, limit, reader)?)),
        QuestionKind::ThisObject => Ok(Answer::ThisObject(reader.reference()?)),
    }
}

fn read_effect_answer(kind: EffectKind, reader: &mut Reader<'_>) -> Result<Answer, RowFault>
    ensures { Tells (λ x. x) (effect_answer_at kind reader.old) reader.new result }
{
    match kind {
        EffectKind::Dispose => Ok(Answer::Dispose),
        EffectKind::Suspend => Ok(Answer::Suspend),
        EffectKind::Resume => Ok(Answer::Resume),
        EffectKind::Exit => Ok(Answer::Exit),
        EffectKind::SetField => Ok(Answer::SetField),
        EffectKind::SetElement => Ok(Answer::SetElement),
        EffectKind::Set => Ok(Answer::Set(reader.number()?)),
        EffectKind::Clear => Ok(Answer::Clear),
        EffectKind::SetSlot => Ok(Answer::SetSlot),
    }
}

fn read_reply(
    alloc: Global,
    kind: CommandKind,
    limit: Limit,
    reader: &mut Reader<'_>,
) -> Result<Answer, RowFault>
    ensures { Tells (λ x. x) (answered_at kind limit reader.old) reader.new result }
{
    match kind {
        CommandKind::Question(kind) => read_question_answer(alloc, kind, limit, reader),
        CommandKind::Effect(kind) => read_effect_answer(kind, reader),
    }
}

#[tactic(auto, unfolding(crate::specs::Answers::answer_at))]
fn read(alloc: Global, sizes: IdSizes, asked: &Asked, body: &[u8]) -> Result<Answer, BodyFault>
    requires { length body.now < 2 ^ 32 }
    ensures { IsRead (answer_at sizes asked.now body.now) result }
{
    let mut reader = Reader::new(body, sizes);
    let answer = read_reply(alloc, asked.kind(), asked.limit(), &mut reader)?;
    if reader.left() > 0 {
        return Err(BodyFault::Trailing { at: reader.at() });
    }
    Ok(answer)
}

/// Reads the answer to this command that the whole body spells, the data of a reply packet without an error behind its
/// header (JDWP, Detailed Command Information). The ids take as many bytes as the sizes say; texts and lists are
/// copied. The fault is that of the first part from the left that can't be read: `BadCount` also where the command
/// doesn't allow so many items, `UnknownCommand` never.
pub fn read_answer(
    alloc: Global,
    sizes: IdSizes,
    asked: &Asked,
    body: &[u8],
) -> Result<Answer, BodyFault>
    requires { length body.now < 2 ^ 32 }
    // What is read is spelled so, with as many items as the command allows.
    ensures found { IfOk result (λ a. IsAnswerTo sizes asked.now a × (body.now ≡ spell_answer sizes a)) }
    // What is spelled so is read, unless memory runs out.
    ensures only { (a : AnAnswer) → IsAnswerTo sizes asked.now a → InRangeAnswer a → body.now ≡ spell_answer sizes a
        → IsRead (Ok a) result }
    // Which fault it is: that of the first part from the left that can't be read.
    ensures exact { IsRead (answer_at sizes asked.now body.now) result }
{
    read(alloc, sizes, asked, body)
}

#[tactic(auto, using(jdwp_values::proofs::Appends::appends))]
fn write_sizes(
    field: u32,
    method: u32,
    object: u32,
    class: u32,
    frame: u32,
    writer: &mut Writer,
) -> Result<(), NoMemory>
    ensures { Writes (spell_sayings writer.old.sizes
        (told_answer any_count (the_sizes field method object class frame)))
        writer.old writer.new result }
{
    writer.number(field)?;
    writer.number(method)?;
    writer.number(object)?;
    writer.number(class)?;
    writer.number(frame)?;
    Ok(())
}

#[tactic(auto, using(jdwp_values::proofs::Appends::appends))]
fn write_lines(table: &LineTable, writer: &mut Writer) -> Result<(), NoMemory>
    requires { FitsSayings writer.old.sizes (told_answer any_count (the_lines table.now)) }
    ensures { Writes (spell_sayings writer.old.sizes (told_answer any_count (the_lines table.now)))
        writer.old writer.new result }
{
    writer.long(table.start)?;
    writer.long(table.end)?;
    write_list(writer, table.lines.as_slice())?;
    Ok(())
}

#[tactic(auto, using(jdwp_values::proofs::Appends::appends))]
fn write_variables(
    arguments: i32,
    variables: &List<Variable>,
    writer: &mut Writer,
) -> Result<(), NoMemory>
    requires { FitsSayings writer.old.sizes (told_answer any_count (the_variables arguments variables.now)) }
    ensures { Writes (spell_sayings writer.old.sizes (told_answer any_count (the_variables arguments variables.now)))
        writer.old writer.new result }
{
    writer.int(arguments)?;
    write_list(writer, variables.as_slice())?;
    Ok(())
}

#[tactic(auto, using(jdwp_values::proofs::Appends::appends))]
fn write_type(tag: TypeTag, class: ClassId, writer: &mut Writer) -> Result<(), NoMemory>
    requires { FitsSayings writer.old.sizes (told_answer any_count (the_type tag class)) }
    ensures { Writes (spell_sayings writer.old.sizes (told_answer any_count (the_type tag class)))
        writer.old writer.new result }
{
    writer.type_tag(tag)?;
    writer.class(class)?;
    Ok(())
}

#[tactic(auto, using(jdwp_values::proofs::Appends::appends))]
fn write_reply(answer: &Answer, writer: &mut Writer) -> Result<(), NoMemory>
    requires { FitsSayings writer.old.sizes (told_answer any_count answer.now) }
    ensures { Writes (spell_sayings writer.old.sizes (told_answer any_count answer.now)) writer.old writer.new result }
{
    match answer {
        Answer::ClassesBySignature(classes) => write_list(writer, classes.as_slice())?,
        Answer::AllClasses(classes) => write_list(writer, classes.as_slice())?,
        Answer::AllThreads(threads) => write_list(writer, threads.as_slice())?,
        Answer::IdSizes {
            field,
            method,
            object,
            class,
            frame,
        } => write_sizes(*field, *method, *object, *class, *frame, writer)?,
        Answer::Signature(text) => writer.text(text.as_slice())?,
        Answer::Fields(fields) => write_list(writer, fields.as_slice())?,
        Answer::Methods(methods) => write_list(writer, methods.as_slice())?,
        Answer::SourceFile(text) => writer.text(text.as_slice())?,
        Answer::Superclass(class) => writer.class(*class)?,
        Answer::LineTable(table) => write_lines(table, writer)?,
        Answer::VariableTable {
            arguments,
            variables,
        } => write_variables(*arguments, variables, writer)?,
        Answer::ObjectType { tag, class } => write_type(*tag, *class, writer)?,
        Answer::GetFields(values) => write_list(writer, values.as_slice())?,
        Answer::StringValue(text) => writer.text(text.as_slice())?,
        Answer::ThreadName(text) => writer.text(text.as_slice())?,
        Answer::Frames(frames) => write_list(writer, frames.as_slice())?,
        Answer::FrameCount(count) => writer.count(*count)?,
        Answer::ArrayLength(length) => writer.count(*length)?,
        Answer::GetElements(region) => write_region(region, writer)?,
        Answer::GetSlots(values) => write_list(writer, values.as_slice())?,
        Answer::ThisObject(object) => writer.reference(object)?,
        Answer::Set(request) => writer.number(*request)?,
        _ => {}
    }
    Ok(())
}

/// The body of an answer, without a packet's header (JDWP, Detailed Command Information). Its ids fit the sizes; its
/// texts and lists have fewer than 2^31 bytes and items. `NoMemory` comes where memory is refused.
#[tactic(auto, unfolding(crate::specs::Answers::spell_answer))]
pub fn write_answer(alloc: Global, sizes: IdSizes, answer: &Answer) -> Result<Blob, NoMemory>
    requires { FitsAnswer sizes answer.now }
    ensures { IfOk result (λ body. body ≡ spell_answer sizes answer.now) }
{
    let mut writer = Writer::new(alloc, sizes);
    write_reply(answer, &mut writer)?;
    Ok(writer.done())
}
