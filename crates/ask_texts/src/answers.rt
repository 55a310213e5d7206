//! The text form of an answer.
ghost use Rattle.std.specs.Prelude.{◌≡◌, IfOk};
ghost use Rattle.jdwp_commands.specs.declared.answer.Answer.TheVariants as answers;
ghost use Rattle.serde_json.specs.View.{view};
ghost use Rattle.ask_texts.specs.Forms.{answer_data};

use crate::forms::{bytes_json, list_json, reference_json, region_json};
use jdwp_commands::Answer;
use jdwp_values::{ClassId, LineTable, TypeTag, Variable};
use serde_json::{Value as Json, json};
use std::alloc::Global;
use wire_core::{List, NoMemory};

/// What the body of an answer says: the form of its one part, or the array of those of several. `NoMemory` comes where
/// memory is refused.
pub(crate) fn answer_json(alloc: Global, answer: &Answer) -> Result<Json, NoMemory>
    ensures { IfOk result (λ shown. view shown ≡ answer_data answer.now) }
{
    match answer {
        Answer::ClassesBySignature(classes) => list_json(alloc, classes.as_slice()),
        Answer::AllClasses(classes) => list_json(alloc, classes.as_slice()),
        Answer::AllThreads(threads) => list_json(alloc, threads.as_slice()),
        Answer::IdSizes {
            field,
            method,
            object,
            class,
            frame,
        } => sizes_json(alloc, *field, *method, *object, *class, *frame),
        Answer::Signature(text) => bytes_json(alloc, text.as_slice()),
        Answer::Fields(fields) => list_json(alloc, fields.as_slice()),
        Answer::Methods(methods) => list_json(alloc, methods.as_slice()),
        Answer::SourceFile(text) => bytes_json(alloc, text.as_slice()),
        Answer::Superclass(class) => Ok(Json::from(class.0)),
        Answer::LineTable(table) => table_json(alloc, table),
        Answer::VariableTable {
            arguments,
            variables,
        } => variables_json(alloc, *arguments, variables),
        Answer::ObjectType { tag, class } => type_json(alloc, *tag, *class),
        Answer::GetFields(values) => list_json(alloc, values.as_slice()),
        Answer::StringValue(text) => bytes_json(alloc, text.as_slice()),
        Answer::ThreadName(text) => bytes_json(alloc, text.as_slice()),
        Answer::Frames(frames) => list_json(alloc, frames.as_slice()),
        Answer::FrameCount(count) => Ok(Json::from(*count)),
        Answer::ArrayLength(length) => Ok(Json::from(*length)),
        Answer::GetElements(region) => region_json(alloc, region),
        Answer::GetSlots(values) => list_json(alloc, values.as_slice()),
        Answer::ThisObject(object) => reference_json(alloc, object),
        Answer::Set(request) => Ok(Json::from(*request)),
        _ => Ok(Json::Array(Vec::new(alloc))),
    }
}

fn sizes_json(
    alloc: Global,
    field: u32,
    method: u32,
    object: u32,
    class: u32,
    frame: u32,
) -> Result<Json, NoMemory>
    ensures { IfOk result (λ shown. view shown ≡ answer_data (answers.IdSizes field method object class frame)) }
{
    Ok(json!(in alloc; [field, method, object, class, frame])?)
}

fn table_json(alloc: Global, table: &LineTable) -> Result<Json, NoMemory>
    ensures { IfOk result (λ shown. view shown ≡ answer_data (answers.LineTable table.now)) }
{
    let start = table.start;
    let end = table.end;
    let lines = list_json(alloc, table.lines.as_slice())?;
    Ok(json!(in alloc; [start, end, lines])?)
}

fn variables_json(
    alloc: Global,
    arguments: i32,
    variables: &List<Variable>,
) -> Result<Json, NoMemory>
    ensures { IfOk result (λ shown. view shown ≡ answer_data (answers.VariableTable arguments variables.now)) }
{
    let variables = list_json(alloc, variables.as_slice())?;
    Ok(json!(in alloc; [arguments, variables])?)
}

fn type_json(alloc: Global, tag: TypeTag, class: ClassId) -> Result<Json, NoMemory>
    ensures { IfOk result (λ shown. view shown ≡ answer_data (answers.ObjectType tag class)) }
{
    let tag = tag.byte();
    let class = class.0;
    Ok(json!(in alloc; [tag, class])?)
}
