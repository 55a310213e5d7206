//! What a target replies to each question.
ghost use Rattle.std.specs.Prelude.{◌≡◌, IfOk};
ghost use Rattle.jdwp_commands.specs.declared.question.Question.TheVariants as questions;
ghost use Rattle.world_model.specs.Replies.{sizes_answer, living_reply, reply_of};

use crate::classes::{above_in, all_classes, classes_of, signature_in, source_in};
use crate::codes::VM_DEAD;
use crate::found::{
    elements_in, fields_in, fields_of_object, frame_count_in, frames_in, lines_in, methods_in,
    slots_in, text_copy, variables_in,
};
use crate::objects::{length_in, text_in, this_in, type_in};
use crate::threads::{all_threads, name_in};
use crate::world::World;
use jdwp_commands::{Answer, Question, Replied, Slot};
use jdwp_values::{ClassId, FieldId, FrameId, IdSizes, MethodId, ObjectId, ThreadId};
use std::alloc::Global;
use wire_core::NoMemory;

// How many bytes an id of each kind takes.
fn sizes_answer(sizes: &IdSizes) -> Answer
    ensures { result ≡ sizes_answer sizes.now }
{
    Answer::IdSizes {
        field: u32::from(sizes.field),
        method: u32::from(sizes.method),
        object: u32::from(sizes.object),
        class: u32::from(sizes.class),
        frame: u32::from(sizes.frame),
    }
}

// The classes that have a signature.
fn classes(alloc: Global, world: &World, signature: &[u8]) -> Result<Replied, NoMemory>
    ensures { IfOk result (λ replied. replied ≡ living_reply world.now (questions.ClassesBySignature signature.now)) }
{
    let classes = classes_of(alloc, world, signature)?;
    Ok(Replied::Answer(Answer::ClassesBySignature(classes)))
}

// The signature of a class, or why there is none.
fn signature(alloc: Global, world: &World, class: ClassId) -> Result<Replied, NoMemory>
    ensures { IfOk result (λ replied. replied ≡ living_reply world.now (questions.Signature class)) }
{
    match text_copy(alloc, signature_in(world, class))? {
        Ok(text) => Ok(Replied::Answer(Answer::Signature(text))),
        Err(code) => Ok(Replied::Error(code)),
    }
}

// The fields of a class, or why there are none.
fn fields(alloc: Global, world: &World, class: ClassId) -> Result<Replied, NoMemory>
    ensures { IfOk result (λ replied. replied ≡ living_reply world.now (questions.Fields class)) }
{
    match fields_in(alloc, world, class)? {
        Ok(fields) => Ok(Replied::Answer(Answer::Fields(fields))),
        Err(code) => Ok(Replied::Error(code)),
    }
}

// The methods of a class, or why there are none.
fn methods(alloc: Global, world: &World, class: ClassId) -> Result<Replied, NoMemory>
    ensures { IfOk result (λ replied. replied ≡ living_reply world.now (questions.Methods class)) }
{
    match methods_in(alloc, world, class)? {
        Ok(methods) => Ok(Replied::Answer(Answer::Methods(methods))),
        Err(code) => Ok(Replied::Error(code)),
    }
}

// The source file of a class, or why there is none.
fn source(alloc: Global, world: &World, class: ClassId) -> Result<Replied, NoMemory>
    ensures { IfOk result (λ replied. replied ≡ living_reply world.now (questions.SourceFile class)) }
{
    match text_copy(alloc, source_in(world, class))? {
        Ok(text) => Ok(Replied::Answer(Answer::SourceFile(text))),
        Err(code) => Ok(Replied::Error(code)),
    }
}

// The class above a class, or why there is none.
fn above(world: &World, class: ClassId) -> Replied
    ensures { result ≡ living_reply world.now (questions.Superclass class) }
{
    match above_in(world, class) {
        Ok(class) => Replied::Answer(Answer::Superclass(class)),
        Err(code) => Replied::Error(code),
    }
}

// The lines of a method, or why there are none.
fn lines(
    alloc: Global,
    world: &World,
    class: ClassId,
    method: MethodId,
) -> Result<Replied, NoMemory>
    ensures { IfOk result (λ replied. replied ≡ living_reply world.now (questions.LineTable class method)) }
{
    match lines_in(alloc, world, class, method)? {
        Ok(table) => Ok(Replied::Answer(Answer::LineTable(table))),
        Err(code) => Ok(Replied::Error(code)),
    }
}

// The variables of a method, or why there are none; no slots are said to be those of arguments.
fn variables(
    alloc: Global,
    world: &World,
    class: ClassId,
    method: MethodId,
) -> Result<Replied, NoMemory>
    ensures { IfOk result (λ replied. replied ≡ living_reply world.now (questions.VariableTable class method)) }
{
    match variables_in(alloc, world, class, method)? {
        Ok(variables) => Ok(Replied::Answer(Answer::VariableTable {
            arguments: 0,
            variables,
        })),
        Err(code) => Ok(Replied::Error(code)),
    }
}

// The class of an object, or why there is none.
fn object_type(world: &World, object: ObjectId) -> Replied
    ensures { result ≡ living_reply world.now (questions.ObjectType object) }
{
    match type_in(world, object) {
        Ok((tag, class)) => Replied::Answer(Answer::ObjectType { tag, class }),
        Err(code) => Replied::Error(code),
    }
}

// The values of fields, or why there are none.
fn field_values(
    alloc: Global,
    world: &World,
    object: ObjectId,
    fields: &[FieldId],
) -> Result<Replied, NoMemory>
    ensures { IfOk result (λ replied. replied ≡ living_reply world.now (questions.GetFields object fields.now)) }
{
    match fields_of_object(alloc, world, object, fields)? {
        Ok(values) => Ok(Replied::Answer(Answer::GetFields(values))),
        Err(code) => Ok(Replied::Error(code)),
    }
}

// The text of a string, or why there is none.
fn string(alloc: Global, world: &World, object: ObjectId) -> Result<Replied, NoMemory>
    ensures { IfOk result (λ replied. replied ≡ living_reply world.now (questions.StringValue object)) }
{
    match text_copy(alloc, text_in(world, object))? {
        Ok(text) => Ok(Replied::Answer(Answer::StringValue(text))),
        Err(code) => Ok(Replied::Error(code)),
    }
}

// The name of a thread, or why there is none.
fn thread_name(alloc: Global, world: &World, thread: ThreadId) -> Result<Replied, NoMemory>
    ensures { IfOk result (λ replied. replied ≡ living_reply world.now (questions.ThreadName thread)) }
{
    match text_copy(alloc, name_in(world, thread))? {
        Ok(name) => Ok(Replied::Answer(Answer::ThreadName(name))),
        Err(code) => Ok(Replied::Error(code)),
    }
}

// Frames of a thread, or why there are none.
fn frames(
    alloc: Global,
    world: &World,
    thread: ThreadId,
    start: i32,
    length: i32,
) -> Result<Replied, NoMemory>
    ensures { IfOk result (λ replied. replied ≡ living_reply world.now (questions.Frames thread start length)) }
{
    match frames_in(alloc, world, thread, start, length)? {
        Ok(frames) => Ok(Replied::Answer(Answer::Frames(frames))),
        Err(code) => Ok(Replied::Error(code)),
    }
}

// The number of frames, or why there is none.
fn frame_count(alloc: Global, world: &World, thread: ThreadId) -> Result<Replied, NoMemory>
    ensures { IfOk result (λ replied. replied ≡ living_reply world.now (questions.FrameCount thread)) }
{
    match frame_count_in(alloc, world, thread)? {
        Ok(count) => Ok(Replied::Answer(Answer::FrameCount(count))),
        Err(code) => Ok(Replied::Error(code)),
    }
}

// The length of an array, or why there is none.
fn array_length(world: &World, array: ObjectId) -> Replied
    ensures { result ≡ living_reply world.now (questions.ArrayLength array) }
{
    match length_in(world, array) {
        Ok(length) => Replied::Answer(Answer::ArrayLength(length)),
        Err(code) => Replied::Error(code),
    }
}

// Elements of an array, or why there are none.
fn elements(
    alloc: Global,
    world: &World,
    array: ObjectId,
    first: i32,
    length: i32,
) -> Result<Replied, NoMemory>
    ensures { IfOk result (λ replied. replied ≡ living_reply world.now (questions.GetElements array first length)) }
{
    match elements_in(alloc, world, array, first, length)? {
        Ok(region) => Ok(Replied::Answer(Answer::GetElements(region))),
        Err(code) => Ok(Replied::Error(code)),
    }
}

// The values of slots, or why there are none.
fn slots(
    alloc: Global,
    world: &World,
    thread: ThreadId,
    frame: FrameId,
    slots: &[Slot],
) -> Result<Replied, NoMemory>
    ensures { IfOk result (λ replied. replied ≡ living_reply world.now (questions.GetSlots thread frame slots.now)) }
{
    match slots_in(alloc, world, thread, frame, slots)? {
        Ok(values) => Ok(Replied::Answer(Answer::GetSlots(values))),
        Err(code) => Ok(Replied::Error(code)),
    }
}

// The object of a frame, or why there is none.
fn this_object(world: &World, thread: ThreadId, frame: FrameId) -> Replied
    ensures { result ≡ living_reply world.now (questions.ThisObject thread frame) }
{
    match this_in(world, thread, frame) {
        Ok(value) => Replied::Answer(Answer::ThisObject(value)),
        Err(code) => Replied::Error(code),
    }
}

// The reply of a target that has not ended.
fn living_reply(alloc: Global, world: &World, question: &Question) -> Result<Replied, NoMemory>
    ensures { IfOk result (λ replied. replied ≡ living_reply world.now question.now) }
{
    match question {
        Question::ClassesBySignature(signature) => classes(alloc, world, signature.as_slice()),
        Question::AllClasses => Ok(Replied::Answer(Answer::AllClasses(all_classes(alloc, world)?))),
        Question::AllThreads => Ok(Replied::Answer(Answer::AllThreads(all_threads(alloc, world)?))),
        Question::IdSizes => Ok(Replied::Answer(sizes_answer(&world.sizes))),
        Question::Signature(class) => signature(alloc, world, *class),
        Question::Fields(class) => fields(alloc, world, *class),
        Question::Methods(class) => methods(alloc, world, *class),
        Question::SourceFile(class) => source(alloc, world, *class),
        Question::Superclass(class) => Ok(above(world, *class)),
        Question::LineTable { class, method } => lines(alloc, world, *class, *method),
        Question::VariableTable { class, method } => variables(alloc, world, *class, *method),
        Question::ObjectType(object) => Ok(object_type(world, *object)),
        Question::GetFields { object, fields } => {
            field_values(alloc, world, *object, fields.as_slice())
        }
        Question::StringValue(object) => string(alloc, world, *object),
        Question::ThreadName(thread) => thread_name(alloc, world, *thread),
        Question::Frames {
            thread,
            start,
            length,
        } => frames(alloc, world, *thread, *start, *length),
        Question::FrameCount(thread) => frame_count(alloc, world, *thread),
        Question::ArrayLength(array) => Ok(array_length(world, *array)),
        Question::GetElements {
            array,
            first,
            length,
        } => elements(alloc, world, *array, *first, *length),
        Question::GetSlots {
            thread,
            frame,
            slots: asked,
        } => slots(alloc, world, *thread, *frame, asked.as_slice()),
        Question::ThisObject { thread, frame } => Ok(this_object(world, *thread, *frame)),
    }
}

impl World {
    /// What the target replies to a question; one that has ended replies so to all. `NoMemory` comes where memory is
    /// refused (JDWP, Detailed Command Information).
    pub fn reply(&self, alloc: Global, question: &Question) -> Result<Replied, NoMemory>
        ensures { IfOk result (λ replied. replied ≡ reply_of self.now question.now) }
    {
        if self.dead {
            return Ok(Replied::Error(VM_DEAD));
        }
        living_reply(alloc, self, question)
    }
}
