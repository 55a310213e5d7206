ghost use Rattle.std.specs.Prelude.{◌≡◌};
ghost use Rattle.jdwp_commands.specs.Answers.{frames_limit, elements_limit, limit_of_question};
ghost use Rattle.jdwp_commands.specs.Commands.{kind_of_question};

use crate::kind::QuestionKind;
use crate::listed::Slot;
use jdwp_values::{ClassId, FieldId, FrameId, Limit, MethodId, ObjectId, ThreadId};
use wire_core::{Blob, List};

/// A command that asks the target something and changes nothing (JDWP, Detailed Command Information).
#[derive(Debug, Drop)]
pub enum Question {
    ClassesBySignature(Blob),
    AllClasses,
    AllThreads,
    IdSizes,
    Signature(ClassId),
    Fields(ClassId),
    Methods(ClassId),
    SourceFile(ClassId),
    Superclass(ClassId),
    LineTable {
        class: ClassId,
        method: MethodId,
    },
    VariableTable {
        class: ClassId,
        method: MethodId,
    },
    ObjectType(ObjectId),
    GetFields {
        object: ObjectId,
        fields: List<FieldId>,
    },
    StringValue(ObjectId),
    ThreadName(ThreadId),
    /// So many frames from the start on; -1 asks for all that remain.
    Frames {
        thread: ThreadId,
        start: i32,
        length: i32,
    },
    FrameCount(ThreadId),
    ArrayLength(ObjectId),
    GetElements {
        array: ObjectId,
        first: i32,
        length: i32,
    },
    GetSlots {
        thread: ThreadId,
        frame: FrameId,
        slots: List<Slot>,
    },
    ThisObject {
        thread: ThreadId,
        frame: FrameId,
    },
}

impl Question {
    /// Which question it is.
    pub fn kind(&self) -> QuestionKind
        ensures { result ≡ kind_of_question self.now }
    {
        match self {
            Question::ClassesBySignature(_) => QuestionKind::ClassesBySignature,
            Question::AllClasses => QuestionKind::AllClasses,
            Question::AllThreads => QuestionKind::AllThreads,
            Question::IdSizes => QuestionKind::IdSizes,
            Question::Signature(_) => QuestionKind::Signature,
            Question::Fields(_) => QuestionKind::Fields,
            Question::Methods(_) => QuestionKind::Methods,
            Question::SourceFile(_) => QuestionKind::SourceFile,
            Question::Superclass(_) => QuestionKind::Superclass,
            Question::LineTable { .. } => QuestionKind::LineTable,
            Question::VariableTable { .. } => QuestionKind::VariableTable,
            Question::ObjectType(_) => QuestionKind::ObjectType,
            Question::GetFields { .. } => QuestionKind::GetFields,
            Question::StringValue(_) => QuestionKind::StringValue,
            Question::ThreadName(_) => QuestionKind::ThreadName,
            Question::Frames { .. } => QuestionKind::Frames,
            Question::FrameCount(_) => QuestionKind::FrameCount,
            Question::ArrayLength(_) => QuestionKind::ArrayLength,
            Question::GetElements { .. } => QuestionKind::GetElements,
            Question::GetSlots { .. } => QuestionKind::GetSlots,
            Question::ThisObject { .. } => QuestionKind::ThisObject,
        }
    }

    /// How many items the list or the region in its answer may have: as many as fields, elements or slots were asked
    /// for, at most as many as frames were, any number else, as of -1 frames. Nothing answers another negative length.
    pub fn limit(&self) -> Limit
        ensures { result ≡ limit_of_question self.now }
    {
        match self {
            Question::GetFields { fields, .. } => Limit::Exactly(fields.len()),
            Question::Frames { length, .. } => limit_of_frames(*length),
            Question::GetElements { length, .. } => limit_of_elements(*length),
            Question::GetSlots { slots, .. } => Limit::Exactly(slots.len()),
            _ => Limit::Any,
        }
    }
}

fn limit_of_frames(length: i32) -> Limit
    ensures { result ≡ frames_limit length }
{
    if length < -1 {
        Limit::Never
    } else if length < 0 {
        Limit::Any
    } else {
        Limit::AtMost(length as usize)
    }
}

fn limit_of_elements(length: i32) -> Limit
    ensures { result ≡ elements_limit length }
{
    if length < 0 {
        Limit::Never
    } else {
        Limit::Exactly(length as usize)
    }
}
