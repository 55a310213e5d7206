use crate::listed::{ClassStatus, Frame, LoadedClass};
use crate::region::Region;
use jdwp_values::{ClassId, Field, LineTable, Method, ThreadId, TypeTag, Value, Variable};
use wire_core::{Blob, List};

/// What the target answers, by the command that was asked (JDWP, Detailed Command Information).
#[derive(Debug, Drop)]
pub enum Answer {
    ClassesBySignature(List<ClassStatus>),
    AllClasses(List<LoadedClass>),
    AllThreads(List<ThreadId>),
    /// How many bytes an id of each kind takes, as the target says it: any numbers, also such that no id has.
    IdSizes {
        field: u32,
        method: u32,
        object: u32,
        class: u32,
        frame: u32,
    },
    Signature(Blob),
    Fields(List<Field>),
    Methods(List<Method>),
    SourceFile(Blob),
    /// The class above; 0 where there is none.
    Superclass(ClassId),
    LineTable(LineTable),
    /// The slots that the arguments take, and the variables.
    VariableTable {
        arguments: i32,
        variables: List<Variable>,
    },
    ObjectType {
        tag: TypeTag,
        class: ClassId,
    },
    GetFields(List<Value>),
    StringValue(Blob),
    ThreadName(Blob),
    Frames(List<Frame>),
    /// How many frames the thread has.
    FrameCount(u32),
    /// How many elements the array has.
    ArrayLength(u32),
    GetElements(Region),
    GetSlots(List<Value>),
    /// The object whose method runs; with the id 0 where there is none.
    ThisObject(Value),
    Dispose,
    Suspend,
    Resume,
    Exit,
    SetField,
    SetElement,
    /// The number of the event request.
    Set(u32),
    Clear,
    SetSlot,
}
