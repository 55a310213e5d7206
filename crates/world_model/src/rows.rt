//! What a world is made of.

use jdwp_events::{EventKind, Modifier, Policy};
use jdwp_values::{
    ClassId, Field, FieldId, FrameId, Line, Method, MethodId, ObjectId, Tag, ThreadId, TypeTag,
    Value, Variable,
};
use slot_values::SlotValue;
use wire_core::{Blob, List};

/// A class (JDWP, VirtualMachine command set, AllClasses).
#[derive(Debug, Drop)]
pub struct WorldClass {
    pub id: ClassId,
    pub tag: TypeTag,
    pub signature: Blob,
    /// The name of its source file, where it has one (JDWP, ReferenceType command set, SourceFile).
    pub source: Option<Blob>,
    /// The class that it extends; 0 where there is none (JDWP, ClassType command set, Superclass).
    pub above: ClassId,
    pub prepared: bool,
}

/// A method of a class, with the first and the last index of its code, and its lines where they are known (JDWP,
/// ReferenceType command set, Methods; JDWP, Method command set, LineTable). The code of a native method begins at -1.
#[derive(Debug, Drop)]
pub struct WorldMethod {
    pub class: ClassId,
    pub method: Method,
    pub start: i64,
    pub end: i64,
    pub lines: Option<List<Line>>,
}

/// A variable of a method (JDWP, Method command set, VariableTable).
#[derive(Debug, Drop)]
pub struct WorldVariable {
    pub class: ClassId,
    pub method: MethodId,
    pub variable: Variable,
}

/// A field of a class (JDWP, ReferenceType command set, Fields).
#[derive(Debug, Drop)]
pub struct WorldField {
    pub class: ClassId,
    pub field: Field,
}

/// An object that is no array, no string and no thread; its tag says what else it is (JDWP, ObjectReference command
/// set).
#[derive(Clone, Copy, Debug, PartialEq, Eq)]
pub struct WorldObject {
    pub id: ObjectId,
    pub tag: Tag,
    pub class: ClassId,
}

/// An array, with its elements (JDWP, ArrayReference command set).
#[derive(Debug, Drop)]
pub struct WorldArray {
    pub id: ObjectId,
    pub class: ClassId,
    pub values: List<Value>,
}

/// A string, with its text in UTF-8 (JDWP, StringReference command set).
#[derive(Debug, Drop)]
pub struct WorldString {
    pub id: ObjectId,
    pub class: ClassId,
    pub text: Blob,
}

/// A value that was put to a field of an object. Of several that were put to one field the last counts (JDWP,
/// ObjectReference command set, GetValues and SetValues).
#[derive(Clone, Copy, Debug, PartialEq, Eq)]
pub struct Put {
    pub object: ObjectId,
    pub field: FieldId,
    pub value: Value,
}

/// A thread that is alive (JDWP, ThreadReference command set).
#[derive(Debug, Drop)]
pub struct WorldThread {
    pub id: ThreadId,
    pub name: Blob,
}

/// A frame of a thread: the method that runs, and the index of its code where it stands, 2^64 - 1 in a native method;
/// the object whose method it is, 0 where there is none; and its slots. Of a thread's frames the innermost stands first
/// (JDWP, ThreadReference command set, Frames; JDWP, StackFrame command set).
#[derive(Debug, Drop)]
pub struct WorldFrame {
    pub thread: ThreadId,
    pub id: FrameId,
    pub class: ClassId,
    pub method: MethodId,
    pub index: u64,
    pub this: ObjectId,
    pub slots: List<SlotValue>,
}

/// An event request that is installed (JDWP, EventRequest command set, Set).
#[derive(Debug, Drop)]
pub struct Installed {
    pub request: u32,
    pub wish_kind: EventKind,
    pub policy: Policy,
    pub modifiers: List<Modifier>,
}

/// Where the thread of a step stood as its event request was set: how many frames it had, and the line of the innermost
/// one, where that has one (JDWP, EventRequest command set, Set, Step).
#[derive(Clone, Copy, Debug, PartialEq, Eq)]
pub struct StepStart {
    pub request: u32,
    pub frames: usize,
    pub line: Option<i32>,
}
