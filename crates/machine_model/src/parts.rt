//! What an item does, part by part.

use crate::options::ClientOptions;
use crate::texts::Texts;
use break_rules::{Condition, Hit, Template};
use dap_messages::{BreakMode, Failure, Filter, Source};
use field_exprs::Expr;
use jdwp_values::{ClassId, FieldId, FrameId, Location, ObjectId, ThreadId, Value};
use stop_refs::{FrameThing, Thing};
use wire_core::{Blob, List, Text};
use wish_sets::{EntryAt, FunctionEntry, LineEntry, StepWish, VerifiedEntry};

/// A thread, and the name that the target gave it (JDWP, ThreadReference command set, Name).
#[derive(Drop)]
pub struct NamedThread {
    pub thread: ThreadId,
    pub name: Blob,
}

/// A breakpoint that the client listed: the id that it got, its line as the client counts lines where it is one of a source,
/// and whether it is plain, without a condition, a count of hits and a message to log (DAP specification, Types,
/// SourceBreakpoint, FunctionBreakpoint and Breakpoint).
#[derive(Clone, Copy, PartialEq, Eq)]
pub struct ListedBreakpoint {
    pub id: u64,
    pub line: Option<u32>,
    pub plain: bool,
}

/// A thread came to a place where this breakpoint stands (JDWP, Event command set, Composite, Breakpoint).
#[derive(Clone, Copy, PartialEq, Eq)]
pub struct Strike {
    pub thread: ThreadId,
    pub at: Location,
    pub entry: EntryAt,
}

/// Where a frame stands: in this source, at this line as the target counts lines (DAP specification, Types, StackFrame,
/// source and line).
#[derive(Drop)]
pub struct Spot {
    pub source: Source,
    pub line: i32,
}

/// A frame, the name of its class and method, and where it stands, if that is known (DAP specification, Types, StackFrame).
#[derive(Drop)]
pub struct ShownFrame {
    pub frame: FrameThing,
    pub name: Text,
    pub spot: Option<Spot>,
}

/// A value as it is shown: its text, its type where the client asked for types, its length where it is an array, and the
/// container that it is, if it has children (DAP specification, Types, Variable).
#[derive(Drop)]
pub struct Seen {
    pub text: Text,
    pub kind: Option<Text>,
    pub indexed: Option<u32>,
    pub thing: Option<Thing>,
}

/// A child of a container, by its name, and its value (DAP specification, Types, Variable).
#[derive(Drop)]
pub struct ShownVariable {
    pub name: Text,
    pub seen: Seen,
}

/// One of the three texts that rule a breakpoint (DAP specification, Types, SourceBreakpoint, condition, hitCondition and
/// logMessage).
#[derive(Clone, Copy, PartialEq, Eq)]
pub enum RuleText {
    Condition,
    Hit,
    Log,
}

/// What the client says of a breakpoint, by its id: its condition, its hit condition and its message to log, where it has
/// one; and how often it was passed since it was set (DAP specification, Types, SourceBreakpoint and FunctionBreakpoint).
#[derive(Drop)]
pub struct Ruled {
    pub id: u64,
    pub condition: Option<Condition>,
    pub hit: Option<Hit>,
    pub log: Option<Template>,
    pub passed: u64,
}

/// What hits come to: the breakpoints that were passed, in order, one as often as it was; the texts that are logged; and
/// what stops (DAP specification, Types, SourceBreakpoint, condition, hitCondition and logMessage).
#[derive(Drop)]
pub struct Judgement {
    pub passed: List<u64>,
    pub logged: List<Text>,
    pub stops: List<Strike>,
}

/// What a response that succeeds shows, by the target's ids; its numbers are given when it is told.
#[derive(Drop)]
pub enum Body {
    Nothing,
    Capabilities,
    /// The breakpoints of a list, and whether each can be bound: one of a source has to stand in a folder of sources. How
    /// each stands is found when it is told.
    Breakpoints {
        rooted: bool,
        listed: List<ListedBreakpoint>,
    },
    Threads(List<NamedThread>),
    /// Frames of a thread, and how many it has in all.
    StackFrames {
        total: u32,
        frames: List<ShownFrame>,
    },
    /// The one scope of a frame: its variables.
    Scopes(FrameThing),
    /// Children of a container.
    Variables(List<ShownVariable>),
    /// The value of an expression.
    Value(Seen),
    /// A value that was written.
    Written(Seen),
    /// The whole target runs on.
    Continued,
    /// The type of what was thrown, and when a thread stops at it.
    Exception {
        id: Text,
        mode: BreakMode,
    },
}

/// What comes of a request (DAP specification, Base Protocol, Response and ErrorResponse).
#[derive(Drop)]
pub enum Outcome {
    Success(Body),
    Failure(Failure),
}

/// What has changed in the target (DAP specification, Events, Breakpoint and Thread).
#[derive(Clone, Copy, PartialEq, Eq)]
pub enum News {
    /// A breakpoint is verified, which the client doesn't know yet.
    Verified(VerifiedEntry),
    /// A thread has started, or has ended.
    Thread { started: bool, thread: ThreadId },
}

/// Why a thread stopped, as the target tells it: it came to a breakpoint at this place, it threw this object, or its step
/// has ended (JDWP, Event command set, Composite, Breakpoint, Exception and SingleStep).
#[derive(Clone, Copy, PartialEq, Eq)]
pub enum HaltCause {
    Breakpoint(Location),
    Exception(ObjectId),
    Step,
}

/// A thread that stopped under an event request that is installed, and why.
#[derive(Clone, Copy, PartialEq, Eq)]
pub struct Halt {
    pub cause: HaltCause,
    pub thread: ThreadId,
}

/// What a thread threw in a stop, and whether something catches it (JDWP, Event command set, Composite, Exception).
#[derive(Clone, Copy, PartialEq, Eq)]
pub struct Thrown {
    pub thread: ThreadId,
    pub object: ObjectId,
    pub caught: bool,
}

/// Why the target stands still: a thread came to a place where these breakpoints stop it; an exception was thrown, with the
/// name of its type where that is known; a step has ended; or the client asked for it (DAP specification, Events, Stopped, reason and text).
#[derive(Drop)]
pub enum StopCause {
    Hit(List<EntryAt>),
    Exception(Option<Text>),
    Step,
    Pause,
}

/// The target stands still: why, and the thread that it is told of (DAP specification, Events, Stopped).
#[derive(Drop)]
pub struct Stopping {
    pub cause: StopCause,
    pub thread: ThreadId,
}

/// What the client is told without asking, by the target's ids (DAP specification, Events).
#[derive(Drop)]
pub enum Event {
    Initialized,
    News(News),
    /// A breakpoint logs this (DAP specification, Events, Output).
    Logged(Text),
    Stopped(Stopping),
    Terminated,
}

/// A suspension of the whole target, by what it is held for: for the composite in hand, which brought it; for the entry
/// of a target that was started suspended; or for the stop in hand (JDWP, Constants, SuspendPolicy).
#[derive(Clone, Copy, PartialEq, Eq)]
pub enum Suspension {
    Composite,
    Entry,
    Stop,
}

/// Where a value stands: in a slot of a frame, in a field of an object, or in an array, counted from 0 (JDWP, StackFrame,
/// ObjectReference and ArrayReference command sets, SetValues).
#[derive(Clone, Copy, PartialEq, Eq)]
pub enum Store {
    Slot {
        thread: ThreadId,
        frame: FrameId,
        slot: i32,
    },
    Field {
        object: ObjectId,
        field: FieldId,
    },
    Element {
        array: ObjectId,
        index: i32,
    },
}

/// A value that is written, where to, and how many bytes an object's id takes.
#[derive(Clone, Copy, PartialEq, Eq)]
pub struct Write {
    pub store: Store,
    pub value: Value,
    pub size: u32,
}

/// What an item does to the target, but for event requests (JDWP, VirtualMachine command set; JDWP, StackFrame,
/// ObjectReference and ArrayReference command sets, SetValues).
#[derive(Clone, Copy, PartialEq, Eq)]
pub enum Deed {
    /// The whole target is suspended once more, for a stop.
    Suspend,
    /// This suspension of the whole target is undone.
    Resume(Suspension),
    Dispose,
    Exit,
    /// A value is written.
    Writes(Write),
}

/// What is looked up, and for what.
#[derive(Drop)]
pub enum Lookup {
    /// All threads and their names, for the response to `threads` (DAP specification, Threads request).
    Threads,
    /// Frames of a thread, from this one on, and so many at most, where 0 is all (DAP specification, StackTrace request).
    Frames {
        thread: ThreadId,
        start: u32,
        levels: u32,
    },
    /// Children of a container, from this one on, and so many at most, where 0 is all (DAP specification, Variables
    /// request).
    Variables {
        thing: Thing,
        filter: Filter,
        start: u32,
        count: u32,
    },
    /// The value of an expression in a frame (DAP specification, Evaluate request).
    Value {
        frame: FrameThing,
        expression: Expr,
    },
    /// Where the child of a container stands that has this name, and the value that this text is there (DAP specification,
    /// SetVariable request).
    Write {
        thing: Thing,
        name: Text,
        text: Text,
    },
    /// The type of this object that a thread threw, for the event `stopped` (DAP specification, Events, Stopped, text).
    ExceptionText {
        thread: ThreadId,
        object: ObjectId,
    },
    /// The type of what was thrown, for the response to `exceptionInfo` (DAP specification, ExceptionInfo request).
    Exception(Thrown),
    /// Which of these breakpoints are passed, what they log, and which of them stop a thread.
    Hits(List<Strike>),
    /// What has to be known of classes before breakpoints are bound in them: all classes, where a watch was set since
    /// they were listed; the source of each that is prepared and watched; the methods of those whose source is listed or
    /// that a function names, and the lines of these methods (JDWP, VirtualMachine command set, AllClasses; JDWP,
    /// ReferenceType command set, SourceFile and Methods; JDWP, Method command set, LineTable).
    Classes,
}

/// What a look-up finds.
#[derive(Drop)]
pub enum Finding {
    Threads(List<NamedThread>),
    /// Frames of a thread, and how many it has in all.
    Frames {
        total: u32,
        frames: List<ShownFrame>,
    },
    /// Children of a container.
    Variables(List<ShownVariable>),
    /// A value.
    Value(Seen),
    /// There is no such value, and why.
    NoValue(Failure),
    /// What is written, and how the value is shown.
    Write {
        write: Write,
        seen: Seen,
    },
    /// The name of a type, where it is known.
    ExceptionText(Option<Text>),
    /// The type of what was thrown, and when a thread stops at it.
    Exception {
        id: Text,
        mode: BreakMode,
    },
    /// The ids of the breakpoints that were passed, in order, one as often as it was; the texts that are logged; and what
    /// stops.
    Hits {
        passed: List<u64>,
        logged: Texts,
        stops: List<Strike>,
    },
    /// The classes whose source is listed, or that a function names.
    Classes(List<ClassId>),
}

/// What is waited for.
#[derive(Clone, Copy, PartialEq, Eq)]
pub enum Guard {
    /// Both sides of the handshake (JDWP, JDWP Start Up).
    Handshake,
    /// The sizes of the target's ids (JDWP, VirtualMachine command set, IDSizes).
    IdSizes,
}

/// What an item writes down: what the client asked for, or what breakpoints are bound by.
#[derive(Drop)]
pub enum Note {
    /// How the client wants to be served (DAP specification, Initialize request).
    Options(ClientOptions),
    /// The folders that sources stand in (DAP specification, Attach request).
    Roots(List<Text>),
    /// The breakpoints of a source, by its key, and the path under which the client listed them; without a key they are
    /// numbered, and not kept (DAP specification, SetBreakpoints request).
    Lines {
        key: Option<Text>,
        path: Text,
        entries: List<LineEntry>,
    },
    /// The functions to stop in (DAP specification, SetFunctionBreakpoints request).
    Functions(List<FunctionEntry>),
    /// Whether caught exceptions stop a thread, and whether uncaught ones do (DAP specification, SetExceptionBreakpoints
    /// request).
    Exceptions {
        caught: bool,
        uncaught: bool,
    },
    /// The step that is in flight, or that none is (DAP specification, Next, StepIn and StepOut requests).
    Step(Option<StepWish>),
    /// What was thrown, in the stop that is in hand or begins (DAP specification, ExceptionInfo request).
    Thrown(List<Thrown>),
    /// Breakpoints are bound by what is known of these classes now.
    Classes(List<ClassId>),
    /// The suspension of the composite in hand is held as the entry, until the client has configured all (JDWP, Event
    /// command set, Composite, VMStart).
    EntryHeld,
    /// The client has configured all (DAP specification, ConfigurationDone request).
    Configured,
}

/// What is decided when its turn comes.
#[derive(Drop)]
pub enum Choice {
    /// The client is told of each breakpoint that is verified now and wasn't told to be, of those with an id below this
    /// one, and then of each thread whose start or end the item tells (DAP specification, Events, Breakpoint and Thread).
    TellsNews(u64),
    /// The composite in hand has suspended the whole target: the breakpoints that threads came to are judged (JDWP, Event
    /// command set, Composite).
    Judges,
    /// They were judged. What they log is told, text by text; and where these stop the client is told of a stop, else the
    /// suspension is held as the entry, or it is undone (JDWP, Event command set, Composite).
    Decides { logged: Texts, stops: List<Strike> },
    /// The event request of a step was set, and the target runs on; or it was refused, and the request fails (DAP
    /// specification, Next, StepIn and StepOut requests).
    Stepped,
    /// A value was written, which is shown so; or it was refused, and the request fails (DAP specification, SetVariable
    /// request).
    Written(Seen),
    /// A target that is attached is left; it ends where this holds (DAP specification, Disconnect request).
    Leaves(bool),
}

/// How an item ends the session.
#[derive(Clone, Copy, PartialEq, Eq)]
pub enum Finish {
    /// `disconnect` was answered.
    Done,
    /// The composite whose packet stands at this offset suspended one thread alone, which was never asked for (JDWP,
    /// Constants, SuspendPolicy).
    OneThread(u64),
}

/// One part of what an item does. Each is done, and the tail of the list is left.
#[derive(Drop)]
pub enum Part {
    /// The response to the request.
    Responds(Outcome),
    /// An event goes to the client.
    Tells(Event),
    /// The target is changed, and the reply is waited for.
    Sends(Deed),
    /// The target is asked until the look-up is done; what it found becomes parts.
    Looks(Lookup),
    /// Something is waited for.
    Awaits(Guard),
    /// The event requests become those that are wished.
    Updates,
    /// Something is written down.
    Notes(Note),
    /// A decision becomes parts.
    Unfolds(Choice),
    /// The session ends.
    Ends(Finish),
}
