use wire_core::{List, Text};

/// A message that the adapter tells its client. (DAP specification, Base Protocol, ProtocolMessage)
#[derive(Drop)]
pub enum Told {
    Response(Response),
    Event(Event),
}

/// The response to a request: the request's sequence number and command, and what came of it.
/// (DAP specification, Base Protocol, Response)
#[derive(Drop)]
pub struct Response {
    pub request_seq: u64,
    pub command: Text,
    pub outcome: Outcome,
}

/// What came of a request: a body, or a failure. (DAP specification, Base Protocol, Response and ErrorResponse)
#[derive(Drop)]
pub enum Outcome {
    Success(Shape),
    Failure(Failure),
}

/// The body of a response that succeeds, a variant for each form of body.
#[derive(Drop)]
pub enum Shape {
    /// No body.
    Nothing,
    /// What the adapter can do, the body of `initialize`. (DAP specification, Types, Capabilities)
    Capabilities,
    /// Breakpoints in the order in which they were asked for, the body of `setBreakpoints` and `setFunctionBreakpoints`.
    /// (DAP specification, SetBreakpoints and SetFunctionBreakpoints request)
    Breakpoints(List<Breakpoint>),
    /// The threads of the target, the body of `threads`. (DAP specification, Threads request)
    Threads(List<Thread>),
    /// Frames of a thread from the top down, and how many it has in all, the body of `stackTrace`.
    /// (DAP specification, StackTrace request)
    StackFrames {
        frames: List<StackFrame>,
        total: u32,
    },
    /// The one scope of a frame, by the reference of its variables, the body of `scopes`.
    /// (DAP specification, Scopes request; Types, Scope)
    Scopes(u32),
    /// Variables in the order in which they are shown, the body of `variables`. (DAP specification, Variables request)
    Variables(List<Variable>),
    /// What a variable was set to, the body of `setVariable`. (DAP specification, SetVariable request)
    Written(Written),
    /// What an expression stands for, the body of `evaluate`. (DAP specification, Evaluate request)
    Evaluated(Evaluated),
    /// All threads go on, the body of `continue`. (DAP specification, Continue request)
    Continued,
    /// What was thrown, by the name of its type, and whether it is broken at always or only where nothing catches it, the
    /// body of `exceptionInfo`. (DAP specification, ExceptionInfo request)
    ExceptionInfo {
        id: Text,
        mode: BreakMode,
    },
}

/// When a thread stops at an exception. (DAP specification, Types, ExceptionBreakMode)
#[derive(Clone, Copy, Drop, PartialEq, Eq)]
pub enum BreakMode {
    Always,
    /// Nothing catches it.
    Unhandled,
}

/// A thread of the target: the number that the client knows it by, and its name. (DAP specification, Types, Thread)
#[derive(Drop)]
pub struct Thread {
    pub id: u64,
    pub name: Text,
}

/// A source: its name and its path. (DAP specification, Types, Source)
#[derive(Drop)]
pub struct Source {
    pub name: Text,
    pub path: Text,
}

/// A frame of a thread's stack: the number that the client knows it by, its name, its line and column in the client's
/// counting, and its source, where one is known. (DAP specification, Types, StackFrame)
#[derive(Drop)]
pub struct StackFrame {
    pub id: u32,
    pub name: Text,
    pub line: i64,
    pub column: u32,
    pub source: Option<Source>,
}

/// A variable: its name, its value in words, its type in words where that is shown, how many children with an index it
/// has where it has such ones, and the reference of its children, which is 0 where it has none.
/// (DAP specification, Types, Variable)
#[derive(Drop)]
pub struct Variable {
    pub name: Text,
    pub value: Text,
    pub kind: Option<Text>,
    pub indexed: Option<u32>,
    pub reference: u32,
}

/// What a variable was set to: its new value in words, and its type in words where that is shown. It has no children.
/// (DAP specification, SetVariable request, `value` and `type`)
#[derive(Drop)]
pub struct Written {
    pub value: Text,
    pub kind: Option<Text>,
}

/// What an expression stands for: its value in words, its type in words where that is shown, how many children with an
/// index it has where it has such ones, and the reference of its children, which is 0 where it has none.
/// (DAP specification, Evaluate request, `result`, `type`, `indexedVariables` and `variablesReference`)
#[derive(Drop)]
pub struct Evaluated {
    pub result: Text,
    pub kind: Option<Text>,
    pub indexed: Option<u32>,
    pub reference: u32,
}

/// A breakpoint: the number that the client knows it by, its line in the client's counting where it is one of a source, and
/// how it stands. (DAP specification, Types, Breakpoint)
#[derive(Clone, Copy, Drop, PartialEq, Eq)]
pub struct Breakpoint {
    pub id: u64,
    pub line: Option<u32>,
    pub status: BreakpointStatus,
}

/// How a breakpoint stands: the target stops at it, or why it doesn't.
/// (DAP specification, Types, Breakpoint, `verified` and `message`)
#[derive(Clone, Copy, Drop, PartialEq, Eq)]
pub enum BreakpointStatus {
    /// The target stops there.
    Verified,
    /// Its source stands in none of the folders that `attach` named.
    NoSourceRoot,
    /// It has a condition, a hit condition or a log message, and the adapter takes none.
    ConditionsUnsupported,
    /// The target answered its event request with an error.
    RefusedByTarget,
    /// No class that is loaded has code at its line yet, or has the method of a function.
    NotBoundYet,
}

/// Why a request failed: its code, which decides the message, and what the message is followed by. A code that none of
/// `Failure`'s functions gives has an empty message. (DAP specification, Types, Message)
#[derive(Drop)]
pub struct Failure {
    pub code: u8,
    pub detail: Detail,
}

/// What follows the message of a failure, behind a space: nothing, a number in decimal, or a name.
#[derive(Drop)]
pub enum Detail {
    Plain,
    Number(u64),
    Name(Text),
}

/// The start or the end of a thread: whether it started, and the number that the client knows it by. (DAP specification,
/// Events, Thread, `reason` and `threadId`)
#[derive(Clone, Copy, Drop, PartialEq, Eq)]
pub struct ThreadChange {
    pub started: bool,
    pub id: u64,
}

/// The target stands still: why, and the number of the thread that the reason speaks of.
/// (DAP specification, Events, Stopped)
#[derive(Drop)]
pub struct Stopped {
    pub reason: StopReason,
    pub thread: u64,
}

/// Why the target stands still. (DAP specification, Events, Stopped, `reason`, `hitBreakpointIds` and `text`)
#[derive(Drop)]
pub enum StopReason {
    /// A breakpoint of a source was hit; these breakpoints stand there, by their ids.
    Breakpoint(List<u64>),
    /// A breakpoint of a function was hit; these breakpoints stand there, by their ids.
    FunctionBreakpoint(List<u64>),
    /// An exception was thrown; the name of its type, where that is known.
    Exception(Option<Text>),
    /// A step has ended.
    Step,
    /// The client asked for it.
    Pause,
}

/// An event that the adapter tells without being asked. (DAP specification, Base Protocol, Event)
#[derive(Drop)]
pub enum Event {
    /// The adapter takes breakpoints now. (DAP specification, Events, Initialized)
    Initialized,
    /// A breakpoint stands otherwise than the client was told. (DAP specification, Events, Breakpoint)
    Breakpoint(Breakpoint),
    /// A thread of the target has started or ended. (DAP specification, Events, Thread)
    Thread(ThreadChange),
    /// The target stands still. (DAP specification, Events, Stopped)
    Stopped(Stopped),
    /// A breakpoint logs this. (DAP specification, Events, Output)
    Output(Text),
    /// Nothing more comes of the debuggee. (DAP specification, Events, Terminated)
    Terminated,
}
