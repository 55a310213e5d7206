use wire_core::{List, NoMemory, Text};

/// What a body says: a request to answer, or a message of another kind, which is passed over.
/// (DAP specification, Base Protocol, ProtocolMessage)
#[derive(Drop)]
pub enum Incoming {
    Request(Request),
    Ignored,
}

/// Why a body was not read: memory was refused; it is no JSON in UTF-8; or the JSON is no message of the base protocol.
/// (DAP specification, Base Protocol, ProtocolMessage)
#[derive(Clone, Copy, Debug, Drop, PartialEq, Eq)]
pub enum ReadFault {
    NoMemory,
    NotJson,
    NotAMessage,
}

impl From<NoMemory> for ReadFault {
    ghost use Rattle.std.specs.Prelude.{◌≡◌};
    ghost use Rattle.dap_messages.specs.declared.requests.ReadFault.TheVariants.{NoMemory as refused_memory};

    ghost from_gives = { λ _ fault. fault ≡ refused_memory };

    fn from(_refused: NoMemory) -> ReadFault {
        ReadFault::NoMemory
    }
}

/// A request: its sequence number, from 0 to 2^53 - 1, the name of its command as it came, and the command with its
/// arguments. (DAP specification, Base Protocol, Request)
#[derive(Drop)]
pub struct Request {
    pub seq: u64,
    pub name: Text,
    pub command: Command,
}

/// The command of a request, with the arguments that its row of the specification names.
/// (DAP specification, Requests)
#[derive(Drop)]
pub enum Command {
    Initialize(InitializeArguments),
    Attach(AttachArguments),
    ConfigurationDone,
    SetBreakpoints(SetBreakpointsArguments),
    SetFunctionBreakpoints(SetFunctionBreakpointsArguments),
    SetExceptionBreakpoints(SetExceptionBreakpointsArguments),
    Threads,
    Continue(ThreadArguments),
    Next(ThreadArguments),
    StepIn(ThreadArguments),
    StepOut(ThreadArguments),
    Pause(ThreadArguments),
    ExceptionInfo(ThreadArguments),
    StackTrace(StackTraceArguments),
    Scopes(ScopesArguments),
    Variables(VariablesArguments),
    SetVariable(SetVariableArguments),
    Evaluate(EvaluateArguments),
    Disconnect(DisconnectArguments),
    /// A command that this adapter doesn't have.
    Unsupported,
    /// A command of this adapter, with the name of its first argument that breaks its rule.
    BadArguments(Text),
}

/// Arguments of `initialize`, with the defaults of the specification in place of those that are missing.
/// (DAP specification, Initialize request)
#[derive(Drop)]
pub struct InitializeArguments {
    pub adapter_id: Text,
    pub lines_start_at1: bool,
    pub columns_start_at1: bool,
    pub supports_variable_type: bool,
}

/// Arguments of `attach`: the folders that sources stand in, at least one, as the client wrote them.
/// (DAP specification, Attach request)
#[derive(Drop)]
pub struct AttachArguments {
    pub source_roots: List<Text>,
}

/// Arguments of `setBreakpoints`: the source's path as the client wrote it, and its breakpoints in the client's order,
/// which take the place of all that it had there. (DAP specification, SetBreakpoints request)
#[derive(Drop)]
pub struct SetBreakpointsArguments {
    pub path: Text,
    pub breakpoints: List<SourceBreakpoint>,
}

/// A breakpoint that is asked for: its line, from 0 to 2^31 - 1 in the client's counting, and whether it is plain,
/// that is without a condition, a hit condition and a log message. (DAP specification, Types, SourceBreakpoint)
#[derive(Clone, Copy, Drop, PartialEq, Eq)]
pub struct SourceBreakpoint {
    pub line: u32,
    pub plain: bool,
}

/// Arguments of `setFunctionBreakpoints`: the functions to stop in, in the client's order, which take the place of all
/// that were there. (DAP specification, SetFunctionBreakpoints request)
#[derive(Drop)]
pub struct SetFunctionBreakpointsArguments {
    pub breakpoints: List<FunctionBreakpoint>,
}

/// A function to stop in: its name as the client wrote it, and whether it is plain, that is without a condition and a hit
/// condition. (DAP specification, Types, FunctionBreakpoint)
#[derive(Drop)]
pub struct FunctionBreakpoint {
    pub name: Text,
    pub plain: bool,
}

/// Arguments of `setExceptionBreakpoints`: whether its filters name `caught`, and whether they name `uncaught`; other
/// filters are passed over. (DAP specification, SetExceptionBreakpoints request, `filters`)
#[derive(Clone, Copy, Drop, PartialEq, Eq)]
pub struct SetExceptionBreakpointsArguments {
    pub caught: bool,
    pub uncaught: bool,
}

/// Arguments of `continue`, `next`, `stepIn`, `stepOut`, `pause` and `exceptionInfo`: the number of a thread, from 0 to
/// 2^31 - 1. (DAP specification, Continue, Next, StepIn, StepOut, Pause and ExceptionInfo request)
#[derive(Clone, Copy, Drop, PartialEq, Eq)]
pub struct ThreadArguments {
    pub thread_id: u32,
}

/// Arguments of `stackTrace`: the number of a thread, the first of its frames that is wanted, and how many are wanted
/// at most, where 0 stands for all; each from 0 to 2^31 - 1, and the last two are 0 where they are missing.
/// (DAP specification, StackTrace request)
#[derive(Clone, Copy, Drop, PartialEq, Eq)]
pub struct StackTraceArguments {
    pub thread_id: u32,
    pub start_frame: u32,
    pub levels: u32,
}

/// Arguments of `scopes`: the number of a frame, from 0 to 2^31 - 1. (DAP specification, Scopes request)
#[derive(Clone, Copy, Drop, PartialEq, Eq)]
pub struct ScopesArguments {
    pub frame_id: u32,
}

/// Which children of a variable are wanted: all of them, those with an index, or those with a name.
/// (DAP specification, Variables request, `filter`)
#[derive(Clone, Copy, Drop, PartialEq, Eq)]
pub enum Filter {
    Both,
    Indexed,
    Named,
}

/// Arguments of `variables`: the reference of the variables that are wanted, which of them are, the first of them, and
/// how many at most, where 0 stands for all. Each number is from 0 to 2^31 - 1. A filter that is missing stands for
/// both kinds, and the last two are 0 where they are missing. (DAP specification, Variables request)
#[derive(Clone, Copy, Drop, PartialEq, Eq)]
pub struct VariablesArguments {
    pub variables_reference: u32,
    pub filter: Filter,
    pub start: u32,
    pub count: u32,
}

/// Arguments of `setVariable`: the reference of the variables that one is set among, from 0 to 2^31 - 1, its name, and
/// its new value in words. (DAP specification, SetVariable request)
#[derive(Drop)]
pub struct SetVariableArguments {
    pub variables_reference: u32,
    pub name: Text,
    pub value: Text,
}

/// Arguments of `evaluate`: the expression, and the number of the frame that it is read in, from 0 to 2^31 - 1.
/// (DAP specification, Evaluate request)
#[derive(Drop)]
pub struct EvaluateArguments {
    pub expression: Text,
    pub frame_id: u32,
}

/// Arguments of `disconnect`: whether the target has to end, which it doesn't where that is missing.
/// (DAP specification, Disconnect request)
#[derive(Clone, Copy, Drop, PartialEq, Eq)]
pub struct DisconnectArguments {
    pub terminate_debuggee: bool,
}
