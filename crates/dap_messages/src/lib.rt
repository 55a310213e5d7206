//! Messages of the Debug Adapter Protocol: requests read from JSON bodies, responses and events written as JSON text.
#![tactic(auto)]

mod arguments;
mod bodies;
mod breakpoints;
mod events;
mod exceptions;
mod failures;
mod frame_bodies;
mod objects;
mod read;
mod requests;
mod rows;
mod told;
mod value_bodies;
mod variable_bodies;
mod write;

pub use read::read_request;
pub use requests::{
    AttachArguments, Command, DisconnectArguments, EvaluateArguments, Filter, FunctionBreakpoint,
    Incoming, InitializeArguments, ReadFault, Request, ScopesArguments, SetBreakpointsArguments,
    SetExceptionBreakpointsArguments, SetFunctionBreakpointsArguments, SetVariableArguments,
    SourceBreakpoint, StackTraceArguments, ThreadArguments, VariablesArguments,
};
pub use told::{
    BreakMode, Breakpoint, BreakpointStatus, Detail, Evaluated, Event, Failure, Outcome, Response,
    Shape, Source, StackFrame, StopReason, Stopped, Thread, ThreadChange, Told, Variable, Written,
};
pub use write::{message_of, text_of};
