//! The requests of a dump.
ghost use Rattle.std.specs.Prelude.{◌≡◌, IfOk};
ghost use Rattle.serde_json.specs.View.{view};
ghost use Rattle.dump_client.specs.Requests.{arguments_of, command_of, is_over, request_of};

use request_frames::request_frame;
use serde_json::{Value, json};
use std::alloc::{AllocError, Global};
use wire_core::{Blob, NoMemory};

/// What a dump asks for next, or has asked for and waits for: of a thread by its number, of a frame by its, of variables by
/// their reference (DAP specification, Requests).
#[derive(Clone, Copy)]
pub enum Due {
    Initialize,
    Attach,
    ConfigurationDone,
    /// The threads of which the first one is paused.
    FirstThreads,
    Pause(u64),
    /// The threads that are shown.
    Threads,
    StackTrace(u64),
    Scopes(u64),
    Variables(u64),
    Continue(u64),
    Disconnect,
    /// All was asked for.
    Nothing,
}

impl Due {
    /// Whether all was asked for.
    pub fn is_over(self) -> bool
        ensures { result ≡ is_over self }
    {
        matches!(self, Due::Nothing)
    }

    fn command(self) -> &'static str
        ensures { result.now ≡ command_of self }
    {
        match self {
            Due::Initialize => "initialize",
            Due::Attach => "attach",
            Due::ConfigurationDone => "configurationDone",
            Due::FirstThreads => "threads",
            Due::Pause(_) => "pause",
            Due::Threads => "threads",
            Due::StackTrace(_) => "stackTrace",
            Due::Scopes(_) => "scopes",
            Due::Variables(_) => "variables",
            Due::Continue(_) => "continue",
            Due::Disconnect => "disconnect",
            Due::Nothing => "",
        }
    }

    fn arguments(self, alloc: Global) -> Result<Value, AllocError>
        ensures { IfOk result (λ value. view value ≡ arguments_of self) }
    {
        match self {
            Due::Initialize => initialize_arguments(alloc),
            Due::Attach => attach_arguments(alloc),
            Due::ConfigurationDone => no_arguments(alloc),
            Due::FirstThreads => no_arguments(alloc),
            Due::Pause(thread) => thread_arguments(alloc, thread),
            Due::Threads => no_arguments(alloc),
            Due::StackTrace(thread) => stack_trace_arguments(alloc, thread),
            Due::Scopes(frame) => scopes_arguments(alloc, frame),
            Due::Variables(reference) => variables_arguments(alloc, reference),
            Due::Continue(thread) => thread_arguments(alloc, thread),
            Due::Disconnect => no_arguments(alloc),
            Due::Nothing => no_arguments(alloc),
        }
    }

    /// The frame of the request with this sequence number; `NoMemory` comes where memory is refused.
    pub(crate) fn request(self, alloc: Global, seq: u64) -> Result<Blob, NoMemory>
        ensures { IfOk result (λ frame. frame ≡ request_of seq self) }
    {
        let arguments = self.arguments(alloc)?;
        request_frame(alloc, seq, self.command(), &arguments)
    }
}

fn initialize_arguments(alloc: Global) -> Result<Value, AllocError>
    ensures { IfOk result (λ value. view value ≡ arguments_of Due.Initialize) }
{
    json!(in alloc; { "adapterID": "dump", "supportsVariableType": true })
}

fn attach_arguments(alloc: Global) -> Result<Value, AllocError>
    ensures { IfOk result (λ value. view value ≡ arguments_of Due.Attach) }
{
    json!(in alloc; { "sourceRoots": ["/"] })
}

fn no_arguments(alloc: Global) -> Result<Value, AllocError>
    ensures { IfOk result (λ value. view value ≡ arguments_of Due.Nothing) }
{
    json!(in alloc; {})
}

fn thread_arguments(alloc: Global, thread: u64) -> Result<Value, AllocError>
    ensures { IfOk result (λ value. view value ≡ arguments_of (Due.Pause thread)) }
{
    json!(in alloc; { "threadId": thread })
}

fn stack_trace_arguments(alloc: Global, thread: u64) -> Result<Value, AllocError>
    ensures { IfOk result (λ value. view value ≡ arguments_of (Due.StackTrace thread)) }
{
    json!(in alloc; { "levels": 10000, "threadId": thread })
}

fn scopes_arguments(alloc: Global, frame: u64) -> Result<Value, AllocError>
    ensures { IfOk result (λ value. view value ≡ arguments_of (Due.Scopes frame)) }
{
    json!(in alloc; { "frameId": frame })
}

fn variables_arguments(alloc: Global, reference: u64) -> Result<Value, AllocError>
    ensures { IfOk result (λ value. view value ≡ arguments_of (Due.Variables reference)) }
{
    json!(in alloc; { "variablesReference": reference })
}
