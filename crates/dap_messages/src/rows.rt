ghost use Rattle.std.specs.Prelude.{◌≡◌, IfOk};
ghost use Rattle.serde_json.specs.View.{view};
ghost use Rattle.dap_messages.specs.Arguments.{initialize_of, attach_of, thread_of, disconnect_of, IsRead};
ghost use Rattle.dap_messages.specs.Arguments.{stack_trace_of, scopes_of, variables_of, set_variable_of, evaluate_of};
ghost use Rattle.dap_messages.specs.Breakpoints.{set_breakpoints_of, set_function_breakpoints_of};
ghost use Rattle.dap_messages.specs.Exceptions.{set_exception_breakpoints_of};
ghost use Rattle.dap_messages.specs.Reading.{row_of, row_command, command_of};

use crate::arguments::{
    Argument, Refused, filter_at, flag_at, int_at, int_or, path_format_at, text_at, texts_at,
};
use crate::breakpoints::{breakpoints_at, functions_at, path_at};
use crate::exceptions::{filters_at, has_filter};
use crate::requests::{
    AttachArguments, Command, DisconnectArguments, EvaluateArguments, InitializeArguments,
    ScopesArguments, SetBreakpointsArguments, SetExceptionBreakpointsArguments,
    SetFunctionBreakpointsArguments, SetVariableArguments, StackTraceArguments, ThreadArguments,
    VariablesArguments,
};
use serde_json::Value;
use std::alloc::Global;
use wire_core::{NoMemory, Text};

/// The row of a command's name, before its arguments are looked at.
#[derive(Clone, Copy, Drop)]
pub(crate) enum Row {
    Initialize,
    Attach,
    ConfigurationDone,
    SetBreakpoints,
    SetFunctionBreakpoints,
    SetExceptionBreakpoints,
    Threads,
    Continue,
    Next,
    StepIn,
    StepOut,
    Pause,
    ExceptionInfo,
    StackTrace,
    Scopes,
    Variables,
    SetVariable,
    Evaluate,
    Disconnect,
    Unsupported,
}

fn row_of(name: &str) -> Row
    ensures { result ≡ row_of name.now }
{
    match name {
        "initialize" => Row::Initialize,
        "attach" => Row::Attach,
        "configurationDone" => Row::ConfigurationDone,
        "setBreakpoints" => Row::SetBreakpoints,
        "setFunctionBreakpoints" => Row::SetFunctionBreakpoints,
        "setExceptionBreakpoints" => Row::SetExceptionBreakpoints,
        "threads" => Row::Threads,
        "continue" => Row::Continue,
        "next" => Row::Next,
        "stepIn" => Row::StepIn,
        "stepOut" => Row::StepOut,
        "pause" => Row::Pause,
        "exceptionInfo" => Row::ExceptionInfo,
        "stackTrace" => Row::StackTrace,
        "scopes" => Row::Scopes,
        "variables" => Row::Variables,
        "setVariable" => Row::SetVariable,
        "evaluate" => Row::Evaluate,
        "disconnect" => Row::Disconnect,
        _ => Row::Unsupported,
    }
}

/// The command of a request's name and arguments.
pub(crate) fn command_of(alloc: Global, name: &str, request: &Value) -> Result<Command, NoMemory>
    ensures { IfOk result (λ command. command ≡ command_of name.now (view request.now)) }
{
    match row_command(alloc, row_of(name), request) {
        Ok(command) => Ok(command),
        Err(Refused::NoMemory) => Err(NoMemory),
        Err(Refused::Broken(argument)) => {
            let name = Text::from_str(alloc, argument.name())?;
            Ok(Command::BadArguments(name))
        }
    }
}

fn row_command(alloc: Global, row: Row, request: &Value) -> Result<Command, Refused>
    ensures { IsRead result (row_command row (view request.now)) }
{
    if matches!(row, Row::Unsupported) {
        return Ok(Command::Unsupported);
    }
    let missing = Value::Null;
    let arguments = request.get("arguments").unwrap_or(&missing);
    if !arguments.is_object() && !arguments.is_null() {
        return Err(Refused::Broken(Argument::Arguments));
    }
    match row {
        Row::Initialize => Ok(Command::Initialize(initialize_of(alloc, arguments)?)),
        Row::Attach => Ok(Command::Attach(attach_of(alloc, arguments)?)),
        Row::ConfigurationDone => Ok(Command::ConfigurationDone),
        Row::SetBreakpoints => Ok(Command::SetBreakpoints(set_breakpoints_of(alloc, arguments)?)),
        Row::SetFunctionBreakpoints => {
            let functions = set_function_breakpoints_of(alloc, arguments)?;
            Ok(Command::SetFunctionBreakpoints(functions))
        }
        Row::SetExceptionBreakpoints => {
            let exceptions = set_exception_breakpoints_of(alloc, arguments)?;
            Ok(Command::SetExceptionBreakpoints(exceptions))
        }
        Row::Threads => Ok(Command::Threads),
        Row::Continue => Ok(Command::Continue(thread_of(arguments)?)),
        Row::Next => Ok(Command::Next(thread_of(arguments)?)),
        Row::StepIn => Ok(Command::StepIn(thread_of(arguments)?)),
        Row::StepOut => Ok(Command::StepOut(thread_of(arguments)?)),
        Row::Pause => Ok(Command::Pause(thread_of(arguments)?)),
        Row::ExceptionInfo => Ok(Command::ExceptionInfo(thread_of(arguments)?)),
        Row::StackTrace => Ok(Command::StackTrace(stack_trace_of(arguments)?)),
        Row::Scopes => Ok(Command::Scopes(scopes_of(arguments)?)),
        Row::Variables => Ok(Command::Variables(variables_of(arguments)?)),
        Row::SetVariable => Ok(Command::SetVariable(set_variable_of(alloc, arguments)?)),
        Row::Evaluate => Ok(Command::Evaluate(evaluate_of(alloc, arguments)?)),
        Row::Disconnect => Ok(Command::Disconnect(disconnect_of(arguments)?)),
        Row::Unsupported => Ok(Command::Unsupported),
    }
}

fn initialize_of(alloc: Global, arguments: &Value) -> Result<InitializeArguments, Refused>
    ensures { IsRead result (initialize_of (view arguments.now)) }
{
    let adapter_id = text_at(alloc, arguments, Argument::AdapterId)?;
    let lines_start_at1 = flag_at(arguments, Argument::LinesStartAt1, true)?;
    let columns_start_at1 = flag_at(arguments, Argument::ColumnsStartAt1, true)?;
    path_format_at(arguments, Argument::PathFormat)?;
    let supports_variable_type = flag_at(arguments, Argument::SupportsVariableType, false)?;
    Ok(InitializeArguments {
        adapter_id,
        lines_start_at1,
        columns_start_at1,
        supports_variable_type,
    })
}

fn attach_of(alloc: Global, arguments: &Value) -> Result<AttachArguments, Refused>
    ensures { IsRead result (attach_of (view arguments.now)) }
{
    let source_roots = texts_at(alloc, arguments, Argument::SourceRoots)?;
    Ok(AttachArguments { source_roots })
}

fn set_breakpoints_of(alloc: Global, arguments: &Value) -> Result<SetBreakpointsArguments, Refused>
    ensures { IsRead result (set_breakpoints_of (view arguments.now)) }
{
    let path = path_at(alloc, arguments)?;
    let breakpoints = breakpoints_at(alloc, arguments)?;
    Ok(SetBreakpointsArguments { path, breakpoints })
}

fn set_function_breakpoints_of(
    alloc: Global,
    arguments: &Value,
) -> Result<SetFunctionBreakpointsArguments, Refused>
    ensures { IsRead result (set_function_breakpoints_of (view arguments.now)) }
{
    let breakpoints = functions_at(alloc, arguments)?;
    Ok(SetFunctionBreakpointsArguments { breakpoints })
}

fn set_exception_breakpoints_of(
    alloc: Global,
    arguments: &Value,
) -> Result<SetExceptionBreakpointsArguments, Refused>
    ensures { IsRead result (set_exception_breakpoints_of (view arguments.now)) }
{
    let filters = filters_at(alloc, arguments)?;
    Ok(SetExceptionBreakpointsArguments {
        caught: has_filter(filters.as_slice(), "caught"),
        uncaught: has_filter(filters.as_slice(), "uncaught"),
    })
}

fn thread_of(arguments: &Value) -> Result<ThreadArguments, Refused>
    ensures { IsRead result (thread_of (view arguments.now)) }
{
    let thread_id = int_at(arguments, Argument::ThreadId)?;
    Ok(ThreadArguments { thread_id })
}

fn stack_trace_of(arguments: &Value) -> Result<StackTraceArguments, Refused>
    ensures { IsRead result (stack_trace_of (view arguments.now)) }
{
    let thread_id = int_at(arguments, Argument::ThreadId)?;
    let start_frame = int_or(arguments, Argument::StartFrame, 0)?;
    let levels = int_or(arguments, Argument::Levels, 0)?;
    Ok(StackTraceArguments {
        thread_id,
        start_frame,
        levels,
    })
}

fn scopes_of(arguments: &Value) -> Result<ScopesArguments, Refused>
    ensures { IsRead result (scopes_of (view arguments.now)) }
{
    let frame_id = int_at(arguments, Argument::FrameId)?;
    Ok(ScopesArguments { frame_id })
}

fn variables_of(arguments: &Value) -> Result<VariablesArguments, Refused>
    ensures { IsRead result (variables_of (view arguments.now)) }
{
    let variables_reference = int_at(arguments, Argument::VariablesReference)?;
    let filter = filter_at(arguments, Argument::Filter)?;
    let start = int_or(arguments, Argument::Start, 0)?;
    let count = int_or(arguments, Argument::Count, 0)?;
    Ok(VariablesArguments {
        variables_reference,
        filter,
        start,
        count,
    })
}

fn set_variable_of(alloc: Global, arguments: &Value) -> Result<SetVariableArguments, Refused>
    ensures { IsRead result (set_variable_of (view arguments.now)) }
{
    let variables_reference = int_at(arguments, Argument::VariablesReference)?;
    let name = text_at(alloc, arguments, Argument::Name)?;
    let value = text_at(alloc, arguments, Argument::Value)?;
    Ok(SetVariableArguments {
        variables_reference,
        name,
        value,
    })
}

fn evaluate_of(alloc: Global, arguments: &Value) -> Result<EvaluateArguments, Refused>
    ensures { IsRead result (evaluate_of (view arguments.now)) }
{
    let expression = text_at(alloc, arguments, Argument::Expression)?;
    let frame_id = int_at(arguments, Argument::FrameId)?;
    Ok(EvaluateArguments {
        expression,
        frame_id,
    })
}

fn disconnect_of(arguments: &Value) -> Result<DisconnectArguments, Refused>
    ensures { IsRead result (disconnect_of (view arguments.now)) }
{
    let terminate_debuggee = flag_at(arguments, Argument::TerminateDebuggee, false)?;
    Ok(DisconnectArguments { terminate_debuggee })
}
