ghost use Rattle.std.specs.Prelude.{◌≡◌, IfOk, option_map};
ghost use Rattle.serde_json.specs.Data.{array};
ghost use Rattle.serde_json.specs.View.{items_view, view};
ghost use Rattle.dap_messages.specs.Bodies.{breakpoint_data, breakpoints_data, capabilities_data, continued_data};
ghost use Rattle.dap_messages.specs.Bodies.{exception_info_data, filter_data, filters_data, mode_name, reason_of, shape_data};
ghost use Rattle.dap_messages.specs.Bodies.{thread_data, threads_data};

use crate::frame_bodies::{scopes_value, stack_frames_value};
use crate::objects::{Member, object};
use crate::told::{BreakMode, Breakpoint, BreakpointStatus, Shape, Thread};
use crate::value_bodies::{evaluated_value, written_value};
use crate::variable_bodies::variables_value;
use serde_json::Value;
use std::alloc::{AllocError, Global};

/// The body of a response, where there is one.
pub(crate) fn shape_value(alloc: Global, shape: &Shape) -> Result<Option<Value>, AllocError>
    ensures { IfOk result (λ body. option_map view body ≡ shape_data shape.now) }
{
    match shape {
        Shape::Nothing => Ok(None),
        Shape::Capabilities => Ok(Some(capabilities_value(alloc)?)),
        Shape::Breakpoints(breakpoints) => {
            Ok(Some(breakpoints_value(alloc, breakpoints.as_slice())?))
        }
        Shape::Threads(threads) => Ok(Some(threads_value(alloc, threads.as_slice())?)),
        Shape::StackFrames { frames, total } => {
            Ok(Some(stack_frames_value(alloc, frames.as_slice(), *total)?))
        }
        Shape::Scopes(reference) => Ok(Some(scopes_value(alloc, *reference)?)),
        Shape::Variables(variables) => Ok(Some(variables_value(alloc, variables.as_slice())?)),
        Shape::Written(written) => Ok(Some(written_value(alloc, written)?)),
        Shape::Evaluated(evaluated) => Ok(Some(evaluated_value(alloc, evaluated)?)),
        Shape::Continued => Ok(Some(continued_value(alloc)?)),
        Shape::ExceptionInfo { id, mode } => {
            Ok(Some(exception_info_value(alloc, id.as_str(), *mode)?))
        }
    }
}

fn capabilities_value(alloc: Global) -> Result<Value, AllocError>
    ensures { IfOk result (λ value. view value ≡ capabilities_data) }
{
    let filters = filters_value(alloc)?;
    let members = vec![in alloc;
        ("exceptionBreakpointFilters", Member::Items(filters)),
        ("supportTerminateDebuggee", Member::Flag(true)),
        ("supportsConfigurationDoneRequest", Member::Flag(true)),
        ("supportsEvaluateForHovers", Member::Flag(true)),
        ("supportsExceptionInfoRequest", Member::Flag(true)),
        ("supportsFunctionBreakpoints", Member::Flag(true)),
        ("supportsSetVariable", Member::Flag(true)),
    ]?;
    object(alloc, members)
}

fn filters_value(alloc: Global) -> Result<Vec<Value>, AllocError>
    ensures { IfOk result (λ filters. array (items_view filters.items) ≡ filters_data) }
{
    let caught = filter_value(alloc, "caught", "Caught exceptions")?;
    let uncaught = filter_value(alloc, "uncaught", "Uncaught exceptions")?;
    Ok(vec![in alloc; caught, uncaught]?)
}

fn filter_value(alloc: Global, filter: &str, label: &str) -> Result<Value, AllocError>
    ensures { IfOk result (λ value. view value ≡ filter_data filter.now label.now) }
{
    let members = vec![in alloc;
        ("filter", Member::Words(filter)),
        ("label", Member::Words(label)),
    ]?;
    object(alloc, members)
}

fn breakpoints_value(alloc: Global, breakpoints: &[Breakpoint]) -> Result<Value, AllocError>
    ensures { IfOk result (λ value. view value ≡ breakpoints_data breakpoints.now) }
{
    let mut items = Vec::new(alloc);
    for breakpoint in breakpoints {
        items.push(breakpoint_value(alloc, *breakpoint)?)?;
    }
    let members = vec![in alloc; ("breakpoints", Member::Items(items))]?;
    object(alloc, members)
}

/// A breakpoint, with the line of one of a source.
pub(crate) fn breakpoint_value(alloc: Global, breakpoint: Breakpoint) -> Result<Value, AllocError>
    ensures { IfOk result (λ value. view value ≡ breakpoint_data breakpoint) }
{
    let reason = reason_of(breakpoint.status);
    let members = vec![in alloc;
        ("id", Member::Count(breakpoint.id)),
        ("line", Member::MaybeCount(breakpoint.line)),
        ("message", Member::MaybeWords(reason)),
        ("verified", Member::Flag(reason.is_none())),
    ]?;
    object(alloc, members)
}

fn reason_of(status: BreakpointStatus) -> Option<&'static str>
    ensures { option_map (λ reason. reason.now) result ≡ reason_of status }
{
    match status {
        BreakpointStatus::Verified => None,
        BreakpointStatus::NoSourceRoot => Some("no source root"),
        BreakpointStatus::ConditionsUnsupported => Some("conditions are not supported"),
        BreakpointStatus::RefusedByTarget => Some("refused by the target"),
        BreakpointStatus::NotBoundYet => Some("not bound yet"),
    }
}

fn threads_value(alloc: Global, threads: &[Thread]) -> Result<Value, AllocError>
    ensures { IfOk result (λ value. view value ≡ threads_data threads.now) }
{
    let mut items = Vec::new(alloc);
    for thread in threads {
        items.push(thread_value(alloc, thread)?)?;
    }
    let members = vec![in alloc; ("threads", Member::Items(items))]?;
    object(alloc, members)
}

fn thread_value(alloc: Global, thread: &Thread) -> Result<Value, AllocError>
    ensures { IfOk result (λ value. view value ≡ thread_data thread.now) }
{
    let members = vec![in alloc;
        ("id", Member::Count(thread.id)),
        ("name", Member::Words(thread.name.as_str())),
    ]?;
    object(alloc, members)
}

fn continued_value(alloc: Global) -> Result<Value, AllocError>
    ensures { IfOk result (λ value. view value ≡ continued_data) }
{
    let members = vec![in alloc; ("allThreadsContinued", Member::Flag(true))]?;
    object(alloc, members)
}

fn exception_info_value(alloc: Global, id: &str, mode: BreakMode) -> Result<Value, AllocError>
    ensures { IfOk result (λ value. view value ≡ exception_info_data id.now mode) }
{
    let members = vec![in alloc;
        ("breakMode", Member::Words(mode_name(mode))),
        ("exceptionId", Member::Words(id)),
    ]?;
    object(alloc, members)
}

fn mode_name(mode: BreakMode) -> &'static str
    ensures { result.now ≡ mode_name mode }
{
    match mode {
        BreakMode::Always => "always",
        BreakMode::Unhandled => "unhandled",
    }
}
