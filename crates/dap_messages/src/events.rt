ghost use Rattle.std.specs.Prelude.{◌≡◌, IfOk, option_map};
ghost use Rattle.serde_json.specs.View.{view};
ghost use Rattle.dap_messages.specs.Events.{change_reason, changed_data, event_data, halt_data, hit_data};
ghost use Rattle.dap_messages.specs.Events.{named_data, output_data, stop_data, stopped_data};
ghost use Rattle.dap_messages.specs.Events.{thread_changed_data};

use crate::bodies::breakpoint_value;
use crate::objects::{Member, object};
use crate::told::{Breakpoint, Event, StopReason, Stopped, ThreadChange};
use serde_json::Value;
use std::alloc::{AllocError, Global};
use wire_core::Text;

/// An event, under its number.
pub(crate) fn event_value(alloc: Global, seq: u64, event: &Event) -> Result<Value, AllocError>
    ensures { IfOk result (λ value. view value ≡ event_data seq event.now) }
{
    match event {
        Event::Initialized => named_value(alloc, seq, "initialized", None),
        Event::Breakpoint(breakpoint) => changed_value(alloc, seq, *breakpoint),
        Event::Thread(change) => thread_changed_value(alloc, seq, *change),
        Event::Stopped(stopped) => stopped_value(alloc, seq, stopped),
        Event::Output(text) => output_value(alloc, seq, text),
        Event::Terminated => named_value(alloc, seq, "terminated", None),
    }
}

/// An event of this name, and its body where it has one.
fn named_value(
    alloc: Global,
    seq: u64,
    name: &str,
    body: Option<Value>,
) -> Result<Value, AllocError>
    ensures { IfOk result (λ value. view value ≡ named_data seq name.now (option_map view body)) }
{
    let members = vec![in alloc;
        ("body", Member::MaybeInner(body)),
        ("event", Member::Words(name)),
        ("seq", Member::Count(seq)),
        ("type", Member::Words("event")),
    ]?;
    object(alloc, members)
}

fn changed_value(alloc: Global, seq: u64, breakpoint: Breakpoint) -> Result<Value, AllocError>
    ensures { IfOk result (λ value. view value ≡ changed_data seq breakpoint) }
{
    let shown = breakpoint_value(alloc, breakpoint)?;
    let members = vec![in alloc;
        ("breakpoint", Member::Inner(shown)),
        ("reason", Member::Words("changed")),
    ]?;
    let body = object(alloc, members)?;
    named_value(alloc, seq, "breakpoint", Some(body))
}

fn change_reason(started: bool) -> &'static str
    ensures { result.now ≡ change_reason started }
{
    if started { "started" } else { "exited" }
}

fn thread_changed_value(alloc: Global, seq: u64, change: ThreadChange) -> Result<Value, AllocError>
    ensures { IfOk result (λ value. view value ≡ thread_changed_data seq change) }
{
    let members = vec![in alloc;
        ("reason", Member::Words(change_reason(change.started))),
        ("threadId", Member::Count(change.id)),
    ]?;
    let body = object(alloc, members)?;
    named_value(alloc, seq, "thread", Some(body))
}

fn output_value(alloc: Global, seq: u64, text: &Text) -> Result<Value, AllocError>
    ensures { IfOk result (λ value. view value ≡ output_data seq text.now) }
{
    let members = vec![in alloc;
        ("category", Member::Words("console")),
        ("output", Member::Words(text.as_str())),
    ]?;
    let body = object(alloc, members)?;
    named_value(alloc, seq, "output", Some(body))
}

fn stopped_value(alloc: Global, seq: u64, stopped: &Stopped) -> Result<Value, AllocError>
    ensures { IfOk result (λ value. view value ≡ stopped_data seq stopped.now) }
{
    let body = stop_value(alloc, &stopped.reason, stopped.thread)?;
    named_value(alloc, seq, "stopped", Some(body))
}

fn stop_value(alloc: Global, reason: &StopReason, thread: u64) -> Result<Value, AllocError>
    ensures { IfOk result (λ value. view value ≡ stop_data reason.now thread) }
{
    match reason {
        StopReason::Breakpoint(ids) => hit_value(alloc, "breakpoint", ids.as_slice(), thread),
        StopReason::FunctionBreakpoint(ids) => {
            hit_value(alloc, "function breakpoint", ids.as_slice(), thread)
        }
        StopReason::Exception(text) => halt_value(alloc, "exception", text, thread),
        StopReason::Step => halt_value(alloc, "step", &None, thread),
        StopReason::Pause => halt_value(alloc, "pause", &None, thread),
    }
}

fn hit_value(alloc: Global, reason: &str, ids: &[u64], thread: u64) -> Result<Value, AllocError>
    ensures { IfOk result (λ value. view value ≡ hit_data reason.now ids.now thread) }
{
    let mut items = Vec::new(alloc);
    for id in ids {
        items.push(Value::from(*id))?;
    }
    let members = vec![in alloc;
        ("allThreadsStopped", Member::Flag(true)),
        ("hitBreakpointIds", Member::Items(items)),
        ("reason", Member::Words(reason)),
        ("threadId", Member::Count(thread)),
    ]?;
    object(alloc, members)
}

fn halt_value(
    alloc: Global,
    reason: &'static str,
    text: &Option<Text>,
    thread: u64,
) -> Result<Value, AllocError>
    ensures { IfOk result (λ value. view value ≡ halt_data reason.now text.now thread) }
{
    let members = vec![in alloc;
        ("allThreadsStopped", Member::Flag(true)),
        ("reason", Member::Words(reason)),
        ("text", Member::MaybeText(text)),
        ("threadId", Member::Count(thread)),
    ]?;
    object(alloc, members)
}
