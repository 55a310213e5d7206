ghost use Rattle.std.specs.Prelude.{◌≡◌, IfOk};
ghost use Rattle.serde_json.specs.View.{view, items_view};
ghost use Rattle.dap_messages.specs.Arguments.{each_in, unless_broken, IsRead};
ghost use Rattle.dap_messages.specs.Breakpoints.{as_breakpoint, breakpoints_at, is_plain};
ghost use Rattle.dap_messages.specs.Breakpoints.{lacks_text, path_at};
ghost use Rattle.dap_messages.specs.Breakpoints.{as_function, functions_at, is_unconditional};
ghost use Rattle.dap_messages.specs.declared.arguments.Argument.TheVariants as argument;

use crate::arguments::{Argument, Refused, as_int, given};
use crate::requests::{FunctionBreakpoint, SourceBreakpoint};
use serde_json::Value;
use std::alloc::Global;
use wire_core::{List, NoMemory, Text};

/// The path of the source, which must be there.
pub(crate) fn path_at(alloc: Global, arguments: &Value) -> Result<Text, Refused>
    ensures { IsRead result (path_at (view arguments.now)) }
{
    let Some(source) = given(arguments, Argument::Source) else {
        return Err(Refused::Broken(Argument::Source));
    };
    match source.get("path").and_then(Value::as_str) {
        Some(path) => Ok(Text::from_str(alloc, path)?),
        None => Err(Refused::Broken(Argument::Source)),
    }
}

/// The breakpoints, of which there are none where they are missing.
pub(crate) fn breakpoints_at(
    alloc: Global,
    arguments: &Value,
) -> Result<List<SourceBreakpoint>, Refused>
    ensures { IsRead result (breakpoints_at (view arguments.now)) }
{
    match given(arguments, Argument::Breakpoints) {
        Some(value) => match value.as_array() {
            Some(items) => breakpoints_in(alloc, items.as_slice()),
            None => Err(Refused::Broken(Argument::Breakpoints)),
        },
        None => Ok(List::new(alloc)),
    }
}

fn breakpoints_in(alloc: Global, items: &[Value]) -> Result<List<SourceBreakpoint>, Refused>
    ensures { IsRead result (unless_broken argument.Breakpoints (each_in as_breakpoint (items_view items.now))) }
{
    let mut breakpoints = List::new(alloc);
    for item in items {
        match as_breakpoint(item) {
            Some(breakpoint) => breakpoints.push(breakpoint)?,
            None => return Err(Refused::Broken(Argument::Breakpoints)),
        }
    }
    Ok(breakpoints)
}

fn as_breakpoint(value: &Value) -> Option<SourceBreakpoint>
    ensures { result ≡ as_breakpoint (view value.now) }
{
    let line = value.get("line").and_then(as_int)?;
    Some(SourceBreakpoint {
        line,
        plain: is_plain(value),
    })
}

fn is_plain(value: &Value) -> bool
    ensures { result ≡ is_plain (view value.now) }
{
    is_unconditional(value) && lacks_text(value, "logMessage")
}

fn is_unconditional(value: &Value) -> bool
    ensures { result ≡ is_unconditional (view value.now) }
{
    lacks_text(value, "condition") && lacks_text(value, "hitCondition")
}

fn lacks_text(value: &Value, name: &str) -> bool
    ensures { result ≡ lacks_text name.now (view value.now) }
{
    value
        .get(name)
        .and_then(Value::as_str)
        .unwrap_or("")
        .is_empty()
}

/// The functions to stop in, which must be there.
pub(crate) fn functions_at(
    alloc: Global,
    arguments: &Value,
) -> Result<List<FunctionBreakpoint>, Refused>
    ensures { IsRead result (functions_at (view arguments.now)) }
{
    match given(arguments, Argument::Breakpoints).and_then(Value::as_array) {
        Some(items) => functions_in(alloc, items.as_slice()),
        None => Err(Refused::Broken(Argument::Breakpoints)),
    }
}

fn functions_in(alloc: Global, items: &[Value]) -> Result<List<FunctionBreakpoint>, Refused>
    ensures { IsRead result (unless_broken argument.Breakpoints (each_in as_function (items_view items.now))) }
{
    let mut functions = List::new(alloc);
    for item in items {
        match as_function(alloc, item)? {
            Some(function) => functions.push(function)?,
            None => return Err(Refused::Broken(Argument::Breakpoints)),
        }
    }
    Ok(functions)
}

fn as_function(alloc: Global, value: &Value) -> Result<Option<FunctionBreakpoint>, NoMemory>
    ensures { IfOk result (λ function. function ≡ as_function (view value.now)) }
{
    let Some(name) = value.get("name").and_then(Value::as_str) else {
        return Ok(None);
    };
    Ok(Some(FunctionBreakpoint {
        name: Text::from_str(alloc, name)?,
        plain: is_unconditional(value),
    }))
}
