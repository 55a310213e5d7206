//! Functions to stop in, as a client lists them.
ghost use Rattle.std.specs.Prelude.{◌≡◌, ◌+◌, true, map, IfOk};
ghost use Rattle.machine_model.specs.Breakpoints.{function_listed, functions_from, short_name};
ghost use Rattle.machine_model.specs.Rows.{function_parts};

use crate::breakpoints::next_id;
use dap_messages::{FunctionBreakpoint, SetFunctionBreakpointsArguments};
use machine_model::{Body, Choice, ListedBreakpoint, Lookup, Note, Outcome, Part};
use std::alloc::Global;
use std::collections::VecDeque;
use talk_state::{LONGEST_KEY, State};
use wire_core::{List, NoMemory, Text};
use wish_sets::FunctionEntry;

// A longer name names nothing.
fn short_name(alloc: Global, name: &str) -> Result<Text, NoMemory>
    ensures { IfOk result (λ short. short ≡ short_name name.now) }
{
    if name.len() > LONGEST_KEY {
        return Text::from_str(alloc, "");
    }
    Text::from_str(alloc, name)
}

// Functions, with ids from the first on (DAP specification, Types, Breakpoint, id).
fn functions_from(
    alloc: Global,
    first: u64,
    functions: &[FunctionBreakpoint],
) -> Result<List<FunctionEntry>, NoMemory>
    ensures { IfOk result (λ entries. entries ≡ functions_from first functions.now) }
{
    let mut entries = List::new(alloc);
    let mut id = first;
    for function in functions {
        entries.push(FunctionEntry {
            id,
            name: short_name(alloc, function.name.as_str())?,
            plain: function.plain,
        })?;
        id = next_id(id)?;
    }
    Ok(entries)
}

// One of a function has no line.
fn function_listed(entry: &FunctionEntry) -> ListedBreakpoint
    ensures { result ≡ function_listed entry.now }
{
    ListedBreakpoint {
        id: entry.id,
        line: None,
        plain: entry.plain,
    }
}

fn all_listed(alloc: Global, entries: &[FunctionEntry]) -> Result<List<ListedBreakpoint>, NoMemory>
    ensures { IfOk result (λ listed. listed ≡ map function_listed entries.now) }
{
    let mut listed = List::new(alloc);
    for entry in entries {
        listed.push(function_listed(entry))?;
    }
    Ok(listed)
}

fn function_parts(
    alloc: Global,
    entries: List<FunctionEntry>,
    below: u64,
) -> Result<VecDeque<Part>, NoMemory>
    ensures { IfOk result (λ parts. parts.items ≡ function_parts entries below) }
{
    let shown = Body::Breakpoints {
        rooted: true,
        listed: all_listed(alloc, entries.as_slice())?,
    };
    Ok(VecDeque::from_array(
        alloc,
        [
            Part::Notes(Note::Functions(entries)),
            Part::Updates,
            Part::Looks(Lookup::Classes),
            Part::Updates,
            Part::Unfolds(Choice::TellsNews(below)),
            Part::Responds(Outcome::Success(shown)),
        ],
    )?)
}

/// What `setFunctionBreakpoints` does: its functions get their ids, and are written down; and the client is told of older
/// breakpoints that are verified by it. `NoMemory` comes where memory is refused, or where the ids have no room (DAP
/// specification, SetFunctionBreakpoints request).
pub(crate) fn functions_row(
    alloc: Global,
    arguments: &SetFunctionBreakpointsArguments,
    state: &State,
) -> Result<VecDeque<Part>, NoMemory>
    ensures { IfOk result (λ parts. parts.items
        ≡ function_parts (functions_from state.now.next_entry arguments.now.breakpoints) state.now.next_entry) }
{
    let entries = functions_from(alloc, state.next_entry, arguments.breakpoints.as_slice())?;
    function_parts(alloc, entries, state.next_entry)
}
