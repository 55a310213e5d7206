//! Breakpoints as a client lists them: their ids, and how each is told.
ghost use Rattle.std.specs.Prelude.{◌≡◌, ◌+◌, ◌^◌, pos, map, IfOk, MatchResult};
ghost use Rattle.machine_model.specs.Breakpoints.{breakpoint_told, entry_of, key_of, numbered_from, status_by};
ghost use Rattle.machine_model.specs.Breakpoints.{status_of, target_line};
ghost use Rattle.machine_model.specs.Rows.{breakpoint_parts};

use dap_messages::{Breakpoint, BreakpointStatus, SetBreakpointsArguments, SourceBreakpoint};
use machine_model::{Body, Choice, ListedBreakpoint, Lookup, Note, Outcome, Part};
use std::alloc::Global;
use std::collections::VecDeque;
use talk_state::{State, key_of};
use wire_core::{List, NoMemory, Text};
use wish_sets::{EntryState, LineEntry, Wishes};

// The greatest line (JDWP, Method command set, LineTable, lineNumber).
const LAST_LINE: u32 = 2147483647;

/// The id behind this one. It takes no memory: `NoMemory` comes just where that is 2^64.
pub(crate) fn next_id(id: u64) -> Result<u64, NoMemory>
    ensures { MatchResult result (λ next. next ≡ id + 1) (λ _. id + 1 ≡ 2 ^ 64) }
{
    match id.checked_add(1) {
        Some(next) => Ok(next),
        None => Err(NoMemory),
    }
}

// The breakpoints of a list, with ids from the first on (DAP specification, Types, Breakpoint, id).
fn numbered_from(
    alloc: Global,
    first: u64,
    breakpoints: &[SourceBreakpoint],
) -> Result<List<ListedBreakpoint>, NoMemory>
    ensures { IfOk result (λ listed. listed ≡ numbered_from first breakpoints.now) }
{
    let mut listed = List::new(alloc);
    let mut id = first;
    for breakpoint in breakpoints {
        listed.push(ListedBreakpoint {
            id,
            line: Some(breakpoint.line),
            plain: breakpoint.plain,
        })?;
        id = next_id(id)?;
    }
    Ok(listed)
}

// A line as the target counts it, from 1 (DAP specification, Initialize request, linesStartAt1).
fn target_line(from_one: bool, line: u32) -> i32
    ensures { result ≡ pos (target_line from_one line) }
{
    if line >= LAST_LINE {
        return LAST_LINE as i32;
    }
    if from_one {
        line as i32
    } else {
        (line + 1) as i32
    }
}

// A breakpoint as it is wished.
fn entry_of(from_one: bool, listed: &ListedBreakpoint) -> LineEntry
    ensures { result ≡ entry_of from_one listed.now }
{
    LineEntry {
        id: listed.id,
        line: target_line(from_one, listed.line.unwrap_or(0)),
        plain: listed.plain,
    }
}

fn entries_of(
    alloc: Global,
    from_one: bool,
    listed: &[ListedBreakpoint],
) -> Result<List<LineEntry>, NoMemory>
    ensures { IfOk result (λ entries. entries ≡ map (entry_of from_one) listed.now) }
{
    let mut entries = List::new(alloc);
    for breakpoint in listed {
        entries.push(entry_of(from_one, breakpoint))?;
    }
    Ok(entries)
}

fn breakpoint_parts(
    alloc: Global,
    from_one: bool,
    key: Option<Text>,
    path: Text,
    listed: List<ListedBreakpoint>,
    below: u64,
) -> Result<VecDeque<Part>, NoMemory>
    ensures { IfOk result (λ parts. parts.items ≡ breakpoint_parts from_one key path listed below) }
{
    let rooted = key.is_some();
    let entries = entries_of(alloc, from_one, listed.as_slice())?;
    Ok(VecDeque::from_array(
        alloc,
        [
            Part::Notes(Note::Lines { key, path, entries }),
            Part::Updates,
            Part::Looks(Lookup::Classes),
            Part::Updates,
            Part::Unfolds(Choice::TellsNews(below)),
            Part::Responds(Outcome::Success(Body::Breakpoints { rooted, listed })),
        ],
    )?)
}

/// What `setBreakpoints` does: its breakpoints get their ids, and are written down under the key of their source; and
/// the client is told of older ones that are verified by it. `NoMemory` comes where memory is refused, or where the ids
/// have no room (DAP specification, SetBreakpoints request).
pub(crate) fn breakpoints_row(
    alloc: Global,
    arguments: &SetBreakpointsArguments,
    state: &State,
) -> Result<VecDeque<Part>, NoMemory>
    ensures { IfOk result (λ parts. parts.items
        ≡ breakpoint_parts state.now.options.lines_from_one (key_of state.now.roots arguments.now.path)
        arguments.now.path (numbered_from state.now.next_entry arguments.now.breakpoints) state.now.next_entry) }
{
    let key = key_of(alloc, state.roots.as_slice(), arguments.path.as_str())?;
    let path = Text::from_str(alloc, arguments.path.as_str())?;
    let listed = numbered_from(alloc, state.next_entry, arguments.breakpoints.as_slice())?;
    breakpoint_parts(
        alloc,
        state.options.lines_from_one,
        key,
        path,
        listed,
        state.next_entry,
    )
}

fn status_by(stands: Option<EntryState>) -> BreakpointStatus
    ensures { result ≡ status_by stands }
{
    match stands {
        None => BreakpointStatus::NotBoundYet,
        Some(EntryState::Verified) => BreakpointStatus::Verified,
        Some(EntryState::Refused) => BreakpointStatus::RefusedByTarget,
        Some(EntryState::Waiting) => BreakpointStatus::NotBoundYet,
    }
}

fn status_of(rooted: bool, plain: bool, stands: Option<EntryState>) -> BreakpointStatus
    ensures { result ≡ status_of rooted plain stands }
{
    if !plain {
        return BreakpointStatus::ConditionsUnsupported;
    }
    if !rooted {
        return BreakpointStatus::NoSourceRoot;
    }
    status_by(stands)
}

/// How a breakpoint is told, by how it stands (DAP specification, Types, Breakpoint).
pub fn breakpoint_told(rooted: bool, wishes: &Wishes, listed: &ListedBreakpoint) -> Breakpoint
    ensures { result ≡ breakpoint_told rooted wishes.now listed.now }
{
    Breakpoint {
        id: listed.id,
        line: listed.line,
        status: status_of(rooted, listed.plain, wishes.state_of(listed.id)),
    }
}
