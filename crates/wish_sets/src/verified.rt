//! Which entries are verified, breakpoints of sources and of functions.
ghost use Rattle.std.specs.Prelude.{◌≡◌, ◌<◌, ◌+◌, [], flat_map, length, map, IfOk, IfSome, OnOk};
ghost use Rattle.std.specs.BTreeSet.{insert_key};
ghost use Rattle.std.specs.Ordering.{nat_cmp, on};
ghost use Rattle.wish_sets.specs.Entries.{all_entries, function_seen, line_seen, state_of};
ghost use Rattle.wish_sets.specs.Kept.{wanted_by};
ghost use Rattle.wish_sets.specs.Verified.{entry_place, is_sure, with_verified};

use crate::entry::{EntryState, FunctionEntry, LineEntry, VerifiedEntry};
use crate::wants::Wants;
use crate::wishes::Wishes;
use std::alloc::Global;
use std::cmp::Ordering;
use wire_core::{List, NoMemory, Text};

// Whether the entry of an id is verified.
fn is_sure(wishes: &Wishes, id: u64) -> bool
    ensures { result ≡ is_sure (state_of wishes.now id) }
{
    matches!(wishes.state_of(id), Some(EntryState::Verified))
}

// A breakpoint of a source, by its id and its line.
fn line_seen(entry: &LineEntry) -> VerifiedEntry
    ensures { result ≡ line_seen entry.now }
{
    VerifiedEntry {
        id: entry.id,
        line: Some(entry.line),
    }
}

// A breakpoint of a function, by its id alone.
fn function_seen(entry: &FunctionEntry) -> VerifiedEntry
    ensures { result ≡ function_seen entry.now }
{
    VerifiedEntry {
        id: entry.id,
        line: None,
    }
}

// The place at which an entry goes, by its id, where none has it.
fn entry_place(found: &[VerifiedEntry], id: u64) -> Option<usize>
    ensures place { result ≡ entry_place 0 id found.now }
    ensures within { IfSome result (λ place. place < length found.now + 1) }
{
    for (at, entry) in found.iter().enumerate() {
        match id.cmp(&entry.id) {
            Ordering::Less => return Some(at),
            Ordering::Equal => return None,
            Ordering::Greater => {}
        }
    }
    Some(found.len())
}

// Adds an entry, by its id, where none has it.
#[tactic(auto, using(crate::proofs::VerifiedLaws::no_entry_place, crate::proofs::VerifiedLaws::at_its_id))]
fn add_entry(found: &mut Vec<VerifiedEntry>, entry: VerifiedEntry) -> Result<(), NoMemory>
    ensures { OnOk result (found.new.items ≡ insert_key (on (λ other. other.id) nat_cmp) found.old.items entry) }
{
    if let Some(at) = entry_place(found, entry.id) {
        found.insert(at, entry)?;
    }
    Ok(())
}

// Adds those of a list that are verified.
fn add_lines(
    found: &mut Vec<VerifiedEntry>,
    wishes: &Wishes,
    entries: &[LineEntry],
) -> Result<(), NoMemory>
    ensures { OnOk result (found.new.items
        ≡ with_verified wishes.now (map line_seen entries.now) found.old.items) }
{
    for entry in entries {
        if is_sure(wishes, entry.id) {
            add_entry(found, line_seen(entry))?;
        }
    }
    Ok(())
}

// Adds those of all lists that are verified.
#[tactic(auto, using(crate::proofs::VerifiedLaws::list_by_list))]
fn add_lists(
    found: &mut Vec<VerifiedEntry>,
    wishes: &Wishes,
    lists: &[(Text, List<LineEntry>)],
) -> Result<(), NoMemory>
    ensures { OnOk result (found.new.items
        ≡ with_verified wishes.now (flat_map (λ list. map line_seen list.1) lists.now) found.old.items) }
{
    for list in lists {
        add_lines(found, wishes, list.1.as_slice())?;
    }
    Ok(())
}

// Adds those of all functions that are verified.
fn add_functions(
    found: &mut Vec<VerifiedEntry>,
    wishes: &Wishes,
    functions: &[FunctionEntry],
) -> Result<(), NoMemory>
    ensures { OnOk result (found.new.items
        ≡ with_verified wishes.now (map function_seen functions.now) found.old.items) }
{
    for entry in functions {
        if is_sure(wishes, entry.id) {
            add_entry(found, function_seen(entry))?;
        }
    }
    Ok(())
}

/// Those of all entries that are wanted that are verified, in order of their ids, each id once; `NoMemory` comes where
/// memory is refused.
#[tactic(auto, using(crate::proofs::VerifiedLaws::list_by_list))]
pub(crate) fn verified_entries(
    alloc: Global,
    wishes: &Wishes,
    wants: &Wants,
) -> Result<List<VerifiedEntry>, NoMemory>
    ensures { IfOk result (λ entries.
        entries ≡ with_verified wishes.now (all_entries (wanted_by wants.now)) []) }
{
    let mut found = Vec::new(alloc);
    add_lists(&mut found, wishes, &wants.lists)?;
    add_functions(&mut found, wishes, wants.functions.as_slice())?;
    Ok(List::from_vec(found))
}
