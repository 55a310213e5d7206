//! Entries that are added to runs.
ghost use Rattle.std.specs.Prelude.{◌≡◌, ◌+◌, ◌≤◌, vec_len, vec_capacity};
ghost use Rattle.run_logs.specs.Runs.{quiets_as as quiets_as_one, quiets_of, most_quiets, last_count as last_count_of};
ghost use Rattle.run_logs.specs.Runs.{places as places_of, AreRuns, Takes};

use crate::run::Run;
use wire_core::Entry;

/// The most waits in vain that a log has.
pub(crate) const MOST_QUIETS: u64 = 1 << 62;

/// How many waits in vain an entry is: one or none.
pub(crate) fn quiets_as(entry: &Entry) -> u64
    ensures { result ≡ quiets_as_one entry.now }
{
    match entry {
        Entry::Quiet => 1,
        _ => 0,
    }
}

// How many waits the last run is of, where it is of waits.
fn last_count(runs: &[Run]) -> Option<u64>
    ensures { result ≡ last_count_of None runs.now }
{
    match runs.last() {
        Some(Run::Quiets(n)) => Some(*n),
        Some(Run::One(_)) => None,
        None => None,
    }
}

/// How many places an entry takes behind runs: none where it is a wait behind waits.
pub(crate) fn places(entry: &Entry, runs: &[Run]) -> usize
    ensures { result ≡ places_of entry.now runs.now }
{
    if quiets_as(entry) == 1 && last_count(runs).is_some() {
        0
    } else {
        1
    }
}

/// Adds an entry to the runs of a log that can take it and has room for it.
pub(crate) fn put(runs: &mut Vec<Run>, entry: Entry)
    requires runs { AreRuns runs.old.items }
    requires few { quiets_of runs.old.items + quiets_as_one entry ≤ most_quiets }
    requires room { vec_len runs.old + places_of entry runs.old.items ≤ vec_capacity runs.old }
    ensures takes { Takes runs.old.items runs.new.items entry }
    ensures len { vec_len runs.new ≡ vec_len runs.old + places_of entry runs.old.items }
    ensures capacity { vec_capacity runs.new ≡ vec_capacity runs.old }
{
    match entry {
        Entry::Quiet => match last_count(runs) {
            Some(n) => {
                let last = runs.len() - 1;
                runs[last] = Run::Quiets(n + 1);
            }
            None => runs.push_reserved(Run::Quiets(1)),
        },
        entry => runs.push_reserved(Run::One(entry)),
    }
}
