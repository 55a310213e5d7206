ghost use Rattle.std.specs.Prelude.{◌≡◌, ◌+◌, ◌<◌, ◌≤◌, [], ◌∷◌, ◌++◌, IsTrue, ◌↔◌, IsOk, OnOk, OnErr, MatchResult};
ghost use Rattle.run_logs.specs.Runs.{entries_of, quiets_among, most_quiets, AreRuns, CanTake, FollowsQuiet};

use crate::putting::{MOST_QUIETS, places, put, quiets_as};
use crate::run::Run;
use std::alloc::Global;
use std::marker::Model;
use wire_core::{Entry, List, NoMemory};

/// The entries of a log, in order. Contracts see them one by one; what is kept are runs, so that a wait in vain behind
/// another takes no memory. A log has at most 2^62 waits. It can keep room for entries that have to be added where
/// memory is refused: contracts see for how many.
#[derive(Debug, Drop)]
pub struct RunLog {
    runs: Vec<Run>,
    quiets: u64,
}

impl Model for RunLog {
    ghost use Rattle.run_logs.specs.Logged.{Logged};

    ghost Value = { Logged };

    ghost use Rattle.std.specs.Prelude.{◌-◌, vec_len, vec_capacity};
    ghost use Rattle.run_logs.specs.Runs.{entries_of, IsCounted};

    ghost view = { λ l. record { entries = entries_of l.runs.items; room = vec_capacity l.runs - vec_len l.runs } };

    ghost invariant = { λ l. IsCounted l.runs.items l.quiets (vec_len l.runs) (vec_capacity l.runs) };
}

// How many waits there are with some more. It takes no memory: `NoMemory` comes just where they would be more than 2^62.
fn quiets_with(quiets: u64, more: u64) -> Result<u64, NoMemory>
    requires { quiets ≤ most_quiets }
    ensures { MatchResult result (λ now. (now ≡ quiets + more) × (quiets + more ≤ most_quiets))
        (λ _. most_quiets < quiets + more) }
{
    if MOST_QUIETS - quiets < more {
        return Err(NoMemory);
    }
    Ok(quiets + more)
}

impl RunLog {
    /// A log without entries, which takes no memory.
    pub fn new(alloc: Global) -> RunLog
        ensures { result.entries ≡ [] }
    {
        RunLog {
            runs: Vec::new(alloc),
            quiets: 0,
        }
    }

    /// The log as runs: waits that follow each other are one of them.
    pub fn runs(&self) -> &[Run]
        ensures entries { entries_of result.now ≡ self.now.entries }
        ensures runs { AreRuns result.now }
    {
        self.runs.as_slice()
    }

    /// The runs of the log, in its memory.
    pub fn into_runs(self) -> List<Run>
        ensures entries { entries_of result ≡ self.entries }
        ensures runs { AreRuns result }
    {
        List::from_vec(self.runs)
    }

    /// Whether one more wait in vain can be added: there are fewer than 2^62.
    pub fn has_room_for_quiet(&self) -> bool
        ensures { IsTrue result ↔ (quiets_among self.now.entries < most_quiets) }
    {
        self.quiets < MOST_QUIETS
    }

    /// Makes room for so many entries. `NoMemory` comes where it isn't there and memory is refused; then all stays.
    pub fn reserve(&mut self, room: usize) -> Result<(), NoMemory>
        ensures entries { self.new.entries ≡ self.old.entries }
        ensures ok { OnOk result (room ≤ self.new.room) }
        ensures kept { self.old.room ≤ self.new.room }
        ensures err { OnErr result (self.new ≡ self.old) }
        ensures succeeds { room ≤ self.old.room → IsOk result }
    {
        self.runs.reserve(room)?;
        Ok(())
    }

    /// Adds an entry, and keeps room for so many behind it. `NoMemory` comes where that much room isn't there and
    /// memory is refused, or at a wait behind 2^62 of them; then all stays. A wait behind another takes no room.
    pub fn add(&mut self, entry: Entry, kept: usize) -> Result<(), NoMemory>
        requires { kept ≤ 2 }
        ensures ok { OnOk result (self.new.entries ≡ self.old.entries ++ entry ∷ []) }
        ensures room { OnOk result (kept ≤ self.new.room) }
        ensures err { OnErr result (self.new ≡ self.old) }
        ensures limit { OnOk result (CanTake entry self.old.entries) }
        ensures succeeds { CanTake entry self.old.entries → kept + 1 ≤ self.old.room → IsOk result }
        ensures counted { FollowsQuiet entry self.old.entries → CanTake entry self.old.entries → kept ≤ self.old.room
            → IsOk result }
        ensures stays { FollowsQuiet entry self.old.entries → self.old.room ≤ self.new.room }
    {
        let quiets = quiets_with(self.quiets, quiets_as(&entry))?;
        self.runs.reserve(kept + places(&entry, &self.runs))?;
        put(&mut self.runs, entry);
        self.quiets = quiets;
        Ok(())
    }

    /// Adds an entry for which room was kept, so that no memory is needed.
    pub fn add_reserved(&mut self, entry: Entry)
        requires room { 0 < self.old.room }
        requires limit { CanTake entry self.old.entries }
        ensures entries { self.new.entries ≡ self.old.entries ++ entry ∷ [] }
        ensures room { self.old.room ≤ self.new.room + 1 }
    {
        let quiets = quiets_as(&entry);
        put(&mut self.runs, entry);
        self.quiets += quiets;
    }
}
