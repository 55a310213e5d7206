//! What holds of logs that are kept as runs. Each law is a contract over all runs.
ghost use Rattle.std.specs.Prelude.{◌≡◌, ◌≤◌, List};
ghost use Rattle.wire_core.specs.declared.outside.Entry.{Entry};
ghost use Rattle.run_logs.specs.declared.run.Run.{Run};
ghost use Rattle.run_logs.specs.Runs.{entries_of, quiets_of, quiets_among, most_quiets, AreRuns};

/// Each log of at most 2^62 waits in vain can be kept as runs.
pub fn a_log_has_runs()
    ensures { (entries : List Entry) → quiets_among entries ≤ most_quiets
        → (runs : List Run) × (AreRuns runs × (entries_of runs ≡ entries)) }
{}

/// Two logs of the same entries are kept as the same runs, which are just another way to write the entries down.
pub fn runs_of_a_log_are_one()
    ensures { (a b : List Run) → entries_of a ≡ entries_of b → AreRuns a → AreRuns b → a ≡ b }
{}

/// Runs have as many waits in vain as their entries, counted one by one.
pub fn a_log_has_as_many_waits_as_its_runs()
    ensures { (runs : List Run) → AreRuns runs → quiets_among (entries_of runs) ≡ quiets_of runs }
{}
