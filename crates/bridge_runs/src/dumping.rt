//! Takes the stacks of all threads of a target.
ghost use Rattle.std.specs.Prelude.{◌≡◌, []};
ghost use Rattle.bridge_runs.specs.Dumping.{Dumps, outcome_of};

use run_outcomes::Outcome;
use session_endings::Limits;
use std::alloc::Global;
use thread_dump::{DumpEnd, dump};
use wire_core::{Blob, Text, Wires};

/// Connects the wires to the target at this address alone, and serves a session whose client asks for the stacks of all
/// threads. The outcome has their text; it is `TargetGone` where the target had gone before that, else that of the session.
pub fn dump_from<W: Wires>(alloc: Global, target: Text, wires: &mut W) -> Outcome
    requires { (W.outside wires.old).asked ≡ [] }
    ensures { Dumps target (W.outside wires.old) (W.outside wires.new) result }
{
    match wires.reach(target) {
        Ok(()) => outcome_of(dump(alloc, &Limits::standard(), wires)),
        Err(_) => Outcome::NotOpened,
    }
}

// What a run comes to that has this text, or none.
fn outcome_of(dumped: Result<Blob, DumpEnd>) -> Outcome
    ensures { result ≡ outcome_of dumped }
{
    match dumped {
        Ok(text) => Outcome::Dumped(text),
        Err(DumpEnd::TargetGone) => Outcome::TargetGone,
        Err(DumpEnd::Ended(ending)) => Outcome::Ended(ending),
    }
}
