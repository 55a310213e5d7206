//! Replays a session log.
ghost use Rattle.std.specs.Prelude.{◌≡◌, List, [], IfOk, Some};
ghost use Rattle.file_wires.specs.LogWires.{told_by, IsReplayOf};
ghost use Rattle.run_outcomes.specs.FileRuns.{limits_of as limits_in};
ghost use Rattle.session_endings.specs.Limits.{AreLimits};
ghost use Rattle.wire_core.specs.declared.outside.Entry.{Entry};
ghost use Rattle.wire_core.specs.Outside.{IsOpen};
ghost use Rattle.wire_core.specs.declared.outside.Side.TheVariants.{Client, Target};
ghost use Rattle.bridge_runs.specs.Command.{IsServedAgain, IsServedUnder, Replays};

use bridge_serve::serve;
use file_wires::LogWires;
use run_outcomes::{Outcome, limits_of, log_of, read_text, show, troubled};
use script_text::{SessionLog, read_log};
use session_endings::Limits;
use std::alloc::Global;
use wire_core::{Files, NoMemory, Word};

/// Replays the session log in a file: what came of the outside in it comes once more, and a session is served over
/// that, under the limits of the log. The outcome has the log of this session, as text; or it says why there is none.
pub fn replay<F: Files>(alloc: Global, name: Word, files: &mut F) -> Outcome
    requires { (F.store files.old).asked ≡ [] }
    ensures { Replays name (F.store files.old) (F.store files.new) result }
{
    match read_text(alloc, name, files) {
        Ok(text) => match read_log(alloc, text.as_slice()) {
            Ok(log) => show(alloc, served_again(alloc, log)),
            Err(trouble) => troubled(trouble),
        },
        Err(outcome) => outcome,
    }
}

// Serves a session over what came in a log, under its limits, and gives the log of that session.
fn served_again(alloc: Global, log: SessionLog) -> Result<SessionLog, NoMemory>
    requires { AreLimits (limits_in log) }
    ensures { IfOk result (IsServedAgain log) }
{
    let limits = limits_of(&log);
    let mut wires = LogWires::new(alloc, log)?;
    let log = served_over(alloc, &limits, &mut wires);
    wires.finish();
    log
}

// Serves a session over wires that replay a log, and gives the log of that session.
fn served_over(alloc: Global, limits: &Limits, wires: &mut LogWires) -> Result<SessionLog, NoMemory>
    requires limits { AreLimits limits.now }
    requires asked { (told_by wires.old).asked ≡ [] }
    requires log { (told_by wires.old).log ≡ Some [] }
    requires client { IsOpen Client (told_by wires.old) }
    requires target { IsOpen Target (told_by wires.old) }
    ensures { (told : List Entry) → IsReplayOf told wires.old → IfOk result (IsServedUnder limits.now told) }
{
    let ending = serve(alloc, limits, wires);
    log_of(alloc, limits, ending, wires.runs()?)
}
