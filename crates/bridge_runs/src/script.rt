//! Plays a script.
ghost use Rattle.std.specs.Prelude.{◌≡◌, [], IfOk, Some};
ghost use Rattle.file_wires.specs.PlayedWires.{told_by, IsPlayOf};
ghost use Rattle.script_rows.specs.declared.script.Script.{Script as TheScript};
ghost use Rattle.wire_core.specs.Outside.{IsOpen};
ghost use Rattle.wire_core.specs.declared.outside.Side.TheVariants.{Client, Target};
ghost use Rattle.session_endings.specs.Limits.{AreLimits};
ghost use Rattle.bridge_runs.specs.Command.{script_limits, IsServedOf, IsPlayedUnder, Plays};

use bridge_serve::serve;
use file_wires::PlayedWires;
use run_outcomes::{Outcome, log_of, read_text, show, troubled};
use script_files::read_script;
use script_rows::Script;
use script_text::SessionLog;
use session_endings::Limits;
use std::alloc::Global;
use wire_core::{Files, NoMemory, Word};

/// Plays the script in a file: a session is served between its client and its target, under its limits. The outcome has
/// the log of this session, as text; or it says why there is none.
pub fn play<F: Files>(alloc: Global, name: Word, files: &mut F) -> Outcome
    requires { (F.store files.old).asked ≡ [] }
    ensures { Plays name (F.store files.old) (F.store files.new) result }
{
    match read_text(alloc, name, files) {
        Ok(text) => match read_script(alloc, text.as_slice()) {
            Ok(script) => show(alloc, served_of(alloc, script)),
            Err(trouble) => troubled(trouble),
        },
        Err(outcome) => outcome,
    }
}

// The limits of a script.
fn script_limits(script: &Script) -> Limits
    ensures { result ≡ script_limits script.now }
{
    Limits {
        turns: script.turns,
        quiet: script.quiet,
        waiting: script.waiting,
    }
}

/// Serves a session over the wires of a script, under its limits, and gives the log of that session.
pub(crate) fn served_of(alloc: Global, script: Script) -> Result<SessionLog, NoMemory>
    requires { AreLimits (script_limits script) }
    ensures { IfOk result (IsServedOf script) }
{
    let limits = script_limits(&script);
    let mut wires = PlayedWires::new(alloc, script)?;
    let log = served_over(alloc, &limits, &mut wires);
    wires.finish();
    log
}

// Serves a session over wires that play a script, and gives the log of that session.
fn served_over(
    alloc: Global,
    limits: &Limits,
    wires: &mut PlayedWires,
) -> Result<SessionLog, NoMemory>
    requires limits { AreLimits limits.now }
    requires asked { (told_by wires.old).asked ≡ [] }
    requires log { (told_by wires.old).log ≡ Some [] }
    requires client { IsOpen Client (told_by wires.old) }
    requires target { IsOpen Target (told_by wires.old) }
    ensures { (script : TheScript) → IsPlayOf script wires.old → IfOk result (IsPlayedUnder limits.now script) }
{
    let ending = serve(alloc, limits, wires);
    log_of(alloc, limits, ending, wires.runs()?)
}
