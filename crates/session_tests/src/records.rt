//! Sessions over wires in memory that are recorded, and whose records are replayed.
ghost use Rattle.session_endings.specs.Limits.{AreLimits};

use crate::courses::wires_in;
use bridge_serve::serve;
use file_wires::LogWires;
use recorded_sessions::record;
use run_outcomes::log_of;
use script_text::{print_log, read_log};
use session_endings::Limits;
use std::alloc::Global;
use std::test::Fail;
use wire_core::Blob;

// The stages of a session, and the lines behind them.
const SESSIONS: [(&str, &str); 5] = [
    ("", "shut client"),
    ("attaches", "quiet\nquiet\nshut target"),
    ("attaches binds", "failed target"),
    ("attaches binds stops", "quiet\nfailed client"),
    (
        "attaches binds stops",
        r#"client {"seq":3,"type":"request","command":"disconnect"}"#,
    ),
];

// The text of the log of a session over wires in memory, as it is recorded.
fn recorded_text(alloc: Global, limits: &Limits, stages: &str, lines: &str) -> Result<Blob, Fail>
    requires { AreLimits limits.now }
{
    let mut wires = wires_in(alloc, stages, lines)?;
    let recorded = record(alloc, limits, &mut wires)?;
    let log = log_of(alloc, limits, recorded.ending, recorded.runs.as_slice())?;
    Ok(print_log(alloc, &log)?)
}

// The text of the log of a session that replays the log in a text.
fn replayed_text(alloc: Global, limits: &Limits, text: &[u8]) -> Result<Blob, Fail>
    requires { AreLimits limits.now }
{
    let Ok(log) = read_log(alloc, text) else {
        return Err("a record that is no log".into());
    };
    let mut wires = LogWires::new(alloc, log)?;
    let ending = serve(alloc, limits, &mut wires);
    let log = log_of(alloc, limits, ending, wires.runs()?)?;
    wires.finish();
    Ok(print_log(alloc, &log)?)
}

#[test]
fn a_record_is_replayed_to_the_byte(rt: HostRuntime) -> Result<(), Fail> {
    let alloc = rt.alloc();
    let limits = Limits::standard();
    for (stages, lines) in SESSIONS {
        let recorded = recorded_text(alloc, &limits, stages, lines)?;
        let replayed = replayed_text(alloc, &limits, recorded.as_slice())?;
        if recorded.as_slice() != replayed.as_slice() {
            return Err(format!(in alloc; "another log, behind {stages}: {lines}")?.into());
        }
    }
    Ok(())
}
