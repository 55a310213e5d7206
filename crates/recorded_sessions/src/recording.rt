ghost use Rattle.std.specs.Prelude.{◌≡◌, IfOk};
ghost use Rattle.bridge_serve.specs.Following.{lacks_memory};
ghost use Rattle.bridge_serve.specs.Serving.{Keeps};
ghost use Rattle.recorded_sessions.specs.Records.{IsRecord, IsRecordOf, ServesOver};
ghost use Rattle.session_endings.specs.Limits.{AreLimits};
ghost use Rattle.session_recorder.specs.Books.{IsNew};
ghost use Rattle.wire_core.specs.Outside.{IsOpen};
ghost use Rattle.wire_core.specs.declared.outside.Side.TheVariants.{Client, Target};

use bridge_serve::serve;
use run_logs::Run;
use session_endings::{Ending, Limits};
use session_recorder::{Book, Recorder};
use std::alloc::Global;
use wire_core::{List, NoMemory, Wires};

/// A session that was recorded: its ending, and what came in and went out, in order, where waits in vain that follow each
/// other are one run.
#[derive(Debug, Drop)]
pub struct Recorded {
    pub ending: Ending,
    pub runs: List<Run>,
}

/// Serves a session over wires that are open, as `serve` does, and records it. `NoMemory` comes where the session ended for
/// that, or memory was refused to the record; so it may before anything is done.
pub fn record<W: Wires>(alloc: Global, limits: &Limits, wires: &mut W) -> Result<Recorded, NoMemory>
    requires client_open { IsOpen Client (W.outside wires.old) }
    requires target_open { IsOpen Target (W.outside wires.old) }
    requires limits { AreLimits limits.now }

    // What was recorded is a session of the bridge, whatever the wires tell of themselves. Where they tell a log, it is
    // that but for the parts of sends that failed. A link is blamed, and a session is idle, only as the wires tell.
    ensures record { IfOk result (IsRecord limits.now (W.outside wires.old) (W.outside wires.new)) }

    // No count fell, and at most as many waits were made as the limit on turns says.
    ensures keeps { Keeps limits.now.turns (W.outside wires.old) (W.outside wires.new) }

    // What else the wires keep through each of their calls holds between those before the session and those behind it.
    ensures stays { W.stays wires.old wires.new }
{
    let mut book = Book::new(alloc)?;
    let ending = serve_over(alloc, limits, wires, &mut book);
    record_of(ending, book)
}

// Serves a session over a recorder.
fn serve_over<W: Wires>(alloc: Global, limits: &Limits, wires: &mut W, book: &mut Book) -> Ending
    requires client_open { IsOpen Client (W.outside wires.old) }
    requires target_open { IsOpen Target (W.outside wires.old) }
    requires limits { AreLimits limits.now }
    requires new { IsNew book.old }
    ensures serves { ServesOver limits.now (W.outside wires.old) book.old (W.outside wires.new) book.new result }
    ensures stays { W.stays wires.old wires.new }
{
    let mut recorder = Recorder::new(wires, book);
    serve(alloc, limits, &mut recorder)
}

// The record of a session that ended so.
fn record_of(ending: Ending, book: Book) -> Result<Recorded, NoMemory>
    ensures { IfOk result (IsRecordOf ending book) }
{
    if book.refused() || lacks_memory(ending) {
        return Err(NoMemory);
    }
    let runs = book.into_runs();
    Ok(Recorded { ending, runs })
}

fn lacks_memory(ending: Ending) -> bool
    ensures { result ≡ lacks_memory ending }
{
    matches!(ending, Ending::NoMemory)
}
