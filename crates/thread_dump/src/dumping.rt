//! Stacks that are asked for over wires, and the text that they come to.
ghost use Rattle.std.specs.Prelude.{◌≡◌};
ghost use Rattle.bridge_serve.specs.Serving.{IsClosed};
ghost use Rattle.dump_wires.specs.Desks.{IsNew};
ghost use Rattle.session_endings.specs.Limits.{AreLimits};
ghost use Rattle.thread_dump.specs.Dumps.{IsDump, IsEndOf, ServesOver};
ghost use Rattle.wire_core.specs.Outside.{Counts, IsOpen};
ghost use Rattle.wire_core.specs.declared.outside.Side.TheVariants.{Client, Target};

use bridge_serve::serve;
use dump_wires::{Desk, Talking};
use session_endings::{Ending, Limits};
use std::alloc::Global;
use wire_core::{Blob, NoMemory, Wires};

/// Why there is no text: the target had gone before it was left, or the session ended in another way.
#[derive(Clone, Copy, Debug, Drop, PartialEq, Eq)]
pub enum DumpEnd {
    TargetGone,
    Ended(Ending),
}

/// The stacks of all threads of a target, with their values, over wires that reached it alone: a session is served whose
/// client asks for them, one request after the other, and the text is what the responses come to. The target stands still
/// from the `pause` to the `continue`. `TargetGone` comes where a request before the last was answered so, and `NoMemory`
/// where memory is refused.
pub fn dump<W: Wires>(alloc: Global, limits: &Limits, wires: &mut W) -> Result<Blob, DumpEnd>
    requires no_client { IsClosed Client (W.outside wires.old) }
    requires target_open { IsOpen Target (W.outside wires.old) }
    requires limits { AreLimits limits.now }

    // What was served is a session of the bridge within its limits. What came of its client are the requests of a dump, each
    // once the one before it was answered; what it was told makes the text. Where the wires tell a log, that is what the
    // session has of the target, but for the parts of sends that failed.
    ensures dump { IsDump limits.now (W.outside wires.old) (W.outside wires.new) result }

    // No count fell, and no other name was asked for.
    ensures counts { Counts (W.outside wires.old) (W.outside wires.new) }
    ensures asked { (W.outside wires.new).asked ≡ (W.outside wires.old).asked }

    // What else the wires keep through each of their calls holds between those before the session and those behind it.
    ensures stays { W.stays wires.old wires.new }
{
    match Desk::new(alloc) {
        Ok(desk) => dump_at(alloc, limits, wires, desk),
        Err(NoMemory) => Err(DumpEnd::Ended(Ending::NoMemory)),
    }
}

// The same, at a desk.
fn dump_at<W: Wires>(
    alloc: Global,
    limits: &Limits,
    wires: &mut W,
    desk: Desk,
) -> Result<Blob, DumpEnd>
    requires no_client { IsClosed Client (W.outside wires.old) }
    requires target_open { IsOpen Target (W.outside wires.old) }
    requires limits { AreLimits limits.now }
    requires new { IsNew desk }
    ensures dump { IsDump limits.now (W.outside wires.old) (W.outside wires.new) result }
    ensures counts { Counts (W.outside wires.old) (W.outside wires.new) }
    ensures asked { (W.outside wires.new).asked ≡ (W.outside wires.old).asked }
    ensures stays { W.stays wires.old wires.new }
{
    let mut desk = desk;
    let ending = serve_over(alloc, limits, wires, &mut desk);
    end_of(ending, desk)
}

// Serves a session whose client is the one at the desk.
fn serve_over<W: Wires>(alloc: Global, limits: &Limits, wires: &mut W, desk: &mut Desk) -> Ending
    requires no_client { IsClosed Client (W.outside wires.old) }
    requires target_open { IsOpen Target (W.outside wires.old) }
    requires limits { AreLimits limits.now }
    requires new { IsNew desk.old }
    ensures serves { ServesOver limits.now (W.outside wires.old) desk.old (W.outside wires.new) desk.new result }
    ensures stays { W.stays wires.old wires.new }
{
    let mut talking = Talking::new(wires, desk);
    serve(alloc, limits, &mut talking)
}

// What a session that ended so comes to.
fn end_of(ending: Ending, desk: Desk) -> Result<Blob, DumpEnd>
    ensures { IsEndOf ending desk result }
{
    if desk.refused() {
        return Err(DumpEnd::Ended(Ending::NoMemory));
    }
    if !matches!(ending, Ending::Done) {
        return Err(DumpEnd::Ended(ending));
    }
    let talk = desk.into_conversation();
    if talk.is_gone() {
        Err(DumpEnd::TargetGone)
    } else {
        Ok(talk.into_text())
    }
}
