ghost use Rattle.std.specs.Prelude.{◌≡◌, length, replicate, vec_len, IfOk, OnOk, IfErr};
ghost use Rattle.bridge_core.specs.Cores.{fresh_core};
ghost use Rattle.bridge_serve.specs.Serving.{Blames, Idles, Keeps};
ghost use Rattle.bridge_serve.specs.Following.{Served, Ran};
ghost use Rattle.wire_core.specs.Outside.{IsOpen};
ghost use Rattle.wire_core.specs.declared.outside.Side.TheVariants.{Client, Target};
ghost use Rattle.session_model.specs.Session.{IsSession};
ghost use Rattle.session_endings.specs.Limits.{AreLimits};

use crate::handling::handle;
use crate::hearing::hear;
use crate::inputs::Inputs;
use crate::saying::say;
use bridge_core::Core;
use session_endings::{Ending, Limits};
use std::alloc::Global;
use wire_core::{NoMemory, Wires};

// The bytes that are asked for at a time.
const PIECE: usize = 65_536;

/// Serves a session over wires that are open: each request of the client is answered, in order, until the session ends.
pub fn serve<W: Wires>(alloc: Global, limits: &Limits, wires: &mut W) -> Ending
    requires client_open { IsOpen Client (W.outside wires.old) }
    requires target_open { IsOpen Target (W.outside wires.old) }
    requires limits { AreLimits limits.now }

    // What this call did to the wires is a session of the bridge that ended so.
    ensures session { IsSession (W.outside wires.old) (W.outside wires.new) limits.now result }

    // No count fell, and at most as many waits were made as the limit on turns says. A link is blamed only where the
    // count of its faults rose and it is closed, as a client is that has left. At `Idle` each side that is still open was
    // asked in vain as often, over the whole call, as the limit says.
    ensures keeps { Keeps limits.now.turns (W.outside wires.old) (W.outside wires.new) }
    ensures blames { Blames (W.outside wires.old) (W.outside wires.new) result }
    ensures idles { Idles limits.now (W.outside wires.old) (W.outside wires.new) result }

    // What else the wires keep through each of their calls holds between those before the session and those behind it.
    ensures stays { W.stays wires.old wires.new }
{
    match Core::new(alloc, limits) {
        Ok(core) => serve_with(alloc, limits, wires, core),
        Err(_) => Ending::NoMemory,
    }
}

// Serves a session, says its last words, and gives the core up.
fn serve_with<W: Wires>(alloc: Global, limits: &Limits, wires: &mut W, core: Core) -> Ending
    requires client_open { IsOpen Client (W.outside wires.old) }
    requires target_open { IsOpen Target (W.outside wires.old) }
    requires limits { AreLimits limits.now }
    requires fresh { core ≡ fresh_core limits.now.waiting }
    ensures served { Served (W.outside wires.old) (W.outside wires.new) limits.now result }
    ensures stays { W.stays wires.old wires.new }
{
    let mut core = core;
    let ending = run(alloc, limits, wires, &mut core);
    let ending = say(alloc, wires, &mut core, ending);
    core.finish();
    ending
}

// Serves a session up to its ending.
fn run<W: Wires>(alloc: Global, limits: &Limits, wires: &mut W, core: &mut Core) -> Ending
    requires client_open { IsOpen Client (W.outside wires.old) }
    requires target_open { IsOpen Target (W.outside wires.old) }
    requires limits { AreLimits limits.now }
    requires fresh { core.old ≡ fresh_core limits.now.waiting }
    ensures ran { Ran limits.now (W.outside wires.old) (W.outside wires.new) core.new result }
    ensures stays { W.stays wires.old wires.new }
{
    match take_turns(alloc, limits, wires, core) {
        Ok(()) => Ending::Spent,
        Err(ending) => ending,
    }
}

fn take_turns<W: Wires>(
    alloc: Global,
    limits: &Limits,
    wires: &mut W,
    core: &mut Core,
) -> Result<(), Ending>
    requires client_open { IsOpen Client (W.outside wires.old) }
    requires target_open { IsOpen Target (W.outside wires.old) }
    requires limits { AreLimits limits.now }
    requires fresh { core.old ≡ fresh_core limits.now.waiting }
    ensures ok { OnOk result (Ran limits.now (W.outside wires.old) (W.outside wires.new) core.new Ending.Spent) }
    ensures err { IfErr result (Ran limits.now (W.outside wires.old) (W.outside wires.new) core.new) }
    ensures stays { W.stays wires.old wires.new }
{
    let mut inputs = Inputs::new(alloc);
    let mut buffer = zeros(alloc, PIECE)?;
    for _turn in 0..limits.turns {
        if inputs.quiets >= limits.quiet {
            return Err(Ending::Idle);
        }
        hear(wires, buffer.as_mut_slice(), &mut inputs)?;
        handle(alloc, wires, &mut inputs, core)?;
    }
    Ok(())
}

fn zeros(alloc: Global, count: usize) -> Result<Vec<u8>, NoMemory>
    ensures { IfOk result (λ bytes. vec_len bytes ≡ count) }
{
    Ok(vec![in alloc; 0; count]?)
}
