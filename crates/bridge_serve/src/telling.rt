ghost use Rattle.std.specs.Prelude.{◌≡◌, ◌<◌, Ok, true, false, OnOk, IfErr};
ghost use Rattle.bridge_serve.specs.Following.{CoreGoesOn, CoreStops, MayTell};
ghost use Rattle.machine_model.specs.Due.{due};
ghost use Rattle.machine_model.specs.declared.acts.Act.{Act};
ghost use Rattle.machine_work.specs.Working.{work};
ghost use Rattle.session_model.specs.Causes.{link_ending};
ghost use Rattle.session_model.specs.States.{id_pending};

use bridge_core::Core;
use session_endings::Ending;
use std::alloc::Global;
use wire_core::{Side, Wires};

/// Sends all that is due, in order.
pub(crate) fn tell<W: Wires>(alloc: Global, wires: &mut W, core: &mut Core) -> Result<(), Ending>
    requires { MayTell (W.outside wires.old) core.old }
    ensures ok { OnOk result (CoreGoesOn (W.outside wires.old) (W.outside wires.new) core.old core.new) }
    ensures nothing_due { OnOk result ((due (id_pending core.new.commands) core.new.machine).act ≡ Act.Waits) }
    ensures err { IfErr result (CoreStops (W.outside wires.old) (W.outside wires.new) core.old core.new) }
    ensures stays { W.stays wires.old wires.new }
{
    while tell_next(alloc, wires, core)? {}
    Ok(())
}

// Sends the next message, and says whether there was one.
fn tell_next<W: Wires>(alloc: Global, wires: &mut W, core: &mut Core) -> Result<bool, Ending>
    requires { MayTell (W.outside wires.old) core.old }
    ensures ok { OnOk result (CoreGoesOn (W.outside wires.old) (W.outside wires.new) core.old core.new) }
    ensures more { result ≡ Ok true → work core.new.machine < work core.old.machine }
    ensures nothing_due { result ≡ Ok false → (due (id_pending core.new.commands) core.new.machine).act ≡ Act.Waits }
    ensures err { IfErr result (CoreStops (W.outside wires.old) (W.outside wires.new) core.old core.new) }
    ensures stays { W.stays wires.old wires.new }
{
    let before = core.phase();
    match core.out(alloc) {
        Ok(Some(out)) => match wires.send(out.side, out.bytes.as_slice()) {
            Ok(()) => Ok(true),
            Err(_) => {
                core.unsent(before);
                Err(link_ending(out.side))
            }
        },
        Ok(None) => Ok(false),
        Err(ending) => Err(ending),
    }
}

// The ending of a link that failed.
fn link_ending(side: Side) -> Ending
    ensures { result ≡ link_ending side }
{
    match side {
        Side::Client => Ending::ClientLink,
        Side::Target => Ending::TargetLink,
    }
}
