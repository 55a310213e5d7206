ghost use Rattle.std.specs.Prelude.{◌≡◌, ◌+◌, ◌^◌, ◌<◌, ◌≤◌, length, OnOk, IfErr};
ghost use Rattle.bridge_core.specs.Cores.{CoreState};
ghost use Rattle.bridge_serve.specs.Serving.{Keeps};
ghost use Rattle.bridge_serve.specs.Following.{MayHear, Hears, HearsEnd, client_end, target_end};
ghost use Rattle.wire_core.specs.Outside.{IsOpen};
ghost use Rattle.wire_core.specs.declared.outside.Side.TheVariants.{Client};
ghost use Rattle.session_endings.specs.declared.ending.Limits.{Limits};

use crate::inputs::Inputs;
use session_endings::Ending;
use wire_core::{Happening, Side, Wires};

/// Waits for what comes next. Bytes are fed to their side's cutter; the client's end and the failure of a link end the
/// session.
#[tactic(auto, using(crate::proofs::Logs::keeps_heard))]
pub(crate) fn hear<W: Wires>(
    wires: &mut W,
    buffer: &mut [u8],
    inputs: &mut Inputs,
) -> Result<(), Ending>
    requires is_open { IsOpen Client (W.outside wires.old) }
    requires room { length buffer.old ≡ 65536 }
    requires client_small { client_end inputs.old + 65536 < 2 ^ 63 }
    requires target_small { target_end inputs.old + 65536 < 2 ^ 63 }
    requires few { inputs.old.quiets < 2 ^ 63 }
    ensures ok { OnOk result ((limits : Limits) (core : CoreState) → MayHear limits (W.outside wires.old) core inputs.old
        → Hears limits (W.outside wires.old) (W.outside wires.new) core inputs.old inputs.new) }
    ensures client_grows { OnOk result (client_end inputs.new ≤ client_end inputs.old + 65536) }
    ensures target_grows { OnOk result (target_end inputs.new ≤ target_end inputs.old + 65536) }
    ensures quiets { inputs.new.quiets ≤ inputs.old.quiets + 1 }
    ensures keeps { Keeps 1 (W.outside wires.old) (W.outside wires.new) }
    ensures err { IfErr result
        (λ ending. (limits : Limits) (core : CoreState) → MayHear limits (W.outside wires.old) core inputs.old
        → HearsEnd limits (W.outside wires.old) (W.outside wires.new) core inputs.old ending) }
    ensures stays { W.stays wires.old wires.new }
{
    let quiets = inputs.quiets;
    inputs.quiets = 0;
    match wires.next(buffer) {
        Happening::Bytes(Side::Client, count) => match inputs.cutter.feed(&buffer[..count]) {
            Ok(()) => Ok(()),
            Err(_) => Err(Ending::NoMemory),
        },
        Happening::Bytes(Side::Target, count) => match inputs.packets.feed(&buffer[..count]) {
            Ok(()) => Ok(()),
            Err(_) => Err(Ending::NoMemory),
        },
        Happening::Shut(Side::Client) => Err(Ending::Left),
        Happening::Failed(Side::Client) => Err(Ending::ClientLink),
        Happening::Shut(Side::Target) => {
            inputs.ended = true;
            Ok(())
        }
        Happening::Failed(Side::Target) => Err(Ending::TargetLink),
        Happening::Quiet => {
            inputs.quiets = quiets + 1;
            Ok(())
        }
    }
}
