ghost use Rattle.std.specs.Prelude.{◌≡◌, ◌<◌, length, Ok, true, false, OnOk, OnErr};
ghost use Rattle.bridge_core.specs.Calls.{words_left};
ghost use Rattle.bridge_serve.specs.Following.{FallsSilent, Says, SaysOne, Speakable, lacks_memory};
ghost use Rattle.bridge_serve.specs.Names.{NoMemory as no_memory};

use bridge_core::Core;
use session_endings::Ending;
use std::alloc::Global;
use wire_core::{NoMemory, Wires};

/// Says an ending's last words, up to the first that can't be sent. The ending stays, but for want of memory, at which
/// nothing is said.
pub(crate) fn say<W: Wires>(alloc: Global, wires: &mut W, core: &mut Core, ending: Ending) -> Ending
    requires { lacks_memory ending ≡ false → Speakable (W.outside wires.old) (words_left ending core.old) }
    ensures says { Says (W.outside wires.old) (W.outside wires.new) core.old ending result }
    ensures stays { W.stays wires.old wires.new }
{
    if lacks_memory(&ending) {
        return ending;
    }
    match say_all(alloc, wires, core, &ending) {
        Ok(()) => ending,
        Err(_) => Ending::NoMemory,
    }
}

// Whether memory ran out.
fn lacks_memory(ending: &Ending) -> bool
    ensures { result ≡ lacks_memory ending.now }
{
    matches!(ending, Ending::NoMemory)
}

fn say_all<W: Wires>(
    alloc: Global,
    wires: &mut W,
    core: &mut Core,
    ending: &Ending,
) -> Result<(), NoMemory>
    requires caused { lacks_memory ending.now ≡ false }
    requires open { Speakable (W.outside wires.old) (words_left ending.now core.old) }
    ensures ok { OnOk result (FallsSilent (W.outside wires.old) (W.outside wires.new) core.old ending.now ending.now) }
    ensures err { OnErr result (FallsSilent (W.outside wires.old) (W.outside wires.new) core.old ending.now no_memory) }
    ensures stays { W.stays wires.old wires.new }
{
    while say_next(alloc, wires, core, ending)? {}
    Ok(())
}

// Says the next of them, and whether others may follow.
fn say_next<W: Wires>(
    alloc: Global,
    wires: &mut W,
    core: &mut Core,
    ending: &Ending,
) -> Result<bool, NoMemory>
    requires caused { lacks_memory ending.now ≡ false }
    requires open { Speakable (W.outside wires.old) (words_left ending.now core.old) }
    ensures more { result ≡ Ok true → SaysOne (W.outside wires.old) (W.outside wires.new) core.old core.new ending.now }
    ensures fewer { result ≡ Ok true
        → length (words_left ending.now core.new) < length (words_left ending.now core.old) }
    ensures silent { result ≡ Ok false
        → FallsSilent (W.outside wires.old) (W.outside wires.new) core.old ending.now ending.now }
    ensures err { OnErr result (FallsSilent (W.outside wires.old) (W.outside wires.new) core.old ending.now no_memory) }
    ensures stays { W.stays wires.old wires.new }
{
    match core.last_words(alloc, ending) {
        Ok(Some(out)) => match wires.send(out.side, out.bytes.as_slice()) {
            Ok(()) => Ok(true),
            Err(_) => Ok(false),
        },
        Ok(None) => Ok(false),
        Err(refused) => Err(refused),
    }
}
