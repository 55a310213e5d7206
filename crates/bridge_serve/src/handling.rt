ghost use Rattle.std.specs.Prelude.{◌≡◌, ◌^◌, ◌<◌, ◌≤◌, ◌⊎◌, length, IfErr, OnOk, Ok, true, false};
ghost use Rattle.bridge_core.specs.Calls.{Refuses, RefusesPacket, Takes, TakesPacket, offset_of, packet_of};
ghost use Rattle.bridge_core.specs.Cores.{session_in, streams_in};
ghost use Rattle.bridge_serve.specs.Following.{GoesOn, Handles, HandlesLast, IsTakenUp, MayTake, MayTell, Stops};
ghost use Rattle.dap_frames.specs.Frames.{frame_front};
ghost use Rattle.session_model.specs.Causes.{IsWaiting};
ghost use Rattle.session_model.specs.States.{target_front};
ghost use Rattle.session_endings.specs.declared.ending.Limits.{Limits};
ghost use Rattle.wire_core.specs.Streams.{Front};

use crate::inputs::Inputs;
use crate::telling::tell;
use bridge_core::Core;
use dap_frames::Body;
use jdwp_packets::Packet;
use session_endings::Ending;
use std::alloc::Global;
use wire_core::Wires;

/// Handles all that came, message by message, each as far as possible before the next one is cut.
pub(crate) fn handle<W: Wires>(
    alloc: Global,
    wires: &mut W,
    inputs: &mut Inputs,
    core: &mut Core,
) -> Result<(), Ending>
    requires { MayTake (W.outside wires.old) core.old inputs.old }
    ensures ok { OnOk result
        (GoesOn (W.outside wires.old) (W.outside wires.new) core.old core.new inputs.old inputs.new) }
    ensures waits { OnOk result
        ((limits : Limits) → core.old.limit ≡ limits.waiting → IsWaiting limits (session_in core.new inputs.new)) }
    ensures err { IfErr result (Stops (W.outside wires.old) (W.outside wires.new) core.old core.new inputs.old) }
    ensures stays { W.stays wires.old wires.new }
{
    take_end(alloc, wires, inputs, core)?;
    take_greeting(alloc, wires, inputs, core)?;
    take_packets(alloc, wires, inputs, core)?;
    take_bodies(alloc, wires, inputs, core)
}

// Takes up the end of the target's stream.
fn take_end<W: Wires>(
    alloc: Global,
    wires: &mut W,
    inputs: &mut Inputs,
    core: &mut Core,
) -> Result<(), Ending>
    requires { MayTake (W.outside wires.old) core.old inputs.old }
    ensures ok { OnOk result
        (GoesOn (W.outside wires.old) (W.outside wires.new) core.old core.new inputs.old inputs.new) }
    ensures not_ended { OnOk result (inputs.new.ended ≡ false) }
    ensures err { IfErr result (Stops (W.outside wires.old) (W.outside wires.new) core.old core.new inputs.old) }
    ensures stays { W.stays wires.old wires.new }
{
    if !inputs.ended {
        return Ok(());
    }
    inputs.ended = false;
    core.target_shut(alloc)?;
    tell(alloc, wires, core)
}

// Takes up the target's handshake.
fn take_greeting<W: Wires>(
    alloc: Global,
    wires: &mut W,
    inputs: &Inputs,
    core: &mut Core,
) -> Result<(), Ending>
    requires ready { MayTake (W.outside wires.old) core.old inputs.now }
    requires not_ended { inputs.now.ended ≡ false }
    ensures ok { OnOk result
        (GoesOn (W.outside wires.old) (W.outside wires.new) core.old core.new inputs.now inputs.now) }
    ensures taken_up { OnOk result (IsTakenUp core.new inputs.now) }
    ensures err { IfErr result (Stops (W.outside wires.old) (W.outside wires.new) core.old core.new inputs.now) }
    ensures stays { W.stays wires.old wires.new }
{
    if core.is_greeted() || !inputs.packets.is_greeted() {
        return Ok(());
    }
    core.target_greeted();
    tell(alloc, wires, core)
}

// Handles the packets that came, one after the other.
fn take_packets<W: Wires>(
    alloc: Global,
    wires: &mut W,
    inputs: &mut Inputs,
    core: &mut Core,
) -> Result<(), Ending>
    requires ready { MayTake (W.outside wires.old) core.old inputs.old }
    requires taken_up { IsTakenUp core.old inputs.old }
    ensures ok { OnOk result
        (GoesOn (W.outside wires.old) (W.outside wires.new) core.old core.new inputs.old inputs.new) }
    ensures taken_up { OnOk result (IsTakenUp core.new inputs.new) }
    ensures no_packet { OnOk result (target_front (streams_in core.new inputs.new) ≡ Front.waits) }
    ensures err { IfErr result (Stops (W.outside wires.old) (W.outside wires.new) core.old core.new inputs.old) }
    ensures stays { W.stays wires.old wires.new }
{
    while take_packet(alloc, wires, inputs, core)? {}
    Ok(())
}

// Handles the target's next packet, and says whether there was one.
fn take_packet<W: Wires>(
    alloc: Global,
    wires: &mut W,
    inputs: &mut Inputs,
    core: &mut Core,
) -> Result<bool, Ending>
    requires ready { MayTake (W.outside wires.old) core.old inputs.old }
    requires taken_up { IsTakenUp core.old inputs.old }
    ensures ok { OnOk result
        (GoesOn (W.outside wires.old) (W.outside wires.new) core.old core.new inputs.old inputs.new) }
    ensures taken_up { OnOk result (IsTakenUp core.new inputs.new) }
    ensures more { result ≡ Ok true
        → length inputs.new.target.stream.pending < length inputs.old.target.stream.pending }
    ensures no_packet { result ≡ Ok false → target_front (streams_in core.new inputs.new) ≡ Front.waits }
    ensures err { IfErr result (Stops (W.outside wires.old) (W.outside wires.new) core.old core.new inputs.old) }
    ensures stays { W.stays wires.old wires.new }
{
    let Some(packet) = inputs.next_packet()? else {
        return Ok(false);
    };
    hear_packet(alloc, wires, core, packet)?;
    Ok(true)
}

// Hears a packet, and tells and sends what is due then.
fn hear_packet<W: Wires>(
    alloc: Global,
    wires: &mut W,
    core: &mut Core,
    packet: Packet<'_>,
) -> Result<(), Ending>
    requires { MayTell (W.outside wires.old) core.old }
    ensures ok { OnOk result
        (Handles (TakesPacket core.old (offset_of packet.entry) (packet_of packet.entry))
        (W.outside wires.old) (W.outside wires.new) core.new) }
    ensures err { IfErr result
        (HandlesLast (TakesPacket core.old (offset_of packet.entry) (packet_of packet.entry))
        (RefusesPacket core.old (offset_of packet.entry) (packet_of packet.entry))
        (W.outside wires.old) (W.outside wires.new) core.new) }
    ensures stays { W.stays wires.old wires.new }
{
    core.target_packet(alloc, packet)?;
    tell(alloc, wires, core)
}

// Handles the client's bodies, one after the other.
fn take_bodies<W: Wires>(
    alloc: Global,
    wires: &mut W,
    inputs: &mut Inputs,
    core: &mut Core,
) -> Result<(), Ending>
    requires ready { MayTake (W.outside wires.old) core.old inputs.old }
    requires taken_up { IsTakenUp core.old inputs.old }
    requires no_packet { target_front (streams_in core.old inputs.old) ≡ Front.waits }
    ensures ok { OnOk result
        (GoesOn (W.outside wires.old) (W.outside wires.new) core.old core.new inputs.old inputs.new) }
    ensures waits { OnOk result
        ((limits : Limits) → core.old.limit ≡ limits.waiting → IsWaiting limits (session_in core.new inputs.new)) }
    ensures err { IfErr result (Stops (W.outside wires.old) (W.outside wires.new) core.old core.new inputs.old) }
    ensures stays { W.stays wires.old wires.new }
{
    while take_body(alloc, wires, inputs, core)? {}
    Ok(())
}

// Handles the client's next body, and says whether there was one.
fn take_body<W: Wires>(
    alloc: Global,
    wires: &mut W,
    inputs: &mut Inputs,
    core: &mut Core,
) -> Result<bool, Ending>
    requires ready { MayTake (W.outside wires.old) core.old inputs.old }
    requires taken_up { IsTakenUp core.old inputs.old }
    ensures ok { OnOk result
        (GoesOn (W.outside wires.old) (W.outside wires.new) core.old core.new inputs.old inputs.new) }
    ensures more { result ≡ Ok true
        → length inputs.new.client.pending < length inputs.old.client.pending }
    ensures waits { result ≡ Ok false
        → (core.new.machine.closing ≡ true) ⊎ (frame_front inputs.new.client.pending ≡ Front.waits) }
    ensures taken_up { OnOk result (IsTakenUp core.new inputs.new) }
    ensures target { OnOk result (inputs.new.target ≡ inputs.old.target) }
    ensures err { IfErr result (Stops (W.outside wires.old) (W.outside wires.new) core.old core.new inputs.old) }
    ensures stays { W.stays wires.old wires.new }
{
    if core.is_closing() {
        return Ok(false);
    }
    let Some(body) = inputs.next_body()? else {
        return Ok(false);
    };
    hear_body(alloc, wires, core, body)?;
    Ok(true)
}

// Hears a body, and tells and sends what is due then.
fn hear_body<W: Wires>(
    alloc: Global,
    wires: &mut W,
    core: &mut Core,
    body: Body<'_>,
) -> Result<(), Ending>
    requires { MayTell (W.outside wires.old) core.old }
    ensures ok { OnOk result
        (Handles (Takes core.old body.entry.bytes.now) (W.outside wires.old) (W.outside wires.new) core.new) }
    ensures err { IfErr result
        (HandlesLast (Takes core.old body.entry.bytes.now) (Refuses core.old body.entry.bytes.now body.entry.at)
        (W.outside wires.old) (W.outside wires.new) core.new) }
    ensures stays { W.stays wires.old wires.new }
{
    core.client_body(alloc, body.at, body.bytes)?;
    tell(alloc, wires, core)
}
