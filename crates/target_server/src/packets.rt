//! Replies and events as packets.
ghost use Rattle.std.specs.Prelude.{◌≡◌, ◌≤◌, length, IfOk, OnOk};
ghost use Rattle.jdwp_commands.specs.Answers.{FitsAnswer, spell_answer};
ghost use Rattle.jdwp_events.specs.Composites.{FitsComposite, spell_composite};
ghost use Rattle.jdwp_packets.specs.Packets.{packet_bytes};
ghost use Rattle.target_server.specs.Flights.{packet_of_reply, packet_of_events, CanReply, CanTell, longest};

use crate::answers::fit_answer;
use crate::fits::fit_composite;
use crate::limits::fit_packet;
use jdwp_commands::{Answer, Replied, write_answer};
use jdwp_events::{Composite, write_composite};
use jdwp_packets::{write_command, write_reply};
use jdwp_values::IdSizes;
use std::alloc::Global;
use wire_core::{Blob, NoMemory};

// The numbers of the command that tells events (JDWP, Event command set, Composite).
const EVENT_SET: u8 = 64;

const COMPOSITE: u8 = 100;

// The data of an answer; `NoMemory` comes too where it has no spelling or a packet has no room for it.
fn answer_body(alloc: Global, sizes: IdSizes, answer: &Answer) -> Result<Blob, NoMemory>
    ensures body { IfOk result (λ body. body ≡ spell_answer sizes answer.now) }
    ensures fits { OnOk result (FitsAnswer sizes answer.now) }
    ensures room { IfOk result (λ body. length body ≤ longest) }
{
    fit_answer(answer, sizes)?;
    let body = write_answer(alloc, sizes, answer)?;
    fit_packet(body.as_slice())?;
    Ok(body)
}

/// The packet of a reply (JDWP, JDWP Packets, reply packet). `NoMemory` comes where memory is refused, and where it has
/// no spelling or a packet has no room for it.
pub(crate) fn reply_packet(
    alloc: Global,
    sizes: IdSizes,
    id: u32,
    reply: &Replied,
) -> Result<Blob, NoMemory>
    ensures bytes { IfOk result (λ bytes. bytes ≡ packet_bytes (packet_of_reply sizes id reply.now)) }
    ensures spelled { OnOk result (CanReply sizes reply.now) }
{
    match reply {
        Replied::Answer(answer) => {
            let body = answer_body(alloc, sizes, answer)?;
            write_reply(alloc, id, 0, body.as_slice())
        }
        Replied::Error(code) => write_reply(alloc, id, *code, b""),
    }
}

// The data of a composite; `NoMemory` comes too where it has no spelling or a packet has no room for it.
fn events_body(alloc: Global, sizes: IdSizes, composite: &Composite) -> Result<Blob, NoMemory>
    ensures body { IfOk result (λ body. body ≡ spell_composite sizes composite.now) }
    ensures fits { OnOk result (FitsComposite sizes composite.now) }
    ensures room { IfOk result (λ body. length body ≤ longest) }
{
    fit_composite(composite, sizes)?;
    let body = write_composite(alloc, sizes, composite)?;
    fit_packet(body.as_slice())?;
    Ok(body)
}

/// The packet of a composite under an id (JDWP, Event command set, Composite). `NoMemory` comes where memory is refused,
/// and where it has no spelling or a packet has no room for it.
pub(crate) fn events_packet(
    alloc: Global,
    sizes: IdSizes,
    id: u32,
    composite: &Composite,
) -> Result<Blob, NoMemory>
    ensures bytes { IfOk result (λ bytes. bytes ≡ packet_bytes (packet_of_events sizes id composite.now)) }
    ensures spelled { OnOk result (CanTell sizes composite.now) }
{
    let body = events_body(alloc, sizes, composite)?;
    write_command(alloc, id, EVENT_SET, COMPOSITE, body.as_slice())
}
