//! What is on its way to the debugger.
ghost use Rattle.std.specs.Prelude.{◌≡◌, ◌++◌, length, take, drop, OnOk, OnErr};
ghost use Rattle.target_server.specs.Flights.{nothing_sent, sent, shaken, released, gone, replied, CanReply, told};
ghost use Rattle.target_server.specs.Flights.{count_out, id_behind, told_if, CanTell, CanTellIf};

use crate::limits::end_behind;
use crate::packets::{events_packet, reply_packet};
use jdwp_commands::Replied;
use jdwp_events::Composite;
use jdwp_values::IdSizes;
use std::alloc::Global;
use std::marker::Model;
use wire_core::{Blob, List, NoMemory, StreamBuffer};

// What each side sends first (JDWP, JDWP Start Up).
const HANDSHAKE: [u8; 14] = *b"JDWP-Handshake";

// The last id of a packet.
const LAST_ID: u32 = 4_294_967_295;

/// The bytes that go out next, those of packets that wait for the handshake, and the id of the next event packet.
#[derive(Debug, Drop)]
pub(crate) struct Outgoing {
    greeted: bool,
    next_id: u32,
    held: Blob,
    stream: StreamBuffer,
}

impl Model for Outgoing {
    ghost use Rattle.target_server.specs.Flights.{Flight};

    ghost Value = { Flight };

    ghost view = { λ o. record {
      greeted = o.greeted;
      next_id = o.next_id;
      held = o.held;
      bytes = o.stream.pending;
    } };
}

// Bytes go behind those of a stream; a stream of 2^63 bytes has no room for more.
fn append(stream: &mut StreamBuffer, bytes: &[u8]) -> Result<(), NoMemory>
    ensures ok { OnOk result (stream.new.pending ≡ stream.old.pending ++ bytes.now) }
    ensures err { OnErr result (stream.new ≡ stream.old) }
{
    let end = stream.at() + stream.pending().len() as u64;
    end_behind(end, bytes.len())?;
    stream.feed(bytes)
}

// The id behind an id.
fn id_behind(id: u32) -> u32
    ensures { result ≡ id_behind id }
{
    if id >= LAST_ID { 0 } else { id + 1 }
}

impl Outgoing {
    /// Nothing was sent; it takes no memory.
    pub(crate) fn new(alloc: Global) -> Outgoing
        ensures { result ≡ nothing_sent }
    {
        Outgoing {
            greeted: false,
            next_id: 1,
            held: List::new(alloc),
            stream: StreamBuffer::new(alloc),
        }
    }

    /// Whether the target sent its handshake.
    pub(crate) fn is_greeted(&self) -> bool
        ensures { result ≡ self.now.greeted }
    {
        self.greeted
    }

    /// Sends the handshake (JDWP, JDWP Start Up).
    pub(crate) fn shake(&mut self) -> Result<(), NoMemory>
        ensures { OnOk result (self.new ≡ shaken self.old) }
    {
        append(&mut self.stream, &HANDSHAKE)?;
        self.greeted = true;
        Ok(())
    }

    /// Sends what waited for the handshake.
    pub(crate) fn release(&mut self, alloc: Global) -> Result<(), NoMemory>
        ensures { OnOk result (self.new ≡ released self.old) }
    {
        append(&mut self.stream, self.held.as_slice())?;
        self.held = List::new(alloc);
        Ok(())
    }

    // Sends bytes; before the handshake they wait for it.
    fn send(&mut self, bytes: &[u8]) -> Result<(), NoMemory>
        ensures { OnOk result (self.new ≡ sent bytes.now self.old) }
    {
        if self.greeted {
            append(&mut self.stream, bytes)
        } else {
            self.held.extend_from_slice(bytes)
        }
    }

    /// Replies to the command with this id (JDWP, JDWP Packets, reply packet).
    pub(crate) fn reply(
        &mut self,
        alloc: Global,
        sizes: IdSizes,
        id: u32,
        reply: &Replied,
    ) -> Result<(), NoMemory>
        ensures sent { OnOk result (self.new ≡ replied sizes id reply.now self.old) }
        ensures spelled { OnOk result (CanReply sizes reply.now) }
    {
        let packet = reply_packet(alloc, sizes, id, reply)?;
        self.send(packet.as_slice())
    }

    /// Tells events under the next id (JDWP, Event command set, Composite).
    pub(crate) fn tell(
        &mut self,
        alloc: Global,
        sizes: IdSizes,
        composite: &Composite,
    ) -> Result<(), NoMemory>
        ensures sent { OnOk result (self.new ≡ told sizes composite.now self.old) }
        ensures spelled { OnOk result (CanTell sizes composite.now) }
    {
        let packet = events_packet(alloc, sizes, self.next_id, composite)?;
        self.next_id = id_behind(self.next_id);
        self.send(packet.as_slice())
    }

    /// Tells events where there are any.
    pub(crate) fn tell_if(
        &mut self,
        alloc: Global,
        sizes: IdSizes,
        composite: &Option<Composite>,
    ) -> Result<(), NoMemory>
        ensures sent { OnOk result (self.new ≡ told_if sizes composite.now self.old) }
        ensures spelled { OnOk result (CanTellIf sizes composite.now) }
    {
        match composite {
            Some(composite) => self.tell(alloc, sizes, composite),
            None => Ok(()),
        }
    }

    /// Moves the first bytes out, as many as there are and have room, and answers their number.
    pub(crate) fn out(&mut self, buf: &mut [u8]) -> usize
        ensures count { result ≡ count_out (length buf.old) self.old }
        ensures bytes { buf.new ≡ take result self.old.bytes ++ drop result buf.old }
        ensures rest { self.new ≡ gone result self.old }
    {
        let pending = self.stream.pending().len();
        let count = if buf.len() <= pending {
            buf.len()
        } else {
            pending
        };
        let bytes = self.stream.take(count);
        buf[..count].copy_from_slice(bytes);
        count
    }
}
