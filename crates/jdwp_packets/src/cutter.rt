ghost use Rattle.std.specs.Prelude.{◌≡◌, ◌+◌, ◌^◌, ◌<◌, ◌≤◌, length, take, OnOk, OnErr};
ghost use Rattle.std.specs.Borrow.{sem};
ghost use Rattle.std.specs.Io.BufRead.{Rests};
ghost use Rattle.jdwp_packets.specs.Packets.{packet_of, greeting_front};
ghost use Rattle.jdwp_packets.specs.Receiving.{nothing_received, received, greeted_by, left_behind, received_front};
ghost use Rattle.jdwp_packets.specs.Taking.{IsTaken, IsFound, Shows};
ghost use Rattle.jdwp_packets.specs.contracts.cutter.PacketCutter.{the_row};

use crate::fault::PacketTrouble;
use crate::front::{self, Found};
use std::alloc::Global;
use std::marker::Model;
use wire_core::{NoMemory, StreamBuffer};

/// A packet that a target sent (JDWP, JDWP Packets). Its body lies in the cutter, behind the 11 bytes of the header.
#[derive(Clone, Copy, Debug, PartialEq, Eq)]
pub enum Packet<'a> {
    /// What the target tells unasked, as an event.
    Command {
        /// The offset in the stream, in bytes, of the packet's first byte.
        at: u64,
        /// The id that the target gave it.
        id: u32,
        /// The number of the command set.
        set: u8,
        /// The command's own number in its set.
        command: u8,
        /// The data behind the header.
        body: &'a [u8],
    },
    /// What the target replies to a command.
    Reply {
        /// The offset in the stream, in bytes, of the packet's first byte.
        at: u64,
        /// The id of the command that it replies to.
        id: u32,
        /// 0, or the number of an error (JDWP, Error Constants).
        error: u16,
        /// The data behind the header.
        body: &'a [u8],
    },
}

/// Cuts a target's stream, which comes in any pieces, into the greeting (JDWP, JDWP Start Up) and packets (JDWP, JDWP
/// Packets).
///
/// Contracts see whether the greeting came, and the bytes that were fed and not handed out, with their offset.
#[derive(Debug, Drop)]
pub struct PacketCutter {
    stream: StreamBuffer,
    greeted: bool,
}

impl Model for PacketCutter {
    ghost use Rattle.jdwp_packets.specs.Receiving.{Received};

    ghost Value = { Received };

    ghost view = { λ c. record { greeted = c.greeted; stream = c.stream } };
}

impl PacketCutter {
    /// A cutter to which nothing was fed; it takes no memory.
    pub fn new(alloc: Global) -> PacketCutter
        ensures { result ≡ nothing_received }
    {
        PacketCutter {
            stream: StreamBuffer::new(alloc),
            greeted: false,
        }
    }

    /// Whether the target's greeting came, all of it.
    pub fn is_greeted(&self) -> bool
        ensures { result ≡ self.now.greeted }
    {
        self.greeted
    }

    /// Adds the next piece of the stream, which has fewer than 2^63 bytes with it, and takes the greeting where it is
    /// whole now; where memory is refused the cutter stays as it was.
    pub fn feed(&mut self, piece: &[u8]) -> Result<(), NoMemory>
        requires { self.old.stream.at + length self.old.stream.pending + length piece.now < 2 ^ 63 }
        ensures ok { OnOk result (self.new ≡ received self.old piece.now) }
        ensures err { OnErr result (self.new ≡ self.old) }
    {
        self.stream.feed(piece)?;
        if !self.greeted {
            self.greeted = take_greeting(&mut self.stream);
        }
        Ok(())
    }

    /// Hands out the next packet. `None` comes where neither a whole packet nor a fault stands at the front of what is
    /// left, a trouble where a fault does. After a trouble the same trouble comes again. It takes no memory.
    pub fn take(&mut self) -> Result<Option<Packet<'_>>, PacketTrouble>
        ensures taken { IsTaken self.old result }
        ensures* after_borrow { sem 𝓛 (Rests the_row self.entry (λ new. new ≡ left_behind self.old)) }
    {
        let at = self.stream.at();
        match look(self.greeted, self.stream.pending()) {
            Found::Waits => Ok(None),
            Found::Refused(fault, behind) => Err(PacketTrouble {
                fault,
                at: at + behind as u64,
            }),
            Found::Whole(size) => Ok(Some(packet_at(at, self.stream.take(size)))),
        }
    }
}

// Takes the greeting where all of it is there.
fn take_greeting(stream: &mut StreamBuffer) -> bool
    ensures { record { greeted = result; stream = stream.new }
        ≡ greeted_by (greeting_front stream.old.pending) stream.old }
{
    match front::greeting(stream.pending()) {
        Found::Whole(size) => {
            let _ = stream.take(size);
            true
        }
        _ => false,
    }
}

// What stands at the front of a stream, by whether the greeting came.
fn look(greeted: bool, pending: &[u8]) -> Found
    ensures { IsFound result (received_front greeted pending.now) pending.now }
{
    if greeted {
        return front::packet(pending);
    }
    match front::greeting(pending) {
        Found::Refused(fault, behind) => Found::Refused(fault, behind),
        _ => Found::Waits,
    }
}

// The packet of just these bytes.
fn packet_at(at: u64, bytes: &[u8]) -> Packet<'_>
    requires { 11 ≤ length bytes.now }
    ensures { Shows result at (packet_of bytes.now) }
{
    let id = front::u32_at(bytes, 4);
    let body = &bytes[front::HEADER as usize..];
    if bytes[8] == 0 {
        Packet::Command {
            at,
            id,
            set: bytes[9],
            command: bytes[10],
            body,
        }
    } else {
        Packet::Reply {
            at,
            id,
            error: front::u16_at(bytes, 9),
            body,
        }
    }
}
