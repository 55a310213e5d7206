ghost use Rattle.std.specs.Prelude.{◌≡◌, ◌+◌, ◌-◌, ◌^◌, ◌<◌, ◌≤◌, length, take, drop, OnOk, OnErr};
ghost use Rattle.std.specs.Borrow.{sem};
ghost use Rattle.std.specs.Vec.{vec_len};
ghost use Rattle.std.specs.Io.BufRead.{Rests};
ghost use Rattle.wire_core.specs.Streams.{uncut, fed, past};
ghost use Rattle.wire_core.specs.contracts.stream.StreamBuffer.{the_row};

use crate::memory::NoMemory;
use std::alloc::Global;
use std::marker::Model;

/// The bytes of a stream that were fed and not taken yet, and the offset in the stream of the first of them.
///
/// Bytes that were taken stay in the buffer until a piece doesn't fit behind the rest: then the rest moves to the
/// front. Where all whole messages are taken before the next piece is fed, a byte is moved once at most.
#[derive(Debug, Drop)]
pub struct StreamBuffer {
    bytes: Vec<u8>,
    start: usize,
    at: u64,
}

impl Model for StreamBuffer {
    ghost use Rattle.std.specs.Prelude.{◌+◌, ◌-◌, ◌^◌, ◌<◌, ◌≤◌, drop};
    ghost use Rattle.std.specs.Vec.{vec_len};
    ghost use Rattle.wire_core.specs.Streams.{Uncut};

    ghost Value = { Uncut };

    ghost view = { λ b. record { at = b.at; pending = drop b.start b.bytes.items } };

    ghost invariant = { λ b. (b.start ≤ vec_len b.bytes) × (b.at + (vec_len b.bytes - b.start) < 2 ^ 63) };
}

impl StreamBuffer {
    /// A stream of which nothing was fed, which takes no memory.
    pub fn new(alloc: Global) -> StreamBuffer
        ensures { result ≡ uncut }
    {
        StreamBuffer {
            bytes: Vec::new(alloc),
            start: 0,
            at: 0,
        }
    }

    /// The offset in the stream of the first byte that was not taken.
    pub fn at(&self) -> u64
        ensures value { result ≡ self.now.at }
        ensures small { self.now.at + length self.now.pending < 2 ^ 63 }
    {
        self.at
    }

    /// The bytes that were fed and not taken.
    pub fn pending(&self) -> &[u8]
        ensures { result.now ≡ self.now.pending }
    {
        &self.bytes[self.start..]
    }

    /// Adds the next piece of the stream; where memory is refused the stream stays.
    pub fn feed(&mut self, piece: &[u8]) -> Result<(), NoMemory>
        requires { self.old.at + length self.old.pending + length piece.now < 2 ^ 63 }
        ensures ok { OnOk result (self.new ≡ fed self.old piece.now) }
        ensures err { OnErr result (self.new ≡ self.old) }
    {
        make_room(&mut self.bytes, &mut self.start, piece.len());
        self.bytes.extend_from_slice(piece)?;
        Ok(())
    }

    /// Takes the first bytes, without a copy.
    pub fn take(&mut self, count: usize) -> &[u8]
        requires { count ≤ length self.old.pending }
        ensures bytes { result.now ≡ take count self.old.pending }
        ensures* after_borrow { sem 𝓛 (Rests the_row self.entry (λ new. new ≡ past self.old count)) }
    {
        let from = self.start;
        self.start += count;
        self.at += count as u64;
        &self.bytes[from..self.start]
    }
}

// Moves the rest of the bytes, from `start` on, to the front where a piece doesn't fit behind it.
fn make_room(bytes: &mut Vec<u8>, start: &mut usize, piece: usize)
    requires { start.old ≤ vec_len bytes.old }
    ensures rest { drop start.new bytes.new.items ≡ drop start.old bytes.old.items }
    ensures within { start.new ≤ vec_len bytes.new }
{
    if piece > bytes.capacity() - bytes.len() && *start > 0 {
        bytes.copy_within(*start.., 0);
        bytes.truncate(bytes.len() - *start);
        *start = 0;
    }
}
