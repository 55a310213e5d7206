ghost use Rattle.std.specs.Prelude.{◌≡◌, ℕ, ◌+◌, ◌^◌, ◌<◌, ◌≤◌, length, OnOk};

use dap_frames::{Cutter, frame};
use jdwp_packets::{Packet, PacketCutter, write_reply};
use std::alloc::Global;
use wire_core::NoMemory;

/// How often a block is fed: 164 of 1,638,400 bytes are 256 MiB.
const ROUNDS: u64 = 164;

/// The most bytes of a block.
const BLOCK: usize = 1_638_400;

/// What was cut.
#[derive(Clone, Copy)]
pub struct Tally {
    pub messages: u64,
    pub bytes: u64,
}

impl Tally {
    /// Nothing yet.
    pub fn new() -> Tally {
        Tally {
            messages: 0,
            bytes: 0,
        }
    }

    /// One message more.
    pub fn add(&mut self, body: &[u8]) {
        self.messages = self.messages.wrapping_add(1);
        self.bytes = self.bytes.wrapping_add(body.len() as u64);
    }
}

// A cutter of either stream, by how many bytes were fed.
trait Cuts {
    ghost total: { Self → ℕ };

    fn feed(&mut self, piece: &[u8]) -> Result<(), NoMemory>
        requires { total self.old + length piece.now < 2 ^ 63 }
        ensures { OnOk result (total self.new ≡ total self.old + length piece.now) };

    fn count(&mut self, tally: &mut Tally)
        ensures { total self.new ≡ total self.old };
}

impl Cuts for Cutter {
    ghost total = { λ u. u.at + length u.pending };

    fn feed(&mut self, piece: &[u8]) -> Result<(), NoMemory> {
        feed_frames(self, piece)
    }

    fn count(&mut self, tally: &mut Tally) {
        count_frames(self, tally)
    }
}

impl Cuts for PacketCutter {
    ghost total = { λ r. r.stream.at + length r.stream.pending };

    fn feed(&mut self, piece: &[u8]) -> Result<(), NoMemory> {
        feed_packets(self, piece)
    }

    fn count(&mut self, tally: &mut Tally) {
        count_packets(self, tally)
    }
}

fn feed_frames(cutter: &mut Cutter, piece: &[u8]) -> Result<(), NoMemory>
    requires { cutter.old.at + length cutter.old.pending + length piece.now < 2 ^ 63 }
    ensures { OnOk result
        (cutter.new.at + length cutter.new.pending ≡ cutter.old.at + length cutter.old.pending + length piece.now) }
{
    match cutter.feed(piece) {
        Ok(()) => Ok(()),
        Err(refused) => Err(refused),
    }
}

fn count_frames(cutter: &mut Cutter, tally: &mut Tally)
    ensures { cutter.new.at + length cutter.new.pending ≡ cutter.old.at + length cutter.old.pending }
{
    for _ in 0..u64::MAX {
        match cutter.take() {
            Ok(Some(body)) => tally.add(body.bytes),
            Ok(None) => return,
            Err(_) => return,
        }
    }
}

fn feed_packets(cutter: &mut PacketCutter, piece: &[u8]) -> Result<(), NoMemory>
    requires { cutter.old.stream.at + length cutter.old.stream.pending + length piece.now < 2 ^ 63 }
    ensures { OnOk result
        (cutter.new.stream.at + length cutter.new.stream.pending
        ≡ cutter.old.stream.at + length cutter.old.stream.pending + length piece.now) }
{
    match cutter.feed(piece) {
        Ok(()) => Ok(()),
        Err(refused) => Err(refused),
    }
}

fn count_packets(cutter: &mut PacketCutter, tally: &mut Tally)
    ensures { cutter.new.stream.at + length cutter.new.stream.pending
        ≡ cutter.old.stream.at + length cutter.old.stream.pending }
{
    for _ in 0..u64::MAX {
        match cutter.take() {
            Ok(Some(packet)) => tally.add(body_of(&packet)),
            Ok(None) => return,
            Err(_) => return,
        }
    }
}

fn body_of<'a>(packet: &Packet<'a>) -> &'a [u8] {
    match packet {
        Packet::Command {
            at: _,
            id: _,
            set: _,
            command: _,
            body,
        } => body,
        Packet::Reply {
            at: _,
            id: _,
            error: _,
            body,
        } => body,
    }
}

/// Cuts frames of 200 bytes.
pub fn cut_frames(alloc: Global, piece: usize) -> Result<Tally, NoMemory>
    requires { 0 < piece }
{
    let one = frame(alloc, &[b'x'; 177])?;
    let block = block_of(alloc, one.as_slice())?;
    cut(Cutter::new(alloc), block.as_slice(), piece)
}

/// Cuts packets of 60 bytes, behind the target's greeting.
pub fn cut_packets(alloc: Global, piece: usize) -> Result<Tally, NoMemory>
    requires { 0 < piece }
{
    let one = write_reply(alloc, 1, 0, &[b'x'; 49])?;
    let block = block_of(alloc, one.as_slice())?;
    let mut cutter = PacketCutter::new(alloc);
    cutter.feed(b"JDWP-Handshake")?;
    cut(cutter, block.as_slice(), piece)
}

// As many copies as a block has room for.
fn block_of(alloc: Global, one: &[u8]) -> Result<Vec<u8>, NoMemory> {
    let mut block = Vec::new(alloc);
    if one.is_empty() {
        return Ok(block);
    }
    for _ in 0..BLOCK / one.len() {
        block.extend_from_slice(one)?;
    }
    Ok(block)
}

// Feeds the block again and again.
fn cut<C: Cuts + Drop>(mut cutter: C, block: &[u8], piece: usize) -> Result<Tally, NoMemory>
    requires piece { 0 < piece }
    requires start { C.total cutter < 2 ^ 32 }
{
    let mut tally = Tally::new();
    if block.len() > BLOCK {
        return Ok(tally);
    }
    for _ in 0..ROUNDS {
        feed_block(&mut cutter, block, piece, &mut tally)?;
    }
    Ok(tally)
}

// Feeds the block once, piece by piece.
fn feed_block<C: Cuts>(
    cutter: &mut C,
    block: &[u8],
    piece: usize,
    tally: &mut Tally,
) -> Result<(), NoMemory>
    requires piece { 0 < piece }
    requires room { C.total cutter.old + length block.now < 2 ^ 63 }
    ensures { OnOk result (C.total cutter.new ≡ C.total cutter.old + length block.now) }
{
    let mut from = 0;
    while from < block.len() {
        let to = from + piece.min(block.len() - from);
        cutter.feed(&block[from..to])?;
        cutter.count(tally);
        from = to;
    }
    Ok(())
}
