ghost use Rattle.std.specs.Prelude.{◌≡◌, ◌+◌, ◌^◌, ◌<◌, length, take, OnOk, OnErr};
ghost use Rattle.std.specs.Borrow.{sem};
ghost use Rattle.std.specs.Io.BufRead.{Rests};
ghost use Rattle.wire_core.specs.Streams.{uncut, fed, left};
ghost use Rattle.dap_frames.specs.Frames.{frame_front};
ghost use Rattle.dap_frames.specs.Taking.{IsTaken};
ghost use Rattle.dap_frames.specs.contracts.cutter.Cutter.{the_row};

use crate::fault::FrameTrouble;
use crate::front::{Found, look};
use crate::header::{Head, Reading};
use std::alloc::Global;
use std::marker::Model;
use wire_core::{NoMemory, StreamBuffer};

/// The body of a frame, and the offset in the stream of its first byte.
#[derive(Clone, Copy, Debug, PartialEq, Eq)]
pub struct Body<'a> {
    pub at: u64,
    pub bytes: &'a [u8],
}

/// Cuts a client's stream, which comes in any pieces, into the bodies of its frames (DAP overview, Base protocol).
///
/// No byte of a header is read again when the next piece comes. Contracts see the bytes that were fed and not handed
/// out, with their offset.
#[derive(Debug, Drop)]
pub struct Cutter {
    stream: StreamBuffer,
    read: usize,
    head: Head,
}

impl Model for Cutter {
    ghost use Rattle.wire_core.specs.Streams.{Uncut};
    ghost use Rattle.dap_frames.specs.Taking.{IsRead};

    ghost Value = { Uncut };

    ghost view = { λ c. c.stream };

    ghost invariant = { λ c. IsRead c.head c.read c.stream.pending };
}

impl Cutter {
    /// A cutter to which nothing was fed; it takes no memory.
    pub fn new(alloc: Global) -> Cutter
        ensures { result ≡ uncut }
    {
        Cutter {
            stream: StreamBuffer::new(alloc),
            read: 0,
            head: Head::Reads(Reading::Line(None)),
        }
    }

    /// Adds the next piece of the stream, which has fewer than 2^63 bytes with it; where memory is refused the cutter
    /// stays as it was.
    pub fn feed(&mut self, piece: &[u8]) -> Result<(), NoMemory>
        requires { self.old.at + length self.old.pending + length piece.now < 2 ^ 63 }
        ensures ok { OnOk result (self.new ≡ fed self.old piece.now) }
        ensures err { OnErr result (self.new ≡ self.old) }
    {
        self.stream.feed(piece)
    }

    /// Hands out the next body. `None` comes where what is left neither holds a whole frame nor is refused at its
    /// front. A trouble comes with the first refused byte, and from then on the same one again.
    pub fn take(&mut self) -> Result<Option<Body<'_>>, FrameTrouble>
        ensures taken { IsTaken self.old result }
        ensures* after_borrow { sem 𝓛
            (Rests the_row self.entry (λ new. new ≡ left (frame_front self.old.pending) self.old)) }
    {
        let at = self.stream.at();
        match look(&mut self.head, &mut self.read, self.stream.pending()) {
            Found::Waits => Ok(None),
            Found::Refused(fault, behind) => Err(FrameTrouble {
                fault,
                at: at + behind as u64,
            }),
            Found::Whole(header, size) => {
                self.head = Head::Reads(Reading::Line(None));
                self.read = 0;
                let frame = self.stream.take(size);
                Ok(Some(Body {
                    at: at + header as u64,
                    bytes: &frame[header..],
                }))
            }
        }
    }
}
