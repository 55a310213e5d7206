//! Wires that keep a log of what other wires answer.
ghost use Rattle.std.specs.Prelude.{◌≡◌};

use crate::book::Book;
use crate::side_state::SideState;
use wire_core::{Happening, NoMemory, OpenFailed, SendFailed, Side, Text, Wires};

/// Wires that hand each call on to others, and keep in a book what these answered; both are the caller's. What a recorder
/// tells of itself is what the wires inside tell, but for the log, which is the book's. Of a send that failed the book has
/// the failure alone. Where there is no memory for what would have to be kept, a side's link fails in its place: the one
/// that what came names, or, of a wait in vain, the client where it is open, else the target; and what was to be sent is
/// not sent. So does a link where a wait comes behind 2^62 of them. The wires inside may tell a log, too: then it is the
/// book's but for the parts of sends that failed, unless memory was refused.
#[derive(Drop)]
pub struct Recorder<'a, 'b, W> {
    inner: &'a mut W,
    book: &'b mut Book,
}

impl<'a, 'b, W: Wires> Recorder<'a, 'b, W> {
    /// A recorder over wires, which goes on in this book.
    pub fn new(inner: &'a mut W, book: &'b mut Book) -> Recorder<'a, 'b, W>
        ensures same_wires { result.inner.ghost_name ≡ inner.entry.ghost_name }
        ensures same_book { result.book.ghost_name ≡ book.entry.ghost_name }
        ensures wires { result.inner.now ≡ inner.old }
        ensures book { result.book.now ≡ book.old }
    {
        Recorder { inner, book }
    }
}

impl<'a, 'b, W: Wires> Wires for Recorder<'a, 'b, W> {
    ghost use Rattle.std.proofs.Common.{refl, ◌∙◌};
    ghost use Rattle.session_recorder.specs.Recording.{outside_over, IsTied};
    ghost use Rattle.session_recorder.specs.Ties.{tied_so, tied_on};

    ghost outside = { λ r. outside_over (W.outside r.inner.now) r.book.now };

    ghost stays = { λ r s. (s.inner.ghost_name ≡ r.inner.ghost_name) × ((s.book.ghost_name ≡ r.book.ghost_name)
        × (W.stays r.inner.now s.inner.now
        × IsTied (W.outside r.inner.now) r.book.now (W.outside s.inner.now) s.book.now)) };

    fn connect(&mut self, listen: Text, target: Text) -> Result<(), OpenFailed> {
        let opened = self.inner.connect(listen, target);
        self.book.open(opened, SideState::Open)
    }

    fn reach(&mut self, target: Text) -> Result<(), OpenFailed> {
        let opened = self.inner.reach(target);
        self.book.open(opened, SideState::Closed)
    }

    fn next(&mut self, buffer: &mut [u8]) -> Happening {
        let happening = self.inner.next(buffer);
        self.book.hear(buffer, happening)
    }

    fn send(&mut self, side: Side, bytes: &[u8]) -> Result<(), SendFailed> {
        match self.book.prepare(side, bytes) {
            Ok(entry) => match self.inner.send(side, bytes) {
                Ok(()) => {
                    self.book.add(entry);
                    Ok(())
                }
                Err(SendFailed) => {
                    self.book.fail(side);
                    Err(SendFailed)
                }
            },
            Err(NoMemory) => {
                self.book.lose(side);
                Err(SendFailed)
            }
        }
    }

    ghost stays_so = { λ w. (refl, (refl, (W.stays_so w.inner.now, tied_so (W.outside w.inner.now) w.book.now))) };

    ghost stays_on = { λ u v w a b. (
      b.0 ∙ a.0,
      (
        b.1.0 ∙ a.1.0,
        (
          W.stays_on u.inner.now v.inner.now w.inner.now a.1.1.0
              b.1.1.0,
          tied_on (W.outside u.inner.now) (W.outside v.inner.now) (W.outside w.inner.now) u.book.now v.book.now
              w.book.now a.1.1.1 b.1.1.1,
        ),
      ),
    ) };
}
