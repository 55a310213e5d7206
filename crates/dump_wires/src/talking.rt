//! The wires of a dump.
ghost use Rattle.std.specs.Prelude.{◌≡◌, ◌<◌, length, OnOk, OnErr};
ghost use Rattle.wire_core.specs.Outside.{FailsToSend, HasOpen, Hears, IsOpen, Sends};
ghost use Rattle.wire_core.specs.declared.outside.Side.TheVariants.{Client, Target};

use crate::desk::Desk;
use wire_core::{Happening, NoMemory, OpenFailed, SendFailed, Side, Text, Wires};

/// Wires whose target is that of other wires, which reached it alone, and whose client is a dump: it gives the requests of its
/// conversation, each once the one before it was answered, and takes what it is told. Both are the caller's. The client
/// never ends, and fails only where memory is refused; so may the target then. They keep a log of their own, and nothing is
/// opened by them.
#[derive(Drop)]
pub struct Talking<'a, 'b, W> {
    inner: &'a mut W,
    desk: &'b mut Desk,
}

impl<'a, 'b, W: Wires> Talking<'a, 'b, W> {
    /// The wires of a dump at this desk, over wires that reached the target.
    pub fn new(inner: &'a mut W, desk: &'b mut Desk) -> Talking<'a, 'b, W>
        ensures same_wires { result.inner.ghost_name ≡ inner.entry.ghost_name }
        ensures same_desk { result.desk.ghost_name ≡ desk.entry.ghost_name }
        ensures wires { result.inner.now ≡ inner.old }
        ensures desk { result.desk.now ≡ desk.old }
    {
        Talking { inner, desk }
    }
}

impl<'a, 'b, W: Wires> Wires for Talking<'a, 'b, W> {
    ghost use Rattle.std.proofs.Common.{refl, ◌∙◌};
    ghost use Rattle.dump_wires.specs.Talking.{outside_over, Follows};
    ghost use Rattle.dump_wires.specs.Follows.{follows_so, follows_on};

    ghost outside = { λ t. outside_over (W.outside t.inner.now) t.desk.now };

    ghost stays = { λ t u. (u.inner.ghost_name ≡ t.inner.ghost_name) × ((u.desk.ghost_name ≡ t.desk.ghost_name)
        × (W.stays t.inner.now u.inner.now
        × Follows (W.outside t.inner.now) t.desk.now (W.outside u.inner.now) u.desk.now)) };

    fn connect(&mut self, listen: Text, target: Text) -> Result<(), OpenFailed> {
        self.desk.open_nothing(Some(listen), target);
        Err(OpenFailed)
    }

    fn reach(&mut self, target: Text) -> Result<(), OpenFailed> {
        self.desk.open_nothing(None, target);
        Err(OpenFailed)
    }

    fn next(&mut self, buffer: &mut [u8]) -> Happening {
        if let Some(happening) = self.desk.turn(buffer) {
            return happening;
        }
        if !self.desk.target_open() {
            let quiet = self.desk.hear(buffer, Happening::Quiet);
            return quiet;
        }
        let happening = self.inner.next(buffer);
        let heard = self.desk.hear(buffer, happening);
        heard
    }

    fn send(&mut self, side: Side, bytes: &[u8]) -> Result<(), SendFailed> {
        match side {
            Side::Client => self.desk.take(bytes),
            Side::Target => match self.desk.prepare(bytes) {
                Ok(copy) => match self.inner.send(Side::Target, bytes) {
                    Ok(()) => {
                        self.desk.sent(copy);
                        Ok(())
                    }
                    Err(SendFailed) => {
                        self.desk.fail_target();
                        Err(SendFailed)
                    }
                },
                Err(NoMemory) => {
                    self.desk.lose_target();
                    Err(SendFailed)
                }
            },
        }
    }

    ghost stays_so = { λ t. (refl, (refl, (W.stays_so t.inner.now, follows_so (W.outside t.inner.now) t.desk.now))) };

    ghost stays_on = { λ t u v a b. (
      b.0 ∙ a.0,
      (
        b.1.0 ∙ a.1.0,
        (
          W.stays_on t.inner.now u.inner.now v.inner.now a.1.1.0
              b.1.1.0,
          follows_on (W.outside t.inner.now) (W.outside u.inner.now) (W.outside v.inner.now) t.desk.now u.desk.now
              v.desk.now a.1.1.1 b.1.1.1,
        ),
      ),
    ) };
}
