ghost use Rattle.std.specs.Prelude.{◌≡◌, ◌<◌, true, length, IsTrue};
ghost use Rattle.wire_core.specs.Outside.{IsOpen, HasOpen};
ghost use Rattle.wire_core.specs.declared.outside.Side.TheVariants.{Client, Target};

use std::alloc::Global;
use wire_core::{Happening, NoMemory, Side, Wires};

/// Wires that were open, with a buffer for what comes. A side that is said to be open is.
#[derive(Drop)]
pub(crate) struct Running<W: Wires> {
    pub(crate) wires: W,
    client: bool,
    target: bool,
    buffer: Vec<u8>,
    ghost client_open: { client ≡ true → IsOpen Client (W.outside wires) },
    ghost target_open: { target ≡ true → IsOpen Target (W.outside wires) },
    ghost room: { length buffer.items ≡ 65536 },
}

impl<W: Wires + Drop> Running<W> {
    /// Runs wires that were opened just now.
    pub(crate) fn new(alloc: Global, wires: W) -> Result<Running<W>, NoMemory>
        requires client { IsOpen Client (W.outside wires) }
        requires target { IsOpen Target (W.outside wires) }
    {
        let buffer = vec![in alloc; 0; 65_536]?;
        Ok(Running {
            wires,
            client: true,
            target: true,
            buffer,
        })
    }

    /// Runs wires that have reached the target alone just now.
    pub(crate) fn reached(alloc: Global, wires: W) -> Result<Running<W>, NoMemory>
        requires { IsOpen Target (W.outside wires) }
    {
        let buffer = vec![in alloc; 0; 65_536]?;
        Ok(Running {
            wires,
            client: false,
            target: true,
            buffer,
        })
    }

    /// What comes next, while a side is open.
    pub(crate) fn next(&mut self) -> Option<Happening> {
        if !self.client && !self.target {
            return None;
        }
        let happening = self.wires.next(self.buffer.as_mut_slice());
        match happening {
            Happening::Shut(Side::Client) => self.client = false,
            Happening::Shut(Side::Target) => self.target = false,
            Happening::Failed(Side::Client) => self.client = false,
            Happening::Failed(Side::Target) => self.target = false,
            Happening::Bytes(_, _) => {}
            Happening::Quiet => {}
        }
        Some(happening)
    }

    /// Whether the bytes were sent to an open side.
    pub(crate) fn send(&mut self, side: Side, bytes: &[u8]) -> bool {
        if bytes.is_empty() || !self.is_open(side) {
            return false;
        }
        match self.wires.send(side, bytes) {
            Ok(()) => true,
            Err(_) => {
                match side {
                    Side::Client => self.client = false,
                    Side::Target => self.target = false,
                }
                false
            }
        }
    }

    /// The wires themselves, to be closed.
    pub(crate) fn into_wires(self) -> W {
        self.wires
    }

    fn is_open(&self, side: Side) -> bool
        ensures { IsTrue result → IsOpen side (W.outside self.now.wires) }
    {
        match side {
            Side::Client => self.client,
            Side::Target => self.target,
        }
    }
}
