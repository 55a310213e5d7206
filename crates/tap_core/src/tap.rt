//! A tap over whole packets, and what it is seen as.
ghost use Rattle.std.specs.Prelude.{◌≡◌, IfOk};
ghost use Rattle.tap_core.specs.Cores.{can_keep_in, fresh_core, has_room_in};

use crate::asking::Asking;
use crate::packets::{fits_more, is_few};
use std::alloc::Global;
use std::collections::VecDeque;
use std::marker::Model;
use tap_model::{Ask, DebuggerCommand, Reached};
use tap_window::Window;
use wire_core::{Blob, List, NoMemory};

/// A tap over whole packets, which has to be spent by `finish`. Contracts see which sides were greeted; the commands
/// without a reply; the commands and the packets for the debugger, as bytes, that wait; its questions; and whether the
/// target was let go. The bytes that came and aren't cut are with its owner.
pub struct TapCore {
    pub(crate) target_greeted: bool,
    pub(crate) debugger_greeted: bool,
    pub(crate) sent: Window,
    pub(crate) commands: VecDeque<DebuggerCommand>,
    pub(crate) packets: VecDeque<Blob>,
    pub(crate) asking: Asking,
    pub(crate) left_by: bool,
}

impl Model for TapCore {
    ghost use Rattle.tap_core.specs.Cores.{CoreState};

    ghost Value = { CoreState };

    ghost view = { λ c. record {
      greeted = record { target = c.target_greeted; debugger = c.debugger_greeted };
      sent = c.sent;
      commands = c.commands.items;
      packets = c.packets.items;
      asking = c.asking;
      left_by = c.left_by;
    } };
}

impl TapCore {
    /// A tap that has heard and said nothing, and is to ask these questions.
    pub fn new(alloc: Global, asks: &[Ask]) -> Result<TapCore, NoMemory>
        ensures { IfOk result (λ core. core ≡ fresh_core asks.now) }
    {
        Ok(TapCore {
            target_greeted: false,
            debugger_greeted: false,
            sent: Window::new(alloc),
            commands: VecDeque::new(alloc),
            packets: VecDeque::new(alloc),
            asking: Asking::new(alloc, asks)?,
            left_by: false,
        })
    }

    /// Whether the target was let go, by an answer to a command of the debugger's that does so (JDWP, VirtualMachine
    /// command set, Dispose and Exit).
    pub fn is_left(&self) -> bool
        ensures { result ≡ self.now.left_by }
    {
        self.left_by
    }

    /// What the questions have come to, in their order; the tap is given up.
    pub fn finish(self) -> List<Reached>
        ensures { result ≡ self.asking.answers }
    {
        let TapCore {
            target_greeted: _,
            debugger_greeted: _,
            sent: _,
            commands: _,
            packets: _,
            asking,
            left_by: _,
        } = self;
        asking.finish()
    }

    // Whether one more message may wait.
    pub(crate) fn has_room(&self) -> bool
        ensures { result ≡ has_room_in self.now }
    {
        fits_more(self.commands.len(), self.packets.len())
    }

    // Whether one more command of the debugger's may be kept.
    pub(crate) fn can_keep(&self) -> bool
        ensures { result ≡ can_keep_in self.now }
    {
        self.has_room() && is_few(self.sent.debuggers())
    }
}
