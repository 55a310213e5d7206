ghost use Rattle.std.specs.Prelude.{◌≡◌, ◌<◌, ◌-◌, ◌^◌, [], IsTrue, ◌↔◌, false, None, Some, MatchResult, OnOk, OnErr};
ghost use Rattle.pending_table.specs.Windows.{fresh, id_of, pending_under, place_under, is_full};
ghost use Rattle.pending_table.specs.Windows.{with_sent, settled};

use crate::place::{MOST, Sent, place, take_out, waits};
use arrayvec::ArrayVec;
use jdwp_commands::Asked;
use std::marker::Model;

/// A reply that answers no pending command, with its id (JDWP, JDWP Packets, id).
#[derive(Clone, Copy, Debug, PartialEq, Eq)]
pub struct UnknownReply(pub u32);

/// The commands that were sent and have no reply yet, at most 16 (JDWP, JDWP Packets, id).
///
/// The ids are 1, 2, and so on to 2^32 - 1, and then 1 again. Contracts see the commands behind their ids, in the
/// order in which they were sent. No call takes memory.
#[derive(Debug, Drop)]
pub struct Pending {
    sent: ArrayVec<Sent, MOST>,
    next: u32,
}

impl Model for Pending {
    ghost use Rattle.pending_table.specs.Windows.{Window};
    ghost use Rattle.pending_table.specs.Places.{sent_in, IsWindow};

    ghost Value = { Window };

    ghost view = { λ p. record { sent = sent_in p.sent.items; next = p.next } };

    ghost invariant = { λ p. IsWindow p.sent.items p.next };
}

impl Pending {
    /// The window before the first command.
    pub fn new() -> Pending
        ensures { result ≡ fresh }
    {
        Pending {
            sent: ArrayVec::new(),
            next: 0,
        }
    }

    /// Whether no command can be sent now: 16 are pending, or the next id still is.
    pub fn is_full(&self) -> bool
        ensures { result ≡ is_full self.now }
    {
        self.sent.is_full() || waits(self.sent.as_slice(), self.next_id())
    }

    /// Whether no command is pending.
    pub fn is_empty(&self) -> bool
        ensures { IsTrue result ↔ (self.now.sent ≡ []) }
    {
        self.sent.is_empty()
    }

    /// The id of the next command: that of the n-th, from 0, is n mod (2^32 - 1) + 1.
    pub fn next_id(&self) -> u32
        ensures { result ≡ id_of self.now.next }
    {
        self.next + 1
    }

    /// Adds a command to a window that isn't full, and answers the id that its packet carries.
    pub fn send(&mut self, asked: Asked) -> u32
        requires { is_full self.old ≡ false }
        ensures id { result ≡ id_of self.old.next }
        ensures sent { self.new ≡ with_sent asked self.old }
    {
        let id = self.next_id();
        self.sent.push(Sent { id, asked });
        self.next = (self.next + 1) % u32::MAX;
        id
    }

    /// The place among those that wait of the command that is pending under an id, in the order of sending, from 0.
    pub fn place(&self, id: u32) -> Option<usize>
        ensures { result ≡ place_under id self.now.sent }
    {
        place(self.sent.as_slice(), id)
    }

    /// Takes the command out that a reply of this id answers, and leaves all others; where none is pending under the
    /// id, all stays as it was.
    pub fn settle(&mut self, id: u32) -> Result<Asked, UnknownReply>
        ensures asked { MatchResult result (λ asked. pending_under id self.old.sent ≡ Some asked)
            (λ unknown. (pending_under id self.old.sent ≡ None) × (unknown.0 ≡ id)) }
        ensures ok { OnOk result (self.new ≡ settled id self.old) }
        ensures err { OnErr result (self.new ≡ self.old) }
        ensures once { pending_under id self.new.sent ≡ None }
    {
        take_out(&mut self.sent, id).ok_or(UnknownReply(id))
    }

    // A window that goes on behind so many commands.
    #[cfg(test)]
    pub(crate) fn go_on_behind(&mut self, count: u32)
        requires { count < 2 ^ 32 - 1 }
        ensures { self.new ≡ record { sent = self.old.sent; next = count } }
    {
        self.next = count;
    }
}
