//! What a reply of the target's does to a tap.
ghost use Rattle.std.specs.Prelude.{◌≡◌, ◌==◌, ◌&&◌, ◌||◌, ℕ, IfErr, List, OnErr, OnOk};
ghost use Rattle.jdwp_packets.specs.Packets.{Packet};
ghost use Rattle.tap_core.specs.Cores.{Unheard, state_in};
ghost use Rattle.tap_core.specs.Taking.{EndsBy, Takes};
ghost use Rattle.tap_core.specs.Names.{Ask as AnAsk, Debugger, of_question, Sizes};
ghost use Rattle.tap_model.specs.Steps.{replied};

use crate::hearing::{answer_in, sizes_in};
use crate::packets::{add_packet, reply_bytes};
use crate::tap::TapCore;
use std::alloc::Global;
use tap_model::{Ask, Owner, Reached, TapEnding};

// Whether the target was let go, once a command of this kind got a reply with this error.
fn is_left(left_by: bool, leaves: bool, error: u16) -> bool
    ensures { result ≡ left_by || (leaves && (error == 0)) }
{
    left_by || (leaves && error == 0)
}

impl TapCore {
    /// A reply with this error and this body came to a command that is pending no more, whose it was; its packet stands
    /// at this offset.
    pub(crate) fn replied(
        &mut self,
        alloc: Global,
        asks: &[Ask],
        at: u64,
        error: u16,
        body: &[u8],
        owner: Owner,
    ) -> Result<(), TapEnding>
        ensures ok { OnOk result ((unheard : Unheard) (packet : Packet)
            → Takes asks.now (replied asks.now packet at error body.now owner (state_in self.old unheard))
            (state_in self.new unheard)) }
        ensures err { IfErr result (λ ending. (unheard : Unheard) (packet : Packet)
            → EndsBy (replied asks.now packet at error body.now owner (state_in self.old unheard)) ending) }
        ensures kept { OnErr result (self.new.asking.answers ≡ self.old.asking.answers) }
    {
        match owner {
            Owner::Debugger { id, leaves } => self.give_back(alloc, id, leaves, error, body),
            Owner::Sizes => self.learn(alloc, asks, at, error, body),
            Owner::Question(n) => self.reach(alloc, asks, n, at, error, body),
        }
    }

    // A reply to a command of the debugger's is for it, under the id that it gave the command.
    fn give_back(
        &mut self,
        alloc: Global,
        id: u32,
        leaves: bool,
        error: u16,
        body: &[u8],
    ) -> Result<(), TapEnding>
        ensures ok { OnOk result ((asks : List AnAsk) (at : ℕ) (unheard : Unheard) (packet : Packet)
            → Takes asks (replied asks packet at error body.now (Debugger id leaves) (state_in self.old unheard))
            (state_in self.new unheard)) }
        ensures err { IfErr result (λ ending. (asks : List AnAsk) (at : ℕ) (unheard : Unheard) (packet : Packet)
            → EndsBy (replied asks packet at error body.now (Debugger id leaves) (state_in self.old unheard)) ending) }
        ensures kept { OnErr result (self.new.asking.answers ≡ self.old.asking.answers) }
    {
        if !self.has_room() {
            return Err(TapEnding::Flood);
        }
        let bytes = reply_bytes(alloc, id, error, body)?;
        add_packet(&mut self.packets, bytes)?;
        self.left_by = is_left(self.left_by, leaves, error);
        Ok(())
    }

    // A reply to IDSizes says the sizes of ids; an error ends the tap (JDWP, VirtualMachine command set, IDSizes).
    fn learn(
        &mut self,
        alloc: Global,
        asks: &[Ask],
        at: u64,
        error: u16,
        body: &[u8],
    ) -> Result<(), TapEnding>
        ensures ok { OnOk result ((unheard : Unheard) (packet : Packet)
            → Takes asks.now (replied asks.now packet at error body.now Sizes (state_in self.old unheard))
            (state_in self.new unheard)) }
        ensures err { IfErr result (λ ending. (unheard : Unheard) (packet : Packet)
            → EndsBy (replied asks.now packet at error body.now Sizes (state_in self.old unheard)) ending) }
        ensures kept { OnErr result (self.new.asking.answers ≡ self.old.asking.answers) }
    {
        if error > 0 {
            return Err(TapEnding::TargetRefused {
                set: 1,
                command: 7,
                code: error,
            });
        }
        let sizes = sizes_in(alloc, at, body)?;
        self.asking.learn(alloc, asks, sizes)?;
        Ok(())
    }

    // A reply to a question says what it has come to.
    fn reach(
        &mut self,
        alloc: Global,
        asks: &[Ask],
        n: usize,
        at: u64,
        error: u16,
        body: &[u8],
    ) -> Result<(), TapEnding>
        ensures ok { OnOk result ((unheard : Unheard) (packet : Packet)
            → Takes asks.now (replied asks.now packet at error body.now (of_question n) (state_in self.old unheard))
            (state_in self.new unheard)) }
        ensures err { IfErr result (λ ending. (unheard : Unheard) (packet : Packet)
            → EndsBy (replied asks.now packet at error body.now (of_question n) (state_in self.old unheard)) ending) }
        ensures kept { OnErr result (self.new.asking.answers ≡ self.old.asking.answers) }
    {
        if error > 0 {
            self.asking.reach(n, Reached::Error(error));
            return Ok(());
        }
        let answer = answer_in(alloc, asks, self.asking.sizes(), n, at, body)?;
        self.asking.reach(n, Reached::Answer(answer));
        Ok(())
    }
}
