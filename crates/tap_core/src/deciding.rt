//! What a tap does next.
ghost use Rattle.std.specs.Prelude.{◌≡◌, ◌&&◌, not};
ghost use Rattle.tap_core.specs.Cores.{Unheard, state_in};
ghost use Rattle.tap_core.specs.Saying.{Decides};
ghost use Rattle.tap_model.specs.Steps.{command_due, due, left_due, packet_due};

use crate::tap::TapCore;
use tap_model::Ask;
use wire_core::Side;

/// What a tap does next: the handshake goes to a side; the sizes of ids are asked for; the next command of the
/// debugger's is passed on, the next packet for it handed on, or the next question asked; the next command of the
/// debugger's can't be, since the next id is that of one without a reply; or nothing is due.
#[derive(Clone, Copy, Debug, PartialEq, Eq)]
pub enum Next {
    Greet(Side),
    AskSizes,
    PassOn,
    HandOn,
    AskNext,
    Floods,
    Rests,
}

// Whether the debugger is to be greeted: both sides have, and it wasn't.
fn may_greet(debugger: bool, target: bool, greeted: bool) -> bool
    ensures { result ≡ (debugger && target) && not greeted }
{
    debugger && target && !greeted
}

impl TapCore {
    /// What is due, by the questions of the tap and whether the handshake of each side has come.
    pub fn due(&self, asks: &[Ask], debugger: bool, target: bool) -> Next
        ensures { (unheard : Unheard) → unheard.debugger.greeted ≡ debugger → unheard.target.greeted ≡ target
            → Decides (due asks.now (state_in self.now unheard)) result }
    {
        if !self.target_greeted {
            return Next::Greet(Side::Target);
        }
        if may_greet(debugger, target, self.debugger_greeted) {
            return Next::Greet(Side::Client);
        }
        if !target {
            return Next::Rests;
        }
        if !self.asking.has_asked_sizes() {
            return Next::AskSizes;
        }
        self.command_due(asks)
    }

    // What is due once the sizes of ids were asked for.
    fn command_due(&self, asks: &[Ask]) -> Next
        ensures { (unheard : Unheard)
            → Decides (command_due asks.now (state_in self.now unheard) self.now.commands) result }
    {
        if self.commands.is_empty() {
            return self.packet_due(asks);
        }
        if self.sent.is_taken() {
            return Next::Floods;
        }
        Next::PassOn
    }

    // What is due where no command of the debugger's waits.
    fn packet_due(&self, asks: &[Ask]) -> Next
        ensures { (unheard : Unheard)
            → Decides (packet_due asks.now (state_in self.now unheard) self.now.packets) result }
    {
        if self.packets.is_empty() {
            return self.left_due(asks);
        }
        if !self.debugger_greeted {
            return self.left_due(asks);
        }
        Next::HandOn
    }

    // What is due where no packet for the debugger can be handed on either.
    fn left_due(&self, asks: &[Ask]) -> Next
        ensures { Decides (left_due asks.now self.now.sent self.now.asking.sizes self.now.asking.left) result }
    {
        let Some(n) = self.asking.first() else {
            return Next::Rests;
        };
        let Some(_) = self.asking.sizes() else {
            return Next::Rests;
        };
        if n >= asks.len() {
            return Next::Rests;
        }
        if !self.sent.can_ask() {
            return Next::Rests;
        }
        Next::AskNext
    }
}
