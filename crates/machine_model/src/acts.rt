//! What the machine does next.

use crate::parts::{Deed, Finish};
use dap_messages::Told;
use jdwp_commands::{Question, Replied};
use wish_sets::Wish;

/// A command that changes the target, and why it is sent (JDWP, Detailed Command Information).
#[derive(Drop)]
pub enum Effect {
    /// An item does so.
    Does(Deed),
    /// An event request that is wished is set (JDWP, EventRequest command set, Set).
    Set(Wish),
    /// One that is wished no longer is cleared, under its id (JDWP, EventRequest command set, Clear).
    Clear { wish: Wish, request: u32 },
}

/// A command for the target.
#[derive(Drop)]
pub enum TargetCommand {
    Question(Question),
    Effect(Effect),
}

/// Why something is asked of the target.
#[derive(Drop)]
pub enum Want {
    /// Nothing can stand in for the answer: an error fails what wants it.
    Must(Question),
    /// An error is handed on as no answer.
    May(Question),
    /// A fact of a class, which is asked once and kept; where the target refuses it, it is absent.
    Fact(Question),
}

/// What was asked for the item in hand, and its reply once that is there.
#[derive(Drop)]
pub struct Sent {
    pub want: Want,
    pub reply: Option<Replied>,
}

/// The last effect that was sent for the item in hand, and its reply once that is there.
#[derive(Drop)]
pub struct Doing {
    pub effect: Effect,
    pub reply: Option<Replied>,
}

/// What is done next.
#[derive(Drop)]
pub enum Act {
    /// Nothing, until something comes.
    Waits,
    /// A step that nobody sees.
    Goes,
    /// The client is told this.
    Tells(Told),
    /// The handshake goes to the target (JDWP, JDWP Start Up).
    Greets,
    /// The target is changed.
    Sends(Effect),
    /// The target is asked.
    Asks(Question),
    /// The session is over.
    Over(Finish),
}
