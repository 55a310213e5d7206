//! What a talk has next.

use dap_messages::Told;
use jdwp_commands::Question;
use machine_model::{Effect, Finish};

/// What a talk about an item has next.
#[derive(Drop)]
pub enum Next {
    /// Nothing, until a reply comes, or there is room for a question.
    Wait,
    /// A step that nobody sees.
    Go,
    /// The client is told this.
    Tell(Told),
    /// The handshake goes to the target (JDWP, JDWP Start Up).
    Greet,
    /// The target is changed.
    Send(Effect),
    /// The target is asked.
    Ask(Question),
    /// The session is over.
    Over(Finish),
    /// The item is done.
    Done,
}
