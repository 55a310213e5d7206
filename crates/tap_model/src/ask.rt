//! What a tap is to ask, and what it came to.

use jdwp_commands::{Answer, Question};

/// A question that a tap is to ask of the target.
#[derive(Debug, Drop)]
pub struct Ask {
    pub question: Question,
}

/// What a question came to: the target's answer; the number of the error that it replied (JDWP, Error Constants); that
/// the question has no spelling under the target's sizes of ids, or none that fits a packet, and wasn't sent; or that
/// neither is known.
#[derive(Debug, Drop)]
pub enum Reached {
    Answer(Answer),
    Error(u16),
    Unfit,
    Never,
}
