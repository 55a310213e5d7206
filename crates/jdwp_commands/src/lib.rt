//! What a target is asked and told, and what it answers: the bodies of commands and of their replies.
#![tactic(auto)]

mod answer;
mod asked;
mod command;
mod effect;
mod fault;
mod kind;
mod laws;
mod listed;
mod meaning;
mod question;
mod region;
mod reply;

pub use answer::Answer;
pub use asked::{Asked, Replied};
pub use command::{read_command, write};
pub use effect::Effect;
pub use fault::BodyFault;
pub use kind::{CommandKind, EffectKind, QuestionKind};
pub use laws::{
    an_answer_has_a_spelling, answers_are_read_as_they_are_spelled, numbers_name_one_command,
};
pub use listed::{ClassStatus, Frame, LoadedClass, Slot};
pub use question::Question;
pub use region::Region;
pub use reply::{read_answer, write_answer};
