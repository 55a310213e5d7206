//! What an item sees of the target, and what it has heard.
ghost use Rattle.std.specs.Prelude.{◌≡◌, Some, IfOk};
ghost use Rattle.machine_model.specs.Facts.{fact_of};
ghost use Rattle.machine_model.specs.Plans.{answer_in, fact_replied, found_from, may_hear, must_hear, tried_of, try_hear};
ghost use Rattle.look_ups.specs.Needs.{need_with};

use crate::asked::Asked;
use crate::need::Need;
use crate::question_key::QuestionKey;
use class_tables::Classes;
use jdwp_commands::{Answer, Question, Replied};
use machine_model::Want;
use std::alloc::Global;
use std::collections::VecDeque;
use wire_core::NoMemory;

/// What a look-up is read by: the facts of classes that were learnt, and what was asked for the item in hand.
#[derive(Clone, Copy)]
pub struct Sight<'a> {
    pub classes: &'a Classes,
    pub asked: &'a Asked,
}

/// What was heard of a question whose answer nothing can stand in for.
pub(crate) fn must_hear(
    alloc: Global,
    asked: &Asked,
    question: Question,
) -> Result<Need<&Answer>, NoMemory>
    ensures { IfOk result (λ found. need_with (λ answer. Some answer.now) found
        ≡ must_hear question (found_from 0 asked.now question)) }
{
    let key = QuestionKey::new(alloc, question)?;
    match asked.find(&key) {
        None => Ok(Need::Lacks {
            first: Want::Must(key.into_question()),
            others: VecDeque::new(alloc),
        }),
        Some((place, Replied::Error(code))) => Ok(Need::Fails { place, code: *code }),
        Some((_, Replied::Answer(answer))) => Ok(Need::Has(answer)),
    }
}

/// The reply to a question for a fact that wasn't learnt.
pub(crate) fn fact_replied(
    alloc: Global,
    asked: &Asked,
    question: Question,
) -> Result<Need<&Replied>, NoMemory>
    ensures { IfOk result (λ found. need_with (λ replied. fact_of question (answer_in replied.now)) found
        ≡ fact_replied question (found_from 0 asked.now question)) }
{
    let key = QuestionKey::new(alloc, question)?;
    match asked.find(&key) {
        None => Ok(Need::Lacks {
            first: Want::Fact(key.into_question()),
            others: VecDeque::new(alloc),
        }),
        Some((_, replied)) => Ok(Need::Has(replied)),
    }
}

/// The reply to a question whose answer may be missing.
pub(crate) fn may_replied(
    alloc: Global,
    asked: &Asked,
    question: Question,
) -> Result<Need<&Replied>, NoMemory>
    ensures { IfOk result (λ found. need_with (λ replied. answer_in replied.now) found
        ≡ may_hear question (found_from 0 asked.now question)) }
{
    let key = QuestionKey::new(alloc, question)?;
    match asked.find(&key) {
        None => Ok(Need::Lacks {
            first: Want::May(key.into_question()),
            others: VecDeque::new(alloc),
        }),
        Some((_, replied)) => Ok(Need::Has(replied)),
    }
}

/// The reply to a question that is tried: a look-up goes on by its answer, or by its error. `NoMemory` comes where memory
/// is refused (JDWP, JDWP Packets, reply packet).
pub fn tried(alloc: Global, asked: &Asked, question: Question) -> Result<Need<&Replied>, NoMemory>
    ensures { IfOk result (λ found. need_with (λ replied. tried_of question replied.now) found
        ≡ try_hear question (found_from 0 asked.now question)) }
{
    let key = QuestionKey::new(alloc, question)?;
    match asked.find(&key) {
        None => Ok(Need::Lacks {
            first: Want::May(key.into_question()),
            others: VecDeque::new(alloc),
        }),
        Some((_, replied)) => Ok(Need::Has(replied)),
    }
}
