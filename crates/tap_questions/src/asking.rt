//! Which questions are asked, and what they have come to before they are.
ghost use Rattle.std.specs.Prelude.{◌≡◌, IfOk, map};
ghost use Rattle.tap_questions.specs.Names.{Ask as AnAsk, Never as no_reply};
ghost use Rattle.tap_model.specs.Questions.{fitting, unanswered};

use crate::questions::is_fit;
use jdwp_values::IdSizes;
use std::alloc::Global;
use std::collections::VecDeque;
use tap_model::{Ask, Reached};
use wire_core::NoMemory;

/// What questions have come to before the sizes of ids are known.
pub fn no_answers(alloc: Global, asks: &[Ask]) -> Result<Vec<Reached>, NoMemory>
    ensures { IfOk result (λ answers. answers.items ≡ map (λ (ask : AnAsk). no_reply) asks.now) }
{
    let mut answers = Vec::new(alloc);
    for ask in asks {
        answers.push(unasked(ask))?;
    }
    Ok(answers)
}

// What a question has come to that wasn't asked.
fn unasked(_ask: &Ask) -> Reached
    ensures { result ≡ no_reply }
{
    Reached::Never
}

/// What questions have come to that have no reply, once the sizes of ids are known.
pub fn unanswered(alloc: Global, sizes: IdSizes, asks: &[Ask]) -> Result<Vec<Reached>, NoMemory>
    ensures { IfOk result (λ answers. answers.items ≡ map (unanswered sizes) asks.now) }
{
    let mut answers = Vec::new(alloc);
    for ask in asks {
        answers.push(without_reply(sizes, ask))?;
    }
    Ok(answers)
}

fn without_reply(sizes: IdSizes, ask: &Ask) -> Reached
    ensures { result ≡ unanswered sizes ask.now }
{
    if is_fit(sizes, &ask.question) {
        Reached::Never
    } else {
        Reached::Unfit
    }
}

/// The numbers of the questions that are fit, in order.
pub fn fitting(alloc: Global, sizes: IdSizes, asks: &[Ask]) -> Result<VecDeque<usize>, NoMemory>
    ensures { IfOk result (λ numbers. numbers.items ≡ fitting sizes 0 asks.now) }
{
    let mut numbers = VecDeque::new(alloc);
    for n in 0..asks.len() {
        if is_fit(sizes, &asks[n].question) {
            numbers.push_back(n)?;
        }
    }
    Ok(numbers)
}
