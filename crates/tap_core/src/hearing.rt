//! What the answers to a tap's own commands say, or how they end it.
ghost use Rattle.std.specs.Prelude.{◌≡◌, IfErr, IfOk, Ok, slice_get};
ghost use Rattle.jdwp_commands.specs.Answers.{answer_at};
ghost use Rattle.jdwp_commands.specs.declared.question.Question.TheVariants.{IdSizes as ids_question};
ghost use Rattle.jdwp_packets.specs.Packets.{Packet};
ghost use Rattle.tap_core.specs.Taking.{EndsBy, IsBadReply, tap_ending};
ghost use Rattle.tap_core.specs.Names.{a_question, an_answer};
ghost use Rattle.tap_model.specs.States.{TapState, with_reached};
ghost use Rattle.tap_model.specs.Steps.{Step, asked_answer, eights, sizes_read, sizes_said, tells};
ghost use Rattle.tap_model.specs.Tapping.{numbers_of};

use jdwp_commands::{Answer, Asked, Question};
use jdwp_values::IdSizes;
use session_endings::{Ending, TargetFault};
use std::alloc::Global;
use tap_model::{Ask, TapEnding};
use tap_questions::copy_of;
use target_bodies::{answer, bad_body};

// Sizes for bodies that are read before the target has said its own: any do.
fn eights() -> IdSizes
    ensures { result ≡ eights }
{
    IdSizes {
        field: 8,
        method: 8,
        object: 8,
        class: 8,
        frame: 8,
    }
}

// How a body that can't be read ends a tap.
fn tap_ending(ending: Ending) -> TapEnding
    ensures { result ≡ tap_ending ending }
{
    match ending {
        Ending::BadTarget { fault, at, id } => TapEnding::BadTarget { fault, at, id },
        _ => TapEnding::NoMemory,
    }
}

// The answer to a question, whose packet stands at this offset.
fn question_answer(
    alloc: Global,
    sizes: IdSizes,
    question: &Question,
    at: u64,
    body: &[u8],
) -> Result<Answer, TapEnding>
    ensures ok { IfOk result (λ answer. answer_at sizes (a_question question.now) body.now ≡ Ok answer) }
    ensures err { IfErr result (IsBadReply (answer_at sizes (a_question question.now) body.now) at) }
{
    let asked = Asked::Question(copy_of(alloc, question)?);
    match answer(alloc, sizes, &asked, at, body) {
        Ok(answer) => Ok(answer),
        Err(ending) => Err(tap_ending(ending)),
    }
}

// The sizes of ids that an answer to IDSizes says (JDWP, VirtualMachine command set, IDSizes).
fn said_sizes(answer: &Answer, at: u64) -> Result<IdSizes, TapEnding>
    ensures ok { IfOk result (λ sizes. (packet : Packet) (s : TapState)
        → sizes_said packet at answer.now s ≡ Step.learns packet (numbers_of sizes) s) }
    ensures err { IfErr result (λ ending. (packet : Packet) (s : TapState)
        → EndsBy (sizes_said packet at answer.now s) ending) }
{
    match answer {
        Answer::IdSizes {
            field,
            method,
            object,
            class,
            frame,
        } => match IdSizes::new([*field, *method, *object, *class, *frame]) {
            Ok(sizes) => Ok(sizes),
            Err(bad) => Err(tap_ending(bad_body(TargetFault::BadSizes, at, 4 * bad.0))),
        },
        _ => Err(TapEnding::NoMemory),
    }
}

/// The sizes of ids that a reply to IDSizes says, whose packet stands at this offset.
pub(crate) fn sizes_in(alloc: Global, at: u64, body: &[u8]) -> Result<IdSizes, TapEnding>
    ensures ok { IfOk result (λ sizes. (packet : Packet) (s : TapState)
        → sizes_read packet at (answer_at eights (a_question ids_question) body.now) s
        ≡ Step.learns packet (numbers_of sizes) s) }
    ensures err { IfErr result (λ ending. (packet : Packet) (s : TapState)
        → EndsBy (sizes_read packet at (answer_at eights (a_question ids_question) body.now) s) ending) }
{
    let answer = question_answer(alloc, eights(), &Question::IdSizes, at, body)?;
    said_sizes(&answer, at)
}

/// The answer to the question of this number, whose packet stands at this offset.
pub(crate) fn answer_in(
    alloc: Global,
    asks: &[Ask],
    sizes: Option<IdSizes>,
    n: usize,
    at: u64,
    body: &[u8],
) -> Result<Answer, TapEnding>
    ensures ok { IfOk result (λ answer. (packet : Packet) (s : TapState) → sizes ≡ s.asking.sizes
        → asked_answer packet at n body.now (slice_get asks.now n) s
        ≡ Step.hears (tells packet) (with_reached n (an_answer answer) s)) }
    ensures err { IfErr result (λ ending. (packet : Packet) (s : TapState) → sizes ≡ s.asking.sizes
        → EndsBy (asked_answer packet at n body.now (slice_get asks.now n) s) ending) }
{
    let Some(used) = sizes else {
        return Err(TapEnding::NoMemory);
    };
    if n >= asks.len() {
        return Err(TapEnding::NoMemory);
    }
    question_answer(alloc, used, &asks[n].question, at, body)
}
