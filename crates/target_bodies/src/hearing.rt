//! What the body of a packet of the target's says, and how it ends a session.
ghost use Rattle.std.specs.Prelude.{◌≡◌, ◌+◌, Err, IfErr, IfOk, ℕ, List};
ghost use Rattle.jdwp_commands.specs.Answers.{answer_at};
ghost use Rattle.jdwp_commands.specs.Bodies.{IsRead as AreReadSo};
ghost use Rattle.jdwp_commands.specs.declared.asked.Asked.{Asked as AnAsked};
ghost use Rattle.jdwp_commands.specs.Commands.{number_of};
ghost use Rattle.jdwp_events.specs.Composites.{composite_at, IsRead};
ghost use Rattle.jdwp_values.specs.declared.sizes.IdSizes.{IdSizes as Sizes};
ghost use Rattle.session_endings.specs.declared.ending.Ending.TheVariants.{BadTarget, TargetRefused};
ghost use Rattle.target_bodies.specs.Hearing.{IsBadAnswer, IsBadBody, MayBe, ReadsAnswer, ReadsComposite};
ghost use Rattle.target_bodies.specs.Hearing.{answer_fault, composite_fault, header};

use jdwp_commands::{Answer, Asked, BodyFault, read_answer};
use jdwp_events::{Composite, CompositeFault, read_composite};
use jdwp_values::IdSizes;
use session_endings::{Ending, TargetFault};
use std::alloc::Global;

// How many bytes of a packet stand before its body (JDWP, JDWP Packets).
const HEADER: u64 = 11;

// A body of so many bytes isn't read.
const TOO_LONG: usize = 1 << 32;

/// The ending by a fault at this place of a packet's body. An offset of 2^64 or more takes more memory than there is.
pub fn bad_body(fault: TargetFault, at: u64, place: u32) -> Ending
    ensures { MayBe result (BadTarget fault (at + header + place) 0) }
{
    match at.checked_add(HEADER + place as u64) {
        Some(at) => Ending::BadTarget { fault, at, id: 0 },
        None => Ending::NoMemory,
    }
}

// A fault of a composite's body, and its place.
fn composite_fault(fault: CompositeFault) -> Option<(TargetFault, u32)>
    ensures { result ≡ composite_fault fault }
{
    match fault {
        CompositeFault::NoMemory => None,
        CompositeFault::Short { at } => Some((TargetFault::Short, at)),
        CompositeFault::BadKind { at } => Some((TargetFault::BadKind, at)),
        CompositeFault::BadPolicy { at } => Some((TargetFault::BadPolicy, at)),
        CompositeFault::BadCount { at } => Some((TargetFault::BadCount, at)),
        CompositeFault::BadTag { at } => Some((TargetFault::BadTag, at)),
        CompositeFault::Trailing { at } => Some((TargetFault::Trailing, at)),
    }
}

// How a body that is no composite ends the session.
#[tactic(auto, using(crate::proofs::HearLaws::bad_composite))]
fn composite_refused(fault: CompositeFault, at: u64) -> Ending
    ensures { (used : Sizes) (body : List ℕ) → IsRead (composite_at used body) (Err fault)
        → IsBadBody used body at result }
{
    match composite_fault(fault) {
        Some((fault, place)) => bad_body(fault, at, place),
        None => Ending::NoMemory,
    }
}

/// Reads a composite, whose packet stands at this offset.
pub fn composite(alloc: Global, sizes: IdSizes, at: u64, body: &[u8]) -> Result<Composite, Ending>
    ensures ok { IfOk result (ReadsComposite sizes body.now) }
    ensures err { IfErr result (IsBadBody sizes body.now at) }
{
    if body.len() >= TOO_LONG {
        return Err(Ending::NoMemory);
    }
    match read_composite(alloc, sizes, body) {
        Ok(composite) => Ok(composite),
        Err(fault) => Err(composite_refused(fault, at)),
    }
}

/// The ending by the refusal of a command, with this error (JDWP, JDWP Packets, reply packet).
pub fn target_refused(asked: &Asked, error: u16) -> Ending
    ensures { result ≡ TargetRefused (number_of asked.now).0 (number_of asked.now).1 error }
{
    let (set, command) = asked.kind().numbers();
    Ending::TargetRefused {
        set,
        command,
        code: error,
    }
}

// A fault of an answer's body, and its place; the command is known, so nothing else is wrong with it.
fn answer_fault(fault: BodyFault) -> Option<(TargetFault, u32)>
    ensures { result ≡ answer_fault fault }
{
    match fault {
        BodyFault::NoMemory => None,
        BodyFault::UnknownCommand => None,
        BodyFault::Short { at } => Some((TargetFault::Short, at)),
        BodyFault::BadTag { at } => Some((TargetFault::BadTag, at)),
        BodyFault::BadCount { at } => Some((TargetFault::BadCount, at)),
        BodyFault::Trailing { at } => Some((TargetFault::Trailing, at)),
    }
}

// How a body that is no answer ends the session.
#[tactic(auto, using(crate::proofs::HearLaws::bad_answer))]
fn answer_refused(fault: BodyFault, at: u64) -> Ending
    ensures { (used : Sizes) (asked : AnAsked) (body : List ℕ) → AreReadSo (answer_at used asked body) (Err fault)
        → IsBadAnswer used asked body at result }
{
    match answer_fault(fault) {
        Some((fault, place)) => bad_body(fault, at, place),
        None => Ending::NoMemory,
    }
}

/// Reads the answer to a command, whose packet stands at this offset. A fault of its body ends the session, at the place
/// of this fault in the stream; so does want of memory, and that is all that is said of a body of 2^32 bytes or more
/// (JDWP, JDWP Packets, reply packet).
pub fn answer(
    alloc: Global,
    sizes: IdSizes,
    asked: &Asked,
    at: u64,
    body: &[u8],
) -> Result<Answer, Ending>
    ensures ok { IfOk result (ReadsAnswer sizes asked.now body.now) }
    ensures err { IfErr result (IsBadAnswer sizes asked.now body.now at) }
{
    if body.len() >= TOO_LONG {
        return Err(Ending::NoMemory);
    }
    match read_answer(alloc, sizes, asked, body) {
        Ok(answer) => Ok(answer),
        Err(fault) => Err(answer_refused(fault, at)),
    }
}
