//! What the target's packets say, and how they end a session.
ghost use Rattle.std.specs.Prelude.{◌≡◌, ◌<◌, false, true, IfErr, IfOk, MatchOption, OnOk};
ghost use Rattle.std.specs.Prelude.{position, set, OnErr, Some};
ghost use Rattle.jdwp_commands.specs.Commands.{number_of};
ghost use Rattle.jdwp_values.specs.Sizes.{is_no_size};
ghost use Rattle.machine_model.specs.Replying.{has_good_sizes, is_dead};
ghost use Rattle.machine_model.specs.State.{has_raw, is_raw};
ghost use Rattle.message_bodies.specs.Hearing.{AreReadOff, HasBadSizes, IsJudged, IsReadFirst, IsRefused};
ghost use Rattle.message_bodies.specs.Hearing.{MayBeKept, MayBeLeft};
ghost use Rattle.message_bodies.specs.Hearing.{is_essential_asked, is_tolerated_asked};
ghost use Rattle.session_model.specs.Faults.{numbers_in};
ghost use Rattle.session_model.specs.Saying.{is_composite};
ghost use Rattle.session_endings.specs.declared.ending.Ending.TheVariants.{TargetRefused};
ghost use Rattle.jdwp_commands.specs.declared.asked.Replied.TheVariants.{Error as an_error};

use crate::waiting::{first_kept, put_at};
use jdwp_commands::{Answer, Asked, Effect, Question, Replied};
use jdwp_values::IdSizes;
use machine_model::Item;
use session_endings::{Ending, TargetFault};
use std::alloc::Global;
use std::collections::VecDeque;
use target_bodies::{answer, bad_body, composite, target_refused};

// The error of a target that has ended (JDWP, Error Constants, VM_DEAD).
const VM_DEAD: u16 = 112;

// The set and the number of a composite (JDWP, Event command set, Composite).
const EVENT_SET: u8 = 64;

const COMPOSITE: u8 = 100;

/// Whether a command of this set and this number is a composite.
pub fn is_composite(set: u8, command: u8) -> bool
    ensures { result ≡ is_composite set command }
{
    set == EVENT_SET && command == COMPOSITE
}

// Reads the composite that was kept at this place; one whose body has a fault ends the session.
#[tactic(auto, using(crate::proofs::HearLaws::read_so, crate::proofs::HearLaws::kept_so))]
fn read_at(
    alloc: Global,
    sizes: IdSizes,
    waiting: &VecDeque<Item>,
    place: usize,
) -> Result<Item, Ending>
    requires { position is_raw waiting.now.items ≡ Some place }
    ensures ok { IfOk result (λ item. IsReadFirst sizes waiting.now.items (set waiting.now.items place item)) }
    ensures err { IfErr result (MayBeKept sizes waiting.now.items) }
{
    match waiting.get(place) {
        Some(Item::Raw { at, body }) => Ok(Item::Composite {
            at: *at,
            composite: composite(alloc, sizes, *at, body.as_slice())?,
        }),
        _ => Err(Ending::NoMemory),
    }
}

// The composite that was kept at this place waits as it reads.
fn read_first(
    alloc: Global,
    sizes: IdSizes,
    waiting: &mut VecDeque<Item>,
    place: usize,
) -> Result<(), Ending>
    requires { position is_raw waiting.old.items ≡ Some place }
    ensures ok { OnOk result (IsReadFirst sizes waiting.old.items waiting.new.items) }
    ensures err { IfErr result (MayBeKept sizes waiting.old.items) }
    ensures same { OnErr result (waiting.new.items ≡ waiting.old.items) }
{
    let item = read_at(alloc, sizes, waiting, place)?;
    put_at(waiting, place, item);
    Ok(())
}

/// Reads the composites that were kept, in order; the first whose body has a fault ends the session.
#[tactic(auto, using(crate::proofs::PickLaws::none_kept, crate::proofs::HearLaws::fewer_raws))]
pub fn read_kept(alloc: Global, sizes: IdSizes, waiting: &mut VecDeque<Item>) -> Result<(), Ending>
    ensures ok { OnOk result (AreReadOff sizes waiting.old.items waiting.new.items) }
    ensures none { OnOk result (has_raw waiting.new.items ≡ false) }
    ensures err { IfErr result (MayBeLeft sizes waiting.old.items waiting.new.items) }
{
    while let Some(place) = first_kept(waiting) {
        read_first(alloc, sizes, waiting, place)?;
    }
    Ok(())
}

fn is_essential(asked: &Asked) -> bool
    ensures { result ≡ is_essential_asked asked.now }
{
    match asked {
        Asked::Question(Question::IdSizes) => true,
        Asked::Question(Question::AllClasses) => true,
        Asked::Question(_) => false,
        Asked::Effect(Effect::Clear { .. }) => true,
        Asked::Effect(Effect::Suspend) => true,
        Asked::Effect(Effect::Resume) => true,
        Asked::Effect(_) => false,
    }
}

// Whether a session goes on after an error: not where nothing can stand in for the answer, but that the target is dead.
fn is_tolerated(asked: &Asked, error: u16) -> bool
    ensures { result ≡ is_tolerated_asked asked.now error }
{
    !is_essential(asked) || error == VM_DEAD
}

/// Whether the error tells that the target has ended.
pub fn is_dead(replied: &Replied) -> bool
    ensures { result ≡ is_dead replied.now }
{
    match replied {
        Replied::Answer(_) => false,
        Replied::Error(code) => *code == VM_DEAD,
    }
}

// What a reply with an error says.
fn refused(asked: &Asked, error: u16) -> Result<Replied, Ending>
    ensures ok { IfOk result (λ replied. (is_tolerated_asked asked.now error ≡ true) × (replied ≡ an_error error)) }
    ensures err { IfErr result (λ ending. (is_tolerated_asked asked.now error ≡ false)
        × (ending ≡ TargetRefused (number_of asked.now).0 (number_of asked.now).1 error)) }
{
    if is_tolerated(asked, error) {
        return Ok(Replied::Error(error));
    }
    Err(target_refused(asked, error))
}

// The first of the sizes of ids in an answer that is none (JDWP, VirtualMachine command set, IDSizes).
fn bad_size(answer: &Answer) -> Option<u32>
    ensures { MatchOption result (has_good_sizes answer.now ≡ true)
        (λ which. position is_no_size (numbers_in answer.now) ≡ Some which) }
{
    match answer {
        Answer::IdSizes {
            field,
            method,
            object,
            class,
            frame,
        } => match IdSizes::new([*field, *method, *object, *class, *frame]) {
            Ok(_) => None,
            Err(bad) => Some(bad.0),
        },
        _ => None,
    }
}

// The ending by sizes of ids that are none.
#[tactic(auto, using(crate::proofs::HearLaws::bad_sizes_are))]
fn bad_sizes(answer: &Answer, at: u64) -> Option<Ending>
    ensures { MatchOption result (has_good_sizes answer.now ≡ true) (λ ending. HasBadSizes answer.now at ending) }
{
    let which = bad_size(answer)?;
    Some(bad_body(TargetFault::BadSizes, at, 4 * which))
}

/// What the reply to a command says, whose packet stands at this offset.
pub fn judged(
    alloc: Global,
    sizes: IdSizes,
    asked: &Asked,
    at: u64,
    error: u16,
    body: &[u8],
) -> Result<Replied, Ending>
    ensures ok { IfOk result (IsJudged sizes asked.now error body.now) }
    ensures err { IfErr result (IsRefused sizes asked.now at error body.now) }
{
    if error > 0 {
        return refused(asked, error);
    }
    match answer(alloc, sizes, asked, at, body) {
        Ok(answer) => match bad_sizes(&answer, at) {
            None => Ok(Replied::Answer(answer)),
            Some(ending) => Err(ending),
        },
        Err(ending) => Err(ending),
    }
}
