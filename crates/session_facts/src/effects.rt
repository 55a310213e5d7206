//! The effects of event requests, what their replies make of what is known, and what the sending of a deed changes.
ghost use Rattle.std.specs.Prelude.{◌≡◌, false, is_some, true, IfOk};
ghost use Rattle.machine_model.specs.Due.{entry_by, still_held, still_thrown, thrown_by};
ghost use Rattle.machine_model.specs.Requests.{effect_due, request_in, set_to, wishes_after};
ghost use Rattle.machine_model.specs.Replying.{unlisted_by, watches};
ghost use Rattle.session_facts.specs.Effects.{IsNext};
ghost use Rattle.wish_sets.specs.Wishes.{Wishes as AWishes, is_cleared, is_outcome, next_change, next_place, set_by};
ghost use Rattle.wish_sets.specs.Wishes.{settled};
ghost use Rattle.wish_sets.specs.declared.wish.Wish.{Wish as AWish};

use crate::copies::wish_copy;
use jdwp_commands::{Answer, Replied};
use machine_model::{Deed, Effect, Suspension, Thrown};
use std::alloc::Global;
use wire_core::{List, NoMemory};
use wish_sets::{Change, Settled, Wish, Wishes};

/// The effect that is due: what isn't wished any more is cleared first, then what is wished is set; `None` where
/// nothing is to be changed. `NoMemory` comes where memory is refused (JDWP, EventRequest command set, Set and Clear).
pub fn effect_due(alloc: Global, wishes: &Wishes) -> Result<Option<Effect>, NoMemory>
    ensures { IfOk result (λ effect. effect ≡ effect_due wishes.now) }
{
    match wishes.next_change() {
        None => Ok(None),
        Some(
            Change::Clear {
                place: _,
                request,
                wish,
            },
        ) => Ok(Some(Effect::Clear {
            wish: wish_copy(alloc, wish)?,
            request,
        })),
        Some(Change::Set { place: _, wish }) => Ok(Some(Effect::Set(wish_copy(alloc, wish)?))),
    }
}

fn still_held(suspension: Suspension, entry: bool) -> bool
    ensures { result ≡ still_held suspension entry }
{
    match suspension {
        Suspension::Composite => entry,
        Suspension::Entry => false,
        Suspension::Stop => entry,
    }
}

/// Whether the target's entry is held once a deed is sent: with its Resume it is held no longer (JDWP, VirtualMachine
/// command set, Resume).
pub fn entry_by(deed: Deed, entry: bool) -> bool
    ensures { result ≡ entry_by deed entry }
{
    match deed {
        Deed::Suspend => entry,
        Deed::Resume(suspension) => still_held(suspension, entry),
        Deed::Dispose => entry,
        Deed::Exit => entry,
        Deed::Writes(_) => entry,
    }
}

// What was thrown in a stop is forgotten with the Resume of it.
fn resume_thrown(alloc: Global, suspension: Suspension, thrown: &mut List<Thrown>)
    ensures { thrown.new ≡ still_thrown suspension thrown.old }
{
    match suspension {
        Suspension::Composite => {}
        Suspension::Entry => {}
        Suspension::Stop => *thrown = List::new(alloc),
    }
}

/// What was thrown in a stop is known until it is over: with its Resume (JDWP, VirtualMachine command set, Resume).
pub fn forget_thrown(alloc: Global, deed: Deed, thrown: &mut List<Thrown>)
    ensures { thrown.new ≡ thrown_by deed thrown.old }
{
    match deed {
        Deed::Suspend => {}
        Deed::Resume(suspension) => resume_thrown(alloc, suspension, thrown),
        Deed::Dispose => {}
        Deed::Exit => {}
        Deed::Writes(_) => {}
    }
}

// The id of the event request that an answer gives.
fn request_in(replied: &Replied) -> Option<u32>
    ensures { result ≡ request_in replied.now }
{
    match replied {
        Replied::Answer(Answer::Set(request)) => Some(*request),
        _ => None,
    }
}

fn code_in(replied: &Replied) -> u16 {
    match replied {
        Replied::Answer(_) => 0,
        Replied::Error(code) => *code,
    }
}

// What came of a Set: it has an event request, or was refused.
fn set_outcome(replied: &Replied) -> Settled
    ensures set { (wish : AWish) (w : AWishes) → set_by wish result w ≡ set_to (request_in replied.now) wish w }
    ensures kind { is_cleared result ≡ false }
{
    match request_in(replied) {
        Some(request) => Settled::Installed(request),
        None => Settled::Refused(code_in(replied)),
    }
}

fn next_place(wishes: &Wishes) -> Option<u32>
    ensures place { result ≡ next_place wishes.now }
    ensures change { is_some result ≡ is_some (next_change wishes.now) }
{
    match wishes.next_change() {
        None => None,
        Some(Change::Clear { place, .. }) => Some(place),
        Some(Change::Set { place, .. }) => Some(place),
    }
}

// What came of the change that is due is marked.
fn mark(wishes: &mut Wishes, outcome: Settled)
    requires { is_outcome (next_change wishes.old) outcome ≡ true }
    ensures { wishes.new ≡ settled outcome wishes.old }
{
    match next_place(wishes) {
        None => {}
        Some(place) => wishes.settled(place, outcome),
    }
}

// Whether a watch is set, where the reply gives this id of its event request (JDWP, EventRequest command set, Set,
// ClassMatch).
fn watches(wish: &Wish, request: Option<u32>) -> bool
    ensures { result ≡ watches wish.now request }
{
    match wish {
        Wish::Watch(_) => request.is_some(),
        Wish::ThreadStart => false,
        Wish::ThreadDeath => false,
        Wish::Stop(_) => false,
        Wish::Thrown { .. } => false,
        Wish::Step { .. } => false,
    }
}

/// Whether all classes are to be listed once an effect is replied to: a watch is set, or they were to be before (JDWP,
/// VirtualMachine command set, AllClasses).
pub fn unlisted_by(effect: &Effect, replied: &Replied, unlisted: bool) -> bool
    ensures { result ≡ unlisted_by effect.now replied.now unlisted }
{
    match effect {
        Effect::Does(_) => unlisted,
        Effect::Set(wish) => watches(wish, request_in(replied)) || unlisted,
        Effect::Clear { .. } => unlisted,
    }
}

/// What the reply to the effect that was due makes of the event requests: what was set stands or was refused, what was
/// cleared is gone. It takes no memory (JDWP, EventRequest command set, Set and Clear).
#[tactic(auto, using(crate::proofs::EffectLaws::set_is, crate::proofs::EffectLaws::clear_is))]
pub fn settle(wishes: &mut Wishes, effect: &Effect, replied: &Replied)
    requires { IsNext effect.now wishes.old }
    ensures { wishes.new ≡ wishes_after effect.now replied.now wishes.old }
{
    match effect {
        Effect::Does(_) => {}
        Effect::Set(_) => mark(wishes, set_outcome(replied)),
        Effect::Clear { .. } => {
            if let Replied::Answer(_) = replied {
                mark(wishes, Settled::Cleared);
            }
        }
    }
}
