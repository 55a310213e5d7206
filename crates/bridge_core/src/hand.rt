//! The item in hand, and what its talk does.
ghost use Rattle.std.specs.Prelude.{◌≡◌, ◌++◌, Some, IfOk, OnOk, option_map};
ghost use Rattle.bridge_core.specs.Moving.{StepsTo};
ghost use Rattle.machine_model.specs.Due.{due_as};
ghost use Rattle.machine_model.specs.Replying.{done_by, given_up, hand_replied, is_leaving, pending_in, told_by};
ghost use Rattle.machine_model.specs.State.{Hand, Machine as AMachine};
ghost use Rattle.machine_model.specs.declared.acts.Effect.{Effect as AnEffect};
ghost use Rattle.machine_model.specs.declared.acts.TargetCommand.TheVariants.{Effect as an_effect};
ghost use Rattle.machine_model.specs.declared.acts.TargetCommand.TheVariants.{Question as a_question};
ghost use Rattle.talk_plans.specs.Replies.{IsInFlight};
ghost use Rattle.talk_plans.specs.Talking.{AreSized, act_of, hand_after, talk_due};
ghost use Rattle.session_facts.specs.Effects.{IsNext};

use jdwp_commands::{Question, Replied};
use machine_model::TargetCommand;
use std::alloc::Global;
use std::collections::VecDeque;
use talk_plans::{Next, Talk};
use talk_state::State;
use wire_core::NoMemory;

/// The item in hand is given up; its commands without a reply stand behind those that were left so.
pub(crate) fn give_up(
    alloc: Global,
    hand: &mut Option<Talk>,
    late: &mut VecDeque<TargetCommand>,
) -> Result<(), NoMemory>
    ensures late { OnOk result (late.new.items ≡ late.old.items ++ pending_in hand.old) }
    ensures hand { OnOk result (hand.new ≡ option_map given_up hand.old) }
{
    match hand {
        None => Ok(()),
        Some(talk) => {
            let mut commands = talk.give_up(alloc)?;
            late.append(&mut commands)?;
            Ok(())
        }
    }
}

/// A question of the item in hand is replied to, by which nothing more is known.
pub(crate) fn note_reply(
    alloc: Global,
    hand: &mut Option<Talk>,
    question: Question,
    replied: Replied,
) -> Result<(), NoMemory>
    ensures { OnOk result (hand.new ≡ option_map (hand_replied (a_question question) replied) hand.old) }
{
    match hand {
        None => Ok(()),
        Some(talk) => talk.note_reply(alloc, question, replied),
    }
}

/// A question of the item in hand is replied to.
pub(crate) fn answered(
    alloc: Global,
    hand: &mut Option<Talk>,
    state: &mut State,
    question: Question,
    replied: Replied,
) -> Result<(), NoMemory>
    ensures hand { OnOk result (hand.new ≡ option_map (hand_replied (a_question question) replied) hand.old) }
    ensures state { (talk : Hand) → hand.old ≡ Some talk
        → OnOk result (state.new ≡ told_by question replied state.old) }
{
    match hand {
        None => Ok(()),
        Some(talk) => talk.answered(alloc, state, question, replied),
    }
}

/// The effect of the item in hand that is in flight is replied to, by which nothing more is known.
pub(crate) fn note_done(hand: &mut Option<Talk>, replied: Replied)
    ensures { (talk : Hand) (effect : AnEffect) → hand.old ≡ Some talk → IsInFlight effect talk.effect
        → hand.new ≡ Some (hand_replied (an_effect effect) replied talk) }
{
    if let Some(talk) = hand {
        talk.note_done(replied);
    }
}

/// The effect of the item in hand that is in flight is replied to.
pub(crate) fn done(hand: &mut Option<Talk>, state: &mut State, replied: Replied)
    requires { (talk : Hand) (effect : AnEffect) → hand.old ≡ Some talk → IsInFlight effect talk.effect
        → IsNext effect state.old.wishes }
    ensures hand { (talk : Hand) (effect : AnEffect) → hand.old ≡ Some talk → IsInFlight effect talk.effect
        → hand.new ≡ Some (hand_replied (an_effect effect) replied talk) }
    ensures state { (talk : Hand) (effect : AnEffect) → hand.old ≡ Some talk → IsInFlight effect talk.effect
        → state.new ≡ done_by effect replied state.old }
{
    if let Some(talk) = hand {
        talk.done(state, replied);
    }
}

/// Whether the effect of the item in hand that is in flight leaves the target.
pub(crate) fn is_leaving(hand: &Option<Talk>) -> bool
    ensures { (talk : Hand) (effect : AnEffect) → hand.now ≡ Some talk → IsInFlight effect talk.effect
        → result ≡ is_leaving (an_effect effect) }
{
    match hand {
        None => false,
        Some(talk) => talk.is_leaving(),
    }
}

// What the talk in hand has next.
fn step_in(
    alloc: Global,
    hand: &mut Option<Talk>,
    state: &mut State,
    full: bool,
) -> Result<Next, NoMemory>
    requires { (talk : Hand) → hand.old ≡ Some talk → AreSized state.old talk }
    ensures { (talk : Hand) → hand.old ≡ Some talk
        → IfOk result (λ next. StepsTo next full state.old talk state.new hand.new) }
{
    match hand {
        None => Ok(Next::Wait),
        Some(talk) => talk.step(alloc, state, full),
    }
}

fn drop_talk(_talk: Option<Talk>) {}

/// This is in hand now.
pub(crate) fn hold(hand: &mut Option<Talk>, talk: Talk)
    ensures { hand.new ≡ Some talk }
{
    drop_talk(hand.replace(talk));
}

// A talk that is done is in hand no more.
fn let_go(hand: &mut Option<Talk>, next: &Next)
    ensures { (later : Hand) → hand.old ≡ Some later → hand.new ≡ hand_after next.now later }
{
    if let Next::Done = next {
        drop_talk(hand.take());
    }
}

/// What the talk in hand has next; one that is done is in hand no more.
pub(crate) fn go_on(
    alloc: Global,
    hand: &mut Option<Talk>,
    state: &mut State,
    full: bool,
) -> Result<Next, NoMemory>
    requires { (talk : Hand) → hand.old ≡ Some talk → AreSized state.old talk }
    ensures { (talk : Hand) (m : AMachine) → hand.old ≡ Some talk
        → IfOk result (λ next. due_as (act_of next) (record m { state = state.new; hand = hand.new })
        ≡ talk_due full m state.old talk) }
{
    let next = step_in(alloc, hand, state, full)?;
    let_go(hand, &next);
    Ok(next)
}
