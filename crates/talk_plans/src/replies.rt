//! Replies to what a talk sent, and what is left without one.
ghost use Rattle.std.specs.Prelude.{◌≡◌, ◌++◌, false, option_copied, IfOk, OnOk, Some};
ghost use Rattle.machine_model.specs.Replying.{done_by, given_up, hand_replied, pending_in, told_by};
ghost use Rattle.machine_model.specs.Replying.{is_leaving, unanswered_effect};
ghost use Rattle.machine_model.specs.Rest.{unanswered_hand};
ghost use Rattle.machine_model.specs.State.{is_flying};
ghost use Rattle.machine_model.specs.declared.acts.Effect.{Effect as AnEffect};
ghost use Rattle.machine_model.specs.declared.acts.TargetCommand.TheVariants.{Question as a_question};
ghost use Rattle.machine_model.specs.declared.acts.TargetCommand.TheVariants.{Effect as an_effect};
ghost use Rattle.talk_plans.specs.Replies.{IsInFlight, alone, doing_replied, last_leaves, state_replied};
ghost use Rattle.talk_plans.specs.Talking.{AreSized, SaysSizes};
ghost use Rattle.session_facts.specs.Effects.{IsNext};

use crate::talk::Talk;
use dap_messages::Request;
use jdwp_commands::{Question, Replied};
use machine_model::{Deed, Doing, Effect, Item, TargetCommand};
use session_facts::effect_copy;
use std::alloc::Global;
use std::collections::VecDeque;
use talk_look_ups::Asking;
use talk_rows::{gone_parts, has_response};
use talk_state::State;
use wire_core::NoMemory;

impl Talk {
    /// Whether an effect is in flight: it was sent, and its reply isn't there (JDWP, JDWP Packets).
    pub fn is_flying(&self) -> bool
        ensures { result ≡ is_flying self.now.effect }
    {
        match &self.effect {
            None => false,
            Some(doing) => doing.reply.is_none(),
        }
    }

    /// The request in hand, while its response is still to come (DAP specification, Base Protocol, Response).
    pub fn waiting_request(&self) -> Option<&Request>
        ensures { alone (option_copied result) ≡ unanswered_hand (Some self.now) }
    {
        if !has_response(&self.parts) {
            return None;
        }
        match &self.item {
            Item::Request(request) => Some(request),
            Item::Composite { .. } => None,
            Item::Raw { .. } => None,
            Item::TargetEnd => None,
        }
    }

    /// A question of the item is replied to: the reply stands where its question waited, and what it tells is known.
    /// `NoMemory` comes where memory is refused; then nothing is said of the talk, nor of what is known (JDWP, JDWP
    /// Packets, reply packet).
    #[tactic(auto, using(crate::proofs::TalkLaws::answered_sized))]
    pub fn answered(
        &mut self,
        alloc: Global,
        state: &mut State,
        question: Question,
        replied: Replied,
    ) -> Result<(), NoMemory>
        ensures hand { OnOk result (self.new ≡ hand_replied (a_question question) replied self.old) }
        ensures state { OnOk result (state.new ≡ told_by question replied state.old) }
        ensures sized { AreSized state.old self.old → SaysSizes question replied
            → OnOk result (AreSized state.new self.new) }
    {
        state.hear(alloc, &question, &replied)?;
        self.note_reply(alloc, question, replied)
    }

    /// A question of the item is replied to, by which nothing more is known than that it was: the target has ended.
    /// `NoMemory` comes where memory is refused; then nothing is said of the talk (JDWP, Error Constants, VM_DEAD).
    pub fn note_reply(
        &mut self,
        alloc: Global,
        question: Question,
        replied: Replied,
    ) -> Result<(), NoMemory>
        ensures { OnOk result (self.new ≡ hand_replied (a_question question) replied self.old) }
    {
        self.asking.answer(alloc, question, replied)
    }

    /// The effect in flight is replied to; where none is, nothing changes. If it sets or clears an event request, it is
    /// the one that is due (JDWP, JDWP Packets, reply packet).
    #[tactic(auto, using(crate::proofs::ReplyLaws::done_sized))]
    pub fn done(&mut self, state: &mut State, replied: Replied)
        requires { (effect : AnEffect) → IsInFlight effect self.old.effect → IsNext effect state.old.wishes }
        ensures hand { (effect : AnEffect) → IsInFlight effect self.old.effect
            → self.new ≡ hand_replied (an_effect effect) replied self.old }
        ensures state { (effect : AnEffect) → IsInFlight effect self.old.effect
            → state.new ≡ done_by effect replied state.old }
        ensures same_hand { is_flying self.old.effect ≡ false → self.new ≡ self.old }
        ensures same_state { is_flying self.old.effect ≡ false → state.new ≡ state.old }
        ensures sized { AreSized state.old self.old → AreSized state.new self.new }
    {
        settle_flying(&self.effect, state, &replied);
        put_reply(&mut self.effect, replied);
    }

    /// The effect in flight is replied to, by which nothing more is known than that it was: the target has ended. Where
    /// none is in flight, nothing changes (JDWP, Error Constants, VM_DEAD).
    pub fn note_done(&mut self, replied: Replied)
        ensures hand { (effect : AnEffect) → IsInFlight effect self.old.effect
            → self.new ≡ hand_replied (an_effect effect) replied self.old }
        ensures same { is_flying self.old.effect ≡ false → self.new ≡ self.old }
    {
        put_reply(&mut self.effect, replied);
    }

    /// Whether the effect in flight leaves the target, of which any reply will do. Where none is in flight, it is
    /// whether the one that was sent last did; `false` comes where none was sent (JDWP, VirtualMachine command set,
    /// Dispose and Exit).
    pub fn is_leaving(&self) -> bool
        ensures flying { (effect : AnEffect) → IsInFlight effect self.now.effect
            → result ≡ is_leaving (an_effect effect) }
        ensures last { result ≡ last_leaves self.now.effect }
    {
        match &self.effect {
            None => false,
            Some(doing) => leaves(&doing.effect),
        }
    }

    /// The item is given up at its target's end; the commands are handed out that have no reply, in order of sending.
    /// `NoMemory` comes where memory is refused; then nothing is said of the talk (JDWP, Event command set, Composite,
    /// VMDeath).
    pub fn give_up(&mut self, alloc: Global) -> Result<VecDeque<TargetCommand>, NoMemory>
        ensures late { IfOk result (λ late. late.items ≡ pending_in (Some self.old)) }
        ensures hand { OnOk result (self.new ≡ given_up self.old) }
    {
        let mut late = self.asking.asked().unanswered(alloc)?;
        add_flying(alloc, &self.effect, &mut late)?;
        self.parts = gone_parts(alloc, has_response(&self.parts), &self.item)?;
        self.asking = Asking::new(alloc);
        self.effect = None;
        Ok(late)
    }
}

fn leaves(effect: &Effect) -> bool
    ensures { result ≡ is_leaving (an_effect effect.now) }
{
    match effect {
        Effect::Does(Deed::Suspend) => false,
        Effect::Does(Deed::Resume(_)) => false,
        Effect::Does(Deed::Dispose) => true,
        Effect::Does(Deed::Exit) => true,
        Effect::Does(Deed::Writes(_)) => false,
        Effect::Set(_) => false,
        Effect::Clear { .. } => false,
    }
}

// What the reply to the effect in flight tells.
fn settle_flying(doing: &Option<Doing>, state: &mut State, replied: &Replied)
    requires { (effect : AnEffect) → IsInFlight effect doing.now → IsNext effect state.old.wishes }
    ensures { state.new ≡ state_replied doing.now replied.now state.old }
{
    match doing {
        None => {}
        Some(one) => {
            if one.reply.is_none() {
                state.settle(&one.effect, replied);
            }
        }
    }
}

// The effect in flight has this reply.
fn put_reply(doing: &mut Option<Doing>, replied: Replied)
    ensures { doing.new ≡ doing_replied replied doing.old }
{
    if let Some(one) = doing {
        if one.reply.is_none() {
            one.reply = Some(replied);
        }
    }
}

// The effect in flight has no reply either.
fn add_flying(
    alloc: Global,
    doing: &Option<Doing>,
    late: &mut VecDeque<TargetCommand>,
) -> Result<(), NoMemory>
    ensures { OnOk result (late.new.items ≡ late.old.items ++ unanswered_effect doing.now) }
{
    match doing {
        None => Ok(()),
        Some(one) => {
            if one.reply.is_none() {
                late.push_back(TargetCommand::Effect(effect_copy(alloc, &one.effect)?))?;
            }
            Ok(())
        }
    }
}
