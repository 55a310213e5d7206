//! What is to be asked for an item, and what was.
ghost use Rattle.std.specs.Prelude.{◌≡◌, ◌∷◌, ◌++◌, ◌||◌, [], true, not, if◌then◌else◌, map, option_map};
ghost use Rattle.std.specs.Prelude.{IfNone, IfOk, OnOk};
ghost use Rattle.std.specs.List.{list_any};
ghost use Rattle.machine_model.specs.Keys.{same_question};
ghost use Rattle.machine_model.specs.Replying.{is_waiting};
ghost use Rattle.machine_model.proofs.AskedLaws.{all_due};
ghost use Rattle.machine_model.specs.Due.{with_want, with_wants};
ghost use Rattle.machine_model.specs.Plans.{question_of};
ghost use Rattle.machine_model.specs.State.{is_empty};
ghost use Rattle.talk_look_ups.specs.Asking.{answered_in, asked_next, reason_of, with_first};

use indexmap::IndexSet;
use jdwp_commands::{Question, Replied};
use look_ups::{Asked, QuestionKey, Reason, question_copy};
use machine_model::Want;
use std::alloc::Global;
use std::collections::VecDeque;
use std::marker::Model;
use wire_core::NoMemory;

/// What is to be asked for the item in hand, each question once and none that was asked, and what was asked for it.
#[derive(Drop)]
pub struct Asking {
    queue: VecDeque<Want>,
    asked: Asked,
}

impl Model for Asking {
    ghost use Rattle.std.specs.Prelude.{◌≡◌, true};
    ghost use Rattle.machine_model.specs.Apart.{are_apart};
    ghost use Rattle.talk_look_ups.specs.Asking.{Questions};

    ghost Value = { Questions };

    ghost view = { λ a. record { queue = a.queue.items; asked = a.asked } };

    ghost invariant = { λ a. are_apart a.asked a.queue.items ≡ true };
}

fn reason_of(want: &Want) -> Reason
    ensures { result ≡ reason_of want.now }
{
    match want {
        Want::Must(_) => Reason::Must,
        Want::May(_) => Reason::May,
        Want::Fact(_) => Reason::Fact,
    }
}

fn question_in(want: &Want) -> &Question
    ensures { result.now ≡ question_of want.now }
{
    match want {
        Want::Must(question) => question,
        Want::May(question) => question,
        Want::Fact(question) => question,
    }
}

fn key_of(alloc: Global, want: &Want) -> Result<QuestionKey, NoMemory>
    ensures { IfOk result (λ key. key ≡ question_of want.now) }
{
    let copy = question_copy(alloc, question_in(want))?;
    QuestionKey::new(alloc, copy)
}

fn into_question(want: Want) -> Question
    ensures { result ≡ question_of want }
{
    match want {
        Want::Must(question) => question,
        Want::May(question) => question,
        Want::Fact(question) => question,
    }
}

// Whether a question is neither pending nor to be asked; it is to be asked from now on.
#[tactic(auto, using(crate::proofs::AskingLaws::listed_is))]
fn is_new(
    asked: &Asked,
    seen: &mut IndexSet<QuestionKey>,
    key: QuestionKey,
) -> Result<bool, NoMemory>
    ensures new { IfOk result (λ new. new
        ≡ not (is_waiting key asked.now || list_any (same_question key) seen.old.keys)) }
    ensures seen { IfOk result (λ new. seen.new.keys ≡ if new then seen.old.keys ++ key ∷ [] else seen.old.keys) }
{
    if asked.is_waiting(&key) {
        return Ok(false);
    }
    Ok(seen.insert(key)?)
}

// A want, behind those that are to be asked, unless its question is among them or pending.
#[tactic(auto, using(crate::proofs::AskingLaws::with_new, crate::proofs::AskingLaws::with_old, crate::proofs::AskingLaws::seen_new))]
fn add_want(
    alloc: Global,
    asked: &Asked,
    seen: &mut IndexSet<QuestionKey>,
    queue: &mut VecDeque<Want>,
    want: Want,
) -> Result<(), NoMemory>
    requires { seen.old.keys ≡ map question_of queue.old.items }
    ensures seen { OnOk result (seen.new.keys ≡ map question_of queue.new.items) }
    ensures queue { OnOk result (queue.new.items ≡ with_want asked.now queue.old.items want) }
{
    let key = key_of(alloc, &want)?;
    if !is_new(asked, seen, key)? {
        return Ok(());
    }
    queue.push_back(want)?;
    Ok(())
}

fn with_wants(
    alloc: Global,
    asked: &Asked,
    mut wants: VecDeque<Want>,
) -> Result<VecDeque<Want>, NoMemory>
    ensures { IfOk result (λ queue. queue.items ≡ with_wants asked.now [] wants.items) }
{
    let mut seen = IndexSet::new(alloc);
    let mut queue = VecDeque::new(alloc);
    while let Some(want) = wants.pop_front() {
        add_want(alloc, asked, &mut seen, &mut queue, want)?;
    }
    Ok(queue)
}

impl Asking {
    /// Nothing is to be asked, and nothing was; it takes no memory.
    pub fn new(alloc: Global) -> Asking
        ensures { result ≡ record { queue = []; asked = [] } }
    {
        Asking {
            queue: VecDeque::new(alloc),
            asked: Asked::new(alloc),
        }
    }

    /// What was asked, in order of sending (JDWP, JDWP Packets).
    pub fn asked(&self) -> &Asked
        ensures { result.now ≡ self.now.asked }
    {
        &self.asked
    }

    /// Whether anything is to be asked.
    pub fn has_queued(&self) -> bool
        ensures { result ≡ not (is_empty self.now.queue) }
    {
        !self.queue.is_empty()
    }

    /// What is lacking is to be asked, each question once, but for what is pending. Each of them is pending, or wasn't
    /// asked before. `NoMemory` comes where memory is refused.
    #[tactic(auto, using(crate::proofs::AskingLaws::queue_apart))]
    pub fn queue(&mut self, alloc: Global, wants: VecDeque<Want>) -> Result<(), NoMemory>
        requires { all_due self.old.asked wants.items ≡ true }
        ensures { OnOk result (self.new ≡ record self.old { queue = with_wants self.old.asked [] wants.items }) }
    {
        self.queue = with_wants(alloc, &self.asked, wants)?;
        Ok(())
    }

    /// The first of what is to be asked is asked now, where there is one. `NoMemory` comes where memory is refused (JDWP,
    /// JDWP Packets, command packet).
    #[tactic(auto, using(crate::proofs::AskingLaws::apart_next, crate::proofs::AskingLaws::apart_rest, crate::proofs::AskingLaws::first_new))]
    pub fn ask(&mut self, alloc: Global) -> Result<Option<Question>, NoMemory>
        ensures asks { IfOk result (λ asked. option_map (λ question. (question, self.new)) asked
            ≡ asked_next self.old) }
        ensures more { IfOk result (λ asked. self.new.asked ≡ with_first self.old.queue self.old.asked) }
        ensures none { IfOk result (λ asked. IfNone asked (self.new ≡ self.old)) }
    {
        match self.queue.pop_front() {
            None => Ok(None),
            Some(want) => {
                let reason = reason_of(&want);
                let question = into_question(want);
                let copy = question_copy(alloc, &question)?;
                self.asked.add(QuestionKey::new(alloc, question)?, reason)?;
                Ok(Some(copy))
            }
        }
    }

    /// A question is replied to; an error to what nothing can stand in for empties what is to be asked. `NoMemory` comes
    /// where memory is refused (JDWP, JDWP Packets, reply packet).
    #[tactic(auto, using(machine_model::proofs::AskedLaws::apart_filled))]
    pub fn answer(
        &mut self,
        alloc: Global,
        question: Question,
        replied: Replied,
    ) -> Result<(), NoMemory>
        ensures { OnOk result (self.new ≡ answered_in question replied self.old) }
    {
        let key = QuestionKey::new(alloc, question)?;
        if self.asked.is_failed(&key, &replied) {
            self.queue = VecDeque::new(alloc);
        }
        self.asked.fill(key, replied)?;
        Ok(())
    }
}
