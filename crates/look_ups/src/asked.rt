//! What was asked for an item, found by its question.
ghost use Rattle.std.specs.Prelude.{◌≡◌, ◌∷◌, ◌++◌, [], None, false, IfOk, OnErr, OnOk, option_copied, option_map};
ghost use Rattle.std.specs.List.{flat_map};
ghost use Rattle.jdwp_commands.specs.declared.question.Question.{Question as AQuestion};
ghost use Rattle.jdwp_commands.specs.declared.question.Question.TheVariants as questions;
ghost use Rattle.machine_model.specs.Apart.{was_asked};
ghost use Rattle.machine_model.specs.Keys.{same_question};
ghost use Rattle.machine_model.specs.Plans.{found_from};
ghost use Rattle.machine_model.specs.Replying.{fails_by, filled, is_failed, is_waiting, unanswered};
ghost use Rattle.machine_model.specs.State.{has_waiting};
ghost use Rattle.look_ups.specs.Asking.{found_of, reply_in, sent_of, waiting_in, want_of};

use crate::copies::question_copy;
use crate::question_key::QuestionKey;
use indexmap::IndexMap;
use jdwp_commands::{Question, Replied};
use jdwp_values::ThreadId;
use machine_model::TargetCommand;
use std::alloc::Global;
use std::collections::VecDeque;
use std::marker::Model;
use wire_core::NoMemory;

/// Why a question was asked: nothing can stand in for its answer; an error is no answer; or it asks for a fact of a
/// class.
#[derive(Clone, Copy, PartialEq, Eq)]
pub enum Reason {
    Must,
    May,
    Fact,
}

/// Why a question was asked, and its reply once that is there.
#[derive(Drop)]
struct Tried {
    reason: Reason,
    reply: Option<Replied>,
}

/// What was asked for the item in hand, in order of sending. Contracts see the wants with their replies.
#[derive(Drop)]
pub struct Asked {
    entries: IndexMap<QuestionKey, Tried>,
}

impl Model for Asked {
    ghost use Rattle.std.specs.Prelude.{List, map};
    ghost use Rattle.machine_model.specs.declared.acts.Sent.{Sent};
    ghost use Rattle.machine_model.specs.Keys.{same_question};
    ghost use Rattle.std.specs.List.{IsDistinct};
    ghost use Rattle.std.specs.Map.{keys_of};
    ghost use Rattle.look_ups.specs.Asking.{sent_of};

    ghost Value = { List Sent };

    ghost view = { λ a. map sent_of a.entries.entries };

    ghost invariant = { λ a. IsDistinct same_question (keys_of a.entries.entries) };
}

impl Asked {
    /// Nothing was asked; it takes no memory.
    pub fn new(alloc: Global) -> Asked
        ensures { result ≡ [] }
    {
        Asked {
            entries: IndexMap::new(alloc),
        }
    }

    /// A question that wasn't asked before is asked. `NoMemory` comes where memory is refused; then no more was asked
    /// than before (JDWP, JDWP Packets, command packet).
    #[tactic(auto, using(crate::proofs::AskedLemmas::added))]
    pub fn add(&mut self, key: QuestionKey, reason: Reason) -> Result<(), NoMemory>
        requires { was_asked key self.old ≡ false }
        ensures ok { OnOk result (self.new
            ≡ self.old ++ record { want = want_of reason key; reply = None } ∷ []) }
        ensures err { OnErr result (self.new ≡ self.old) }
    {
        self.entries.insert(
            key,
            Tried {
                reason,
                reply: None,
            },
        )?;
        Ok(())
    }

    /// The reply to a question, and the place of the question in the order of sending.
    #[tactic(auto, using(crate::proofs::AskedLemmas::found_none))]
    pub fn find(&self, key: &QuestionKey) -> Option<(usize, &Replied)>
        ensures { option_map (λ p. found_of p.0 p.1.now) result ≡ found_from 0 self.now key.now }
    {
        match self.entries.get_full(key) {
            None => None,
            Some((place, _, tried)) => match &tried.reply {
                None => None,
                Some(replied) => Some((place, replied)),
            },
        }
    }

    /// The reply to the question for a thread's name. The question is looked for at this place in the order of sending,
    /// and elsewhere only where it isn't there; the result is the same for any place. `NoMemory` comes where memory is
    /// refused (JDWP, ThreadReference command set, Name).
    #[tactic(auto, using(crate::proofs::AskedLemmas::replied_none, crate::proofs::AskedLemmas::replied_here))]
    pub fn name_reply(
        &self,
        alloc: Global,
        thread: ThreadId,
        place: usize,
    ) -> Result<Option<&Replied>, NoMemory>
        ensures { IfOk result (λ reply. option_copied reply
            ≡ reply_in (found_from 0 self.now (questions.ThreadName thread))) }
    {
        if let Some((key, tried)) = self.entries.get_index(place) {
            if asks_name(key.question(), thread) {
                return Ok(tried.reply.as_ref());
            }
        }
        let key = QuestionKey::new(alloc, Question::ThreadName(thread))?;
        Ok(self.reply(&key))
    }

    // The reply to a question.
    #[tactic(auto, using(crate::proofs::AskedLemmas::replied_none, crate::proofs::AskedLemmas::replied_there))]
    fn reply(&self, key: &QuestionKey) -> Option<&Replied>
        ensures { option_copied result ≡ reply_in (found_from 0 self.now key.now) }
    {
        match self.entries.get(key) {
            None => None,
            Some(tried) => tried.reply.as_ref(),
        }
    }

    // Why a question was asked that has no reply.
    #[tactic(auto, using(crate::proofs::AskedLemmas::waiting_none))]
    fn waiting(&self, key: &QuestionKey) -> Option<Reason>
        ensures { option_map (λ reason. want_of reason key.now) result ≡ waiting_in key.now self.now }
    {
        match self.entries.get(key) {
            None => None,
            Some(tried) => match &tried.reply {
                None => Some(tried.reason),
                Some(_) => None,
            },
        }
    }

    /// Whether a question was asked, and its reply isn't there.
    #[tactic(auto, using(crate::proofs::AskedLemmas::waits_is))]
    pub fn is_waiting(&self, key: &QuestionKey) -> bool
        ensures { result ≡ is_waiting key.now self.now }
    {
        self.waiting(key).is_some()
    }

    /// Whether some question has no reply.
    #[tactic(auto, using(crate::proofs::AskedLemmas::any_waits))]
    pub fn has_waiting(&self) -> bool
        ensures { result ≡ has_waiting self.now }
    {
        for tried in self.entries.values() {
            if tried.reply.is_none() {
                return true;
            }
        }
        false
    }

    /// The questions that have no reply, as commands, in order of sending. `NoMemory` comes where memory is refused
    /// (JDWP, JDWP Packets).
    pub fn unanswered(&self, alloc: Global) -> Result<VecDeque<TargetCommand>, NoMemory>
        ensures { IfOk result (λ late. late.items ≡ flat_map unanswered self.now) }
    {
        let mut late = VecDeque::new(alloc);
        for (key, tried) in self.entries.iter() {
            add_unanswered(alloc, key, tried, &mut late)?;
        }
        Ok(late)
    }

    /// Whether a reply fails what waits for it: it is an error, and nothing can stand in for the answer.
    #[tactic(auto, using(crate::proofs::AskedLemmas::fails_is))]
    pub fn is_failed(&self, key: &QuestionKey, replied: &Replied) -> bool
        ensures { result ≡ is_failed key.now replied.now self.now }
    {
        match self.waiting(key) {
            None => false,
            Some(reason) => fails_by(reason, replied),
        }
    }

    /// A question is replied to; a reply that is there stays, and a question that wasn't asked changes nothing.
    /// `NoMemory` comes where memory is refused; then all is as before (JDWP, JDWP Packets, reply packet).
    #[tactic(auto, using(crate::proofs::AskedLemmas::filled_none, crate::proofs::AskedLemmas::filled_there))]
    pub fn fill(&mut self, key: QuestionKey, replied: Replied) -> Result<(), NoMemory>
        ensures ok { OnOk result (self.new ≡ filled key replied self.old) }
        ensures err { OnErr result (self.new ≡ self.old) }
    {
        match self.waiting(&key) {
            None => Ok(()),
            Some(reason) => {
                self.entries.insert(
                    key,
                    Tried {
                        reason,
                        reply: Some(replied),
                    },
                )?;
                Ok(())
            }
        }
    }
}

// Whether a question asks for the name of this thread.
fn asks_name(question: &Question, thread: ThreadId) -> bool
    ensures { result ≡ same_question (questions.ThreadName thread) question.now }
{
    match question {
        Question::ThreadName(other) => thread == *other,
        _ => false,
    }
}

// A question is among them where it has no reply.
#[tactic(auto, using(crate::proofs::AskedLemmas::same_want))]
fn add_unanswered(
    alloc: Global,
    key: &QuestionKey,
    tried: &Tried,
    late: &mut VecDeque<TargetCommand>,
) -> Result<(), NoMemory>
    ensures { OnOk result (late.new.items ≡ late.old.items ++ unanswered (sent_of (key.now, tried.now))) }
{
    if tried.reply.is_none() {
        late.push_back(TargetCommand::Question(question_copy(alloc, key.question())?))?;
    }
    Ok(())
}

// An error to what nothing can stand in for.
fn fails_by(reason: Reason, replied: &Replied) -> bool
    ensures { (question : AQuestion) → result ≡ fails_by (want_of reason question) replied.now }
{
    match reason {
        Reason::Must => matches!(replied, Replied::Error(_)),
        Reason::May => false,
        Reason::Fact => false,
    }
}
