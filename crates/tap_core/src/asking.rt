//! The questions of a tap: where they stand.
ghost use Rattle.std.specs.Prelude.{◌≡◌, ◌∷◌, [], IfOk, IfSome, MatchOption, None, OnErr, OnOk, Some, map};
ghost use Rattle.std.specs.Prelude.{slice_get, slice_set, true};
ghost use Rattle.tap_core.specs.Cores.{unasked};
ghost use Rattle.tap_model.specs.Questions.{fitting, unanswered};

use jdwp_values::IdSizes;
use std::alloc::Global;
use std::collections::VecDeque;
use std::marker::Model;
use tap_model::{Ask, Reached};
use wire_core::{List, NoMemory};

/// The questions of a tap: whether the sizes of ids were asked for, and what they are; which questions are still to be
/// sent, by their numbers; and what each has come to.
pub(crate) struct Asking {
    asked_sizes: bool,
    sizes: Option<IdSizes>,
    left: VecDeque<usize>,
    answers: Vec<Reached>,
}

impl Model for Asking {
    ghost use Rattle.tap_model.specs.States.{Asking as AnAsking};

    ghost Value = { AnAsking };

    ghost view = { λ a. record {
      asked_sizes = a.asked_sizes;
      sizes = a.sizes;
      left = a.left.items;
      answers = a.answers.items;
    } };
}

// A question has come to this, where there is one of this number.
#[tactic(auto, using(std::proofs::lemmas::List::set_past))]
fn put(answers: &mut Vec<Reached>, n: usize, reached: Reached)
    ensures { answers.new.items ≡ slice_set answers.old.items n reached }
{
    if n < answers.len() {
        answers[n] = reached;
    }
}

// The first of the numbers that are left.
fn first_of(left: &VecDeque<usize>) -> Option<usize>
    ensures { result ≡ slice_get left.now.items 0 }
{
    match left.front() {
        Some(n) => Some(*n),
        None => None,
    }
}

// The first of the numbers that are left, which is so no longer.
fn pop(left: &mut VecDeque<usize>) -> Option<usize>
    ensures { MatchOption result (left.old.items ≡ []) (λ n. left.old.items ≡ n ∷ left.new.items) }
{
    left.pop_front()
}

impl Asking {
    /// No question was asked.
    pub(crate) fn new(alloc: Global, asks: &[Ask]) -> Result<Asking, NoMemory>
        ensures { IfOk result (λ asking. asking ≡ unasked asks.now) }
    {
        Ok(Asking {
            asked_sizes: false,
            sizes: None,
            left: VecDeque::new(alloc),
            answers: tap_questions::no_answers(alloc, asks)?,
        })
    }

    /// Whether the sizes of ids were asked for (JDWP, VirtualMachine command set, IDSizes).
    pub(crate) fn has_asked_sizes(&self) -> bool
        ensures { result ≡ self.now.asked_sizes }
    {
        self.asked_sizes
    }

    /// The sizes of ids, once they are known.
    pub(crate) fn sizes(&self) -> Option<IdSizes>
        ensures { result ≡ self.now.sizes }
    {
        self.sizes
    }

    /// The number of the next question.
    pub(crate) fn first(&self) -> Option<usize>
        ensures { result ≡ slice_get self.now.left 0 }
    {
        first_of(&self.left)
    }

    /// The sizes of ids were asked for.
    pub(crate) fn ask_sizes(&mut self)
        ensures { self.new ≡ record self.old { asked_sizes = true } }
    {
        self.asked_sizes = true;
    }

    /// The number of the next question, which is left no longer.
    pub(crate) fn next(&mut self) -> Option<usize>
        ensures some { IfSome result (λ n. self.old.left ≡ n ∷ self.new.left) }
        ensures others { self.new ≡ record self.old { left = self.new.left } }
        ensures none { result ≡ None → self.old.left ≡ [] }
    {
        pop(&mut self.left)
    }

    /// The sizes of ids are known: the questions that are fit can be asked, and the others are given up.
    pub(crate) fn learn(
        &mut self,
        alloc: Global,
        asks: &[Ask],
        sizes: IdSizes,
    ) -> Result<(), NoMemory>
        ensures ok { OnOk result (self.new ≡ record self.old {
          sizes = Some sizes;
          left = fitting sizes 0 asks.now;
          answers = map (unanswered sizes) asks.now;
        }) }
        ensures err { OnErr result (self.new ≡ self.old) }
    {
        let answers = tap_questions::unanswered(alloc, sizes, asks)?;
        let left = tap_questions::fitting(alloc, sizes, asks)?;
        self.sizes = Some(sizes);
        self.left = left;
        self.answers = answers;
        Ok(())
    }

    /// A question has come to this.
    pub(crate) fn reach(&mut self, n: usize, reached: Reached)
        ensures { self.new ≡ record self.old { answers = slice_set self.old.answers n reached } }
    {
        put(&mut self.answers, n, reached);
    }

    /// What each question has come to.
    pub(crate) fn finish(self) -> List<Reached>
        ensures { result ≡ self.answers }
    {
        let Asking {
            asked_sizes: _,
            sizes: _,
            left: _,
            answers,
        } = self;
        List::from_vec(answers)
    }
}
