//! Texts that are told one after the other.
ghost use Rattle.std.specs.Prelude.{◌≡◌, ◌∷◌, [], MatchOption};

use std::alloc::Global;
use std::collections::VecDeque;
use std::marker::Model;
use wire_core::Text;

/// Texts that are told one after the other: the first is taken, and no other is moved. Contracts see the list of them.
#[derive(Drop)]
pub struct Texts {
    queue: VecDeque<Text>,
}

impl Model for Texts {
    ghost use Rattle.std.specs.Prelude.{List as Items, ℕ};

    ghost Value = { Items (Items ℕ) };

    ghost view = { λ texts. texts.queue.items };
}

impl Texts {
    /// No texts, which takes no memory.
    pub fn new(alloc: Global) -> Texts
        ensures { result ≡ [] }
    {
        Texts {
            queue: VecDeque::new(alloc),
        }
    }

    /// Takes the first, where there is one.
    pub fn take(&mut self) -> Option<Text>
        ensures { MatchOption result ((self.old ≡ []) × (self.new ≡ [])) (λ text. self.old ≡ text ∷ self.new) }
    {
        self.queue.pop_front()
    }
}
