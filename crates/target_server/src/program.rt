//! The moves of a target's program that are left.
ghost use Rattle.std.specs.Prelude.{◌≡◌, [], ◌∷◌, drop, MatchOption};

use std::marker::Model;
use wire_core::List;
use world_model::Move;

/// A program of moves, and how many of them were made. Contracts see those that are left.
#[derive(Debug, Drop)]
pub(crate) struct Program {
    moves: List<Move>,
    made: usize,
}

impl Model for Program {
    ghost use Rattle.std.specs.Prelude.{List as Items, ◌≤◌, drop, length};
    ghost use Rattle.world_model.specs.declared.moves.Move.{Move as AMove};

    ghost Value = { Items AMove };

    ghost view = { λ p. drop p.made p.moves };

    ghost invariant = { λ p. p.made ≤ length p.moves };
}

impl Program {
    /// A program of which no move was made.
    pub(crate) fn new(moves: List<Move>) -> Program
        ensures { result ≡ moves }
    {
        Program { moves, made: 0 }
    }

    /// The next move, if there is one.
    pub(crate) fn next(&self) -> Option<&Move>
        ensures { MatchOption result (self.now ≡ []) (λ next. self.now ≡ next.now ∷ drop 1 self.now) }
    {
        self.moves.as_slice().get(self.made)
    }

    /// The next move was made.
    pub(crate) fn pass(&mut self)
        ensures { self.new ≡ drop 1 self.old }
    {
        if self.made < self.moves.len() {
            self.made += 1;
        }
    }
}
