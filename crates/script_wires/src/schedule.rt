//! The lines of a schedule that are left.
ghost use Rattle.std.specs.Prelude.{◌≡◌, ◌≤◌, [], ◌∷◌, length, drop, MatchOption};

use script_rows::Turn;
use wire_core::List;

/// A schedule, and how many of its lines are done.
#[derive(Drop)]
pub(crate) struct Schedule {
    lines: List<Turn>,
    done: usize,
    ghost in_range: { done ≤ length lines },
}

impl Schedule {
    ghost use Rattle.script_wires.specs.Lines.{lines_left};

    /// A schedule of which no line is done.
    pub(crate) fn new(lines: List<Turn>) -> Schedule
        ensures { lines_left result ≡ lines }
    {
        Schedule { lines, done: 0 }
    }

    /// The first line, if one is left.
    pub(crate) fn first(&self) -> Option<&Turn>
        ensures { MatchOption result (lines_left self.now ≡ [])
            (λ line. lines_left self.now ≡ line.now ∷ drop 1 (lines_left self.now)) }
    {
        self.lines.as_slice().get(self.done)
    }

    /// The first line is done.
    pub(crate) fn pass(&mut self)
        ensures { lines_left self.new ≡ drop 1 (lines_left self.old) }
    {
        if self.done < self.lines.len() {
            self.done += 1;
        }
    }
}
