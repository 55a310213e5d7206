//! What a choice becomes when its turn comes.
ghost use Rattle.std.specs.Prelude.{◌≡◌, IfOk};
ghost use Rattle.machine_model.specs.Rows.{chosen, leaves, leaving};
ghost use Rattle.machine_model.specs.State.{Hand as AHand};

use machine_model::{Choice, Deed, Doing, Item, Part, Phase};
use std::alloc::Global;
use std::collections::VecDeque;
use talk_events::{decided, judged, told_news};
use talk_rows::{refused_with, stepped_by, written_by};
use talk_state::State;
use wire_core::NoMemory;

fn leaving(exits: bool) -> Deed
    ensures { result ≡ leaving exits }
{
    if exits { Deed::Exit } else { Deed::Dispose }
}

// Only a target that is attached has to be left.
fn leaves(alloc: Global, phase: Phase, exits: bool) -> Result<VecDeque<Part>, NoMemory>
    ensures { IfOk result (λ parts. parts.items ≡ leaves phase exits) }
{
    match phase {
        Phase::Fresh => Ok(VecDeque::new(alloc)),
        Phase::Attached => Ok(VecDeque::from_array(alloc, [Part::Sends(leaving(exits))])?),
        Phase::Gone => Ok(VecDeque::new(alloc)),
    }
}

/// The parts that a choice becomes when its turn comes, by the reply to the last effect. `NoMemory` comes where memory is
/// refused.
pub fn chosen(
    alloc: Global,
    choice: Choice,
    state: &State,
    item: &Item,
    effect: &Option<Doing>,
) -> Result<VecDeque<Part>, NoMemory>
    ensures { IfOk result (λ parts. (hand : AHand) → hand.item ≡ item.now → hand.effect ≡ effect.now
        → parts.items ≡ chosen choice state.now hand) }
{
    match choice {
        Choice::TellsNews(below) => told_news(alloc, below, state, item),
        Choice::Judges => judged(alloc, state, item),
        Choice::Decides { logged, stops } => decided(alloc, state, logged, stops, item),
        Choice::Stepped => stepped_by(alloc, refused_with(effect)),
        Choice::Written(seen) => written_by(alloc, seen, refused_with(effect)),
        Choice::Leaves(exits) => leaves(alloc, state.phase, exits),
    }
}
