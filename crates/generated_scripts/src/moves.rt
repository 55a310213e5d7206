//! The moves of a generated program.
ghost use Rattle.std.specs.Prelude.{◌≡◌, ◌≤◌, ◌<◌, ◌^◌, ◌+◌, [], ◌∷◌, pos, IfOk};
ghost use Rattle.generated_scripts.specs.Numbers.{for_each_to, next_number, number_behind};
ghost use Rattle.generated_scripts.specs.Worlds.{move_to, moves};

use crate::world::n_slots;
use jdwp_values::ThreadId;
use std::alloc::Global;
use wire_core::{List, NoMemory};
use world_model::Move;

/// The moves: to each line once, and then the end.
pub(crate) fn moves(alloc: Global, number: u32) -> Result<List<Move>, NoMemory>
    requires from_one { 1 ≤ number }
    requires few { number ≤ 1000 }
    ensures { IfOk result (λ list. list ≡ moves number) }
{
    let mut list = moves_to(alloc, number)?;
    list.push(Move::Death)?;
    Ok(list)
}

fn moves_to(alloc: Global, number: u32) -> Result<List<Move>, NoMemory>
    requires from_one { 1 ≤ number }
    requires few { number ≤ 1000 }
    ensures { IfOk result (λ list. list ≡ for_each_to (λ i. move_to number i ∷ []) number) }
{
    let mut list = List::new(alloc);
    let mut value = u64::from(number);
    for i in 0..number {
        value = next_number(value);
        list.push(move_to(alloc, number, i + 1, value as i32)?)?;
    }
    Ok(list)
}

// The number behind a number below 2^31.
#[tactic(auto, unfolding(crate::specs::Numbers::next_number))]
fn next_number(x: u64) -> u64
    requires { x < 2 ^ 31 }
    ensures is { result ≡ next_number x }
    ensures small { result < 2 ^ 31 }
{
    (x * 1_103_515_245 + 12_345) % (1 << 31)
}

// The thread comes to the next line, and `n` has this value.
fn move_to(alloc: Global, number: u32, i: u32, value: i32) -> Result<Move, NoMemory>
    requires { 1 ≤ number }
    ensures { IfOk result (λ next. value ≡ pos (number_behind number i) → next ≡ move_to number i) }
{
    Ok(Move::At {
        thread: ThreadId(1),
        index: u64::from(i % number),
        slots: n_slots(alloc, value)?,
    })
}
