//! A script from a number.
ghost use Rattle.std.specs.Prelude.{◌≡◌, ◌≤◌, IfOk};
ghost use Rattle.generated_scripts.specs.Generated.{generated};

use crate::moves::moves;
use crate::turns::turns;
use crate::world::world;
use script_rows::Script;
use std::alloc::Global;
use wire_core::NoMemory;

/// The script of a number from 1 to 1,000: a thread comes to each line of a method that has so many, and an editor looks
/// at its variables there, under the usual limits. `NoMemory` comes where memory is refused.
pub fn generated_script(alloc: Global, number: u32) -> Result<Script, NoMemory>
    requires from_one { 1 ≤ number }
    requires few { number ≤ 1000 }
    ensures { IfOk result (λ script. script ≡ generated number) }
{
    Ok(Script {
        world: world(alloc, number)?,
        program: moves(alloc, number)?,
        begin: None,
        schedule: turns(alloc, number)?,
        turns: 1_099_511_627_776,
        quiet: 43_200_000,
        waiting: 65_536,
    })
}
