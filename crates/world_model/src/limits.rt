//! The numbers that a target can run out of: how often all threads are suspended, and what an event request gets. It
//! takes no memory to say whether one is left.
ghost use Rattle.std.specs.Prelude.{◌≡◌, ◌+◌, ◌^◌, Some, None, MatchResult};
ghost use Rattle.world_model.specs.Requests.{free_id};

use crate::requests::free_id;
use crate::world::World;
use wire_core::NoMemory;

/// How often all threads are suspended where they are once more. It takes no memory: `NoMemory` comes just where that
/// would be 2^64 times (JDWP, VirtualMachine command set, Suspend).
pub fn once_more(count: u64) -> Result<u64, NoMemory>
    ensures { MatchResult result (λ now. now ≡ count + 1) (λ _. count + 1 ≡ 2 ^ 64) }
{
    match count.checked_add(1) {
        Some(now) => Ok(now),
        None => Err(NoMemory),
    }
}

/// The number that the next event request gets. It takes no memory: `NoMemory` comes just where none is free (JDWP,
/// EventRequest command set, Set).
pub(crate) fn next_id(world: &World) -> Result<u32, NoMemory>
    ensures { MatchResult result (λ id. free_id world.now ≡ Some id) (λ _. free_id world.now ≡ None) }
{
    match free_id(world) {
        Some(id) => Ok(id),
        None => Err(NoMemory),
    }
}
