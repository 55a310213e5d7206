//! Places in a list.
ghost use Rattle.std.specs.Prelude.{◌≡◌, ◌+◌, ◌^◌, MatchResult};

use wire_core::NoMemory;

/// The place behind this one. It takes no memory: `NoMemory` comes just where that is 2^64.
pub fn next_place(place: usize) -> Result<usize, NoMemory>
    ensures { MatchResult result (λ next. next ≡ place + 1) (λ _. place + 1 ≡ 2 ^ 64) }
{
    match place.checked_add(1) {
        Some(next) => Ok(next),
        None => Err(NoMemory),
    }
}
