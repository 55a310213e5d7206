ghost use Rattle.std.specs.Prelude.{◌≡◌, ◌+◌, ◌<◌, ◌^◌, [], ◌∷◌, ◌++◌, vec_len, vec_capacity};
ghost use Rattle.stop_refs.specs.Numbers.{stop_with, refused_in};
ghost use Rattle.stop_refs.specs.Starts.{firsts_of, AreKept};

use crate::fault::RefFault;

/// A stop in which a thing was told: which one of the session, from 1, and its first number.
#[derive(Clone, Copy, Debug)]
pub(crate) struct Start {
    pub(crate) stop: u64,
    pub(crate) first: u32,
}

// The stop in which a number below this one was given, or 0 where none gave it.
fn stop_with(starts: &[Start], last: u64, first: u32, n: u32) -> u64
    requires kept { AreKept 0 1 last first starts.now }
    requires below { n < first }
    ensures { result ≡ stop_with (firsts_of 0 last first starts.now) n }
{
    let count = starts.partition_point(|start| start.first <= n);
    if count == 0 {
        0
    } else {
        starts[count - 1].stop
    }
}

/// Why a number is refused that is below the first one of what goes on now, where the next number is this.
pub(crate) fn refused(starts: &[Start], last: u64, first: u32, n: u32, next: u32) -> RefFault
    requires kept { AreKept 0 1 last first starts.now }
    requires below { n < first }
    ensures { result ≡ refused_in next (stop_with (firsts_of 0 last first starts.now) n) }
{
    match stop_with(starts, last, first, n) {
        0 => RefFault::Unknown(next),
        stop => RefFault::Stale(stop),
    }
}

// Puts a start behind the others, in the room that is left.
fn put(starts: &mut Vec<Start>, start: Start)
    requires { vec_len starts.old < vec_capacity starts.old }
    ensures { starts.new.items ≡ starts.old.items ++ start ∷ [] }
{
    let _ = starts.push(start);
}

/// Keeps the first number of the stop behind the last one, in which so many things were told; where there were any, in
/// the room that is left.
pub(crate) fn keep(starts: &mut Vec<Start>, last: u64, first: u32, told: u32)
    requires kept { AreKept 0 1 last first starts.old.items }
    requires counted { last + 1 < 2 ^ 63 }
    requires room { 0 < told → vec_len starts.old < vec_capacity starts.old }
    ensures kept { AreKept 0 1 (last + 1) (first + told) starts.new.items }
    ensures firsts { firsts_of 0 (last + 1) (first + told) starts.new.items
        ≡ firsts_of 0 last first starts.old.items ++ first ∷ [] }
{
    if told > 0 {
        put(
            starts,
            Start {
                stop: last + 1,
                first,
            },
        );
    }
}
