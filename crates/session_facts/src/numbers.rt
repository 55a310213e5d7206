//! The stop in hand, with the numbers of what was told in it.
ghost use Rattle.std.specs.Prelude.{◌≡◌, ◌+◌, ◌^◌, ◌<◌, ◌≤◌, false, length, true, MatchResult, OnOk};
ghost use Rattle.machine_model.specs.Due.{numbers_by, still_numbered, still_stopped, stopped_by};
ghost use Rattle.machine_model.specs.State.{numbers_over};
ghost use Rattle.stop_refs.specs.Numbers.{begun};
ghost use Rattle.session_facts.specs.Numbering.{has_stop, stop_of};

use machine_model::{Deed, Suspension};
use std::alloc::Global;
use std::mem;
use stop_refs::{Running, Stop};
use wire_core::NoMemory;

// Fewer stops than this are counted.
const MOST_STOPS: u64 = 9223372036854775807;

/// The numbers by which the client names what it was told of in stops: they are past while the target runs, and those
/// of a stop are good in it alone. A stop has to be spent, so this can't be dropped either.
pub enum Numbers {
    Running(Running),
    Stopped(Stop),
}

// The numbers are taken out, to be put back.
fn taken(alloc: Global, numbers: &mut Numbers) -> Numbers
    ensures { result ≡ numbers.old }
{
    mem::replace(numbers, Numbers::Running(Running::new(alloc)))
}

/// Gives the numbers up, and the stop in hand with them.
pub fn spend(numbers: Numbers) {
    match numbers {
        Numbers::Running(_) => {}
        Numbers::Stopped(stop) => {
            let _ = stop.resume();
        }
    }
}

// These are the numbers from now on.
fn put(numbers: &mut Numbers, now: Numbers)
    ensures { numbers.new ≡ now }
{
    spend(mem::replace(numbers, now));
}

/// Whether a stop is in hand.
pub fn has_stop(numbers: &Numbers) -> bool
    ensures { result ≡ has_stop numbers.now }
{
    matches!(numbers, Numbers::Stopped(_))
}

/// The stop in hand is over, where there is one (DAP specification, Overview, Lifetime of Objects References).
pub fn end_stop(alloc: Global, numbers: &mut Numbers)
    ensures stopped { has_stop numbers.new ≡ false }
    ensures numbers { stop_of numbers.new ≡ numbers_over (has_stop numbers.old) (stop_of numbers.old) }
{
    match taken(alloc, numbers) {
        Numbers::Running(running) => put(numbers, Numbers::Running(running)),
        Numbers::Stopped(stop) => put(numbers, Numbers::Running(stop.resume())),
    }
}

// The next stop. It takes no memory: `NoMemory` comes just where there are as many stops as are counted.
fn next_stop(running: Running) -> Result<Stop, NoMemory>
    ensures { MatchResult result (λ stop. (stop ≡ begun running) × (length running.firsts + 1 < 2 ^ 63))
        (λ _. 2 ^ 63 ≤ length running.firsts + 1) }
{
    if running.stops() >= MOST_STOPS {
        return Err(NoMemory);
    }
    Ok(running.stop())
}

/// A stop is in hand: one begins, in which nothing was told yet, unless one is. `NoMemory` comes where one more stop
/// can't be counted (DAP specification, Events, Stopped).
pub fn begin_stop(alloc: Global, numbers: &mut Numbers) -> Result<(), NoMemory>
    ensures stopped { OnOk result (has_stop numbers.new ≡ true) }
    ensures numbers { OnOk result (stop_of numbers.new ≡ stop_of numbers.old) }
{
    match taken(alloc, numbers) {
        Numbers::Running(running) => {
            put(numbers, Numbers::Stopped(next_stop(running)?));
            Ok(())
        }
        Numbers::Stopped(stop) => {
            put(numbers, Numbers::Stopped(stop));
            Ok(())
        }
    }
}

// What the sending of a Resume changes: that of the stop ends it.
fn resume(alloc: Global, suspension: Suspension, numbers: &mut Numbers)
    ensures stopped { has_stop numbers.new ≡ still_stopped suspension (has_stop numbers.old) }
    ensures numbers { stop_of numbers.new
        ≡ still_numbered suspension (has_stop numbers.old) (stop_of numbers.old) }
{
    match suspension {
        Suspension::Composite => {}
        Suspension::Entry => {}
        Suspension::Stop => end_stop(alloc, numbers),
    }
}

/// What the sending of a deed changes: a stop begins with the Suspend of a pause, and is over with its Resume.
/// `NoMemory` comes where one more stop can't be counted (JDWP, VirtualMachine command set, Suspend and Resume).
pub fn send(alloc: Global, deed: Deed, numbers: &mut Numbers) -> Result<(), NoMemory>
    ensures stopped { OnOk result (has_stop numbers.new ≡ stopped_by deed (has_stop numbers.old)) }
    ensures numbers { OnOk result (stop_of numbers.new
        ≡ numbers_by deed (has_stop numbers.old) (stop_of numbers.old)) }
{
    match deed {
        Deed::Suspend => begin_stop(alloc, numbers),
        Deed::Resume(suspension) => {
            resume(alloc, suspension, numbers);
            Ok(())
        }
        Deed::Dispose => Ok(()),
        Deed::Exit => Ok(()),
        Deed::Writes(_) => Ok(()),
    }
}
