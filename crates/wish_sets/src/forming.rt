//! What is wished changes by parts, and each wish gets its slot.
ghost use Rattle.std.specs.Prelude.{◌≡◌, ◌+◌, ◌<◌, ◌^◌, true, length, IfOk, OnOk, OnErr};
ghost use Rattle.std.specs.Prelude.{IfSome};
ghost use Rattle.std.specs.List.{AllByRecursion};
ghost use Rattle.wish_sets.specs.Forming.{new_place, AreInOrder, IsWider};
ghost use Rattle.wish_sets.specs.Forming.{has_its_slot};
ghost use Rattle.wish_sets.specs.Bounds.{IsBound};
ghost use Rattle.wish_sets.specs.Counts.{most_for, HaveRoom, IsShifted};
ghost use Rattle.wish_sets.specs.Cursors.{IsPast};
ghost use Rattle.wish_sets.specs.Kept.{wanted_by};
ghost use Rattle.wish_sets.specs.Owners.{AreOwned};
ghost use Rattle.wish_sets.specs.Order.{wish_rank};
ghost use Rattle.wish_sets.specs.Standing.{AreSorted};

use crate::bound::{Bound, bind};
use crate::counts::{is_within, lower_all, raise_all};
use crate::cursor::{Cursor, onward};
use crate::owners::Owners;
use crate::share::Shift;
use crate::slot::Slot;
use crate::wants::Wants;
use crate::wish::Wish;
use std::alloc::Global;
use wire_core::{NoMemory, Text};

// So many entries may wish one thing.
const MOST_COUNT: u64 = 18446744073709551615;

// So many slots there may be at most, so that all places are below 2^31, those of fixed slots too.
const MOST: usize = 2147483642;

// A copy of a wish.
fn copy_of(alloc: Global, wish: &Wish) -> Result<Wish, NoMemory>
    ensures { IfOk result (λ copy. copy ≡ wish.now) }
{
    Ok(match wish {
        Wish::ThreadStart => Wish::ThreadStart,
        Wish::ThreadDeath => Wish::ThreadDeath,
        Wish::Watch(name) => Wish::Watch(Text::from_str(alloc, name.as_str())?),
        Wish::Stop(at) => Wish::Stop(*at),
        Wish::Thrown { caught, uncaught } => Wish::Thrown {
            caught: *caught,
            uncaught: *uncaught,
        },
        Wish::Step { thread, depth } => Wish::Step {
            thread: *thread,
            depth: *depth,
        },
    })
}

// The place at which a wish gets its slot, where it has none.
fn new_place(slots: &[Slot], wish: &Wish) -> Option<usize>
    requires { AreSorted slots.now }
    ensures place { result ≡ new_place 0 wish.now slots.now }
    ensures within { IfSome result (λ place. place < length slots.now + 1) }
{
    let at = slots.partition_point(|slot| slot.wish.cmp(wish).is_lt());
    if at >= slots.len() {
        return Some(at);
    }
    let slot = &slots[at];
    if *wish == slot.wish { None } else { Some(at) }
}

// A wish gets a slot, where it has none.
fn add_slot(slots: &mut Vec<Slot>, alloc: Global, wish: &Wish) -> Result<(), NoMemory>
    requires in_order { AreInOrder slots.old.items }
    requires early { wish_rank wish.now < 4 }
    ensures wider { IsWider slots.old.items slots.new.items }
    ensures ok { OnOk result (has_its_slot slots.new.items wish.now ≡ true) }
{
    let Some(at) = new_place(slots, wish) else {
        return Ok(());
    };
    if slots.len() >= MOST {
        return Err(NoMemory);
    }
    let copy = copy_of(alloc, wish)?;
    slots.insert(at, Slot::new(copy, false))?;
    Ok(())
}

// Each of these wishes gets a slot, and so many entries may wish it still. Where memory is refused some may have one.
fn add_slots(slots: &mut Vec<Slot>, alloc: Global, those: &[Wish]) -> Result<(), NoMemory>
    requires in_order { AreInOrder slots.old.items }
    requires early { AllByRecursion (λ wish. wish_rank wish < 4) those.now }
    ensures wider { IsWider slots.old.items slots.new.items }
    ensures ok { OnOk result (AllByRecursion (λ wish. has_its_slot slots.new.items wish ≡ true) those.now) }
    ensures room { OnOk result (HaveRoom (most_for (length those.now)) slots.new.items those.now) }
{
    let most = MOST_COUNT - those.len() as u64;
    for wish in those {
        add_slot(slots, alloc, wish)?;
        if !is_within(slots, wish, most) {
            return Err(NoMemory);
        }
    }
    Ok(())
}

// Slots say what is wished but exceptions and the step, by what is wished more and less, and the places of all entries
// are kept. Where memory is refused, or where there would be too many slots, the places stay, and nothing else than
// before is wished: what wants memory is done first, and what is wished less is counted no longer at the end.
fn form_slots(
    slots: &mut Vec<Slot>,
    bound: &mut Bound,
    alloc: Global,
    wants: &Wants,
    shift: &Shift,
) -> Result<(), NoMemory>
    requires in_order { AreInOrder slots.old.items }
    requires early { AllByRecursion (λ wish. wish_rank wish < 4) shift.now.added.items }
    ensures places { OnOk result (IsBound (wanted_by wants.now) bound.new) }
    ensures ok { OnOk result
        (IsShifted shift.now.added.items shift.now.taken.items slots.old.items slots.new.items) }
    ensures same { OnErr result (bound.new ≡ bound.old) }
    ensures err { OnErr result (IsWider slots.old.items slots.new.items) }
{
    let found = bind(alloc, wants)?;
    let added = shift.added.as_slice();
    add_slots(slots, alloc, added)?;
    raise_all(slots, added);
    lower_all(slots, shift.taken.as_slice());
    *bound = found;
    Ok(())
}

/// Slots say what is wished but exceptions and the step, by what is wished more and less, and the places of all entries
/// are kept. Where memory is refused, or where there would be too many slots, the places stay, and nothing else than
/// before is wished. Slots are gone through anew, and what is installed in them.
pub(crate) fn form(
    slots: &mut Vec<Slot>,
    bound: &mut Bound,
    owners: &mut Owners,
    cursor: &mut Cursor,
    alloc: Global,
    wants: &Wants,
    shift: &Shift,
) -> Result<(), NoMemory>
    requires in_order { AreInOrder slots.old.items }
    requires early { AllByRecursion (λ wish. wish_rank wish < 4) shift.now.added.items }
    ensures places { OnOk result (IsBound (wanted_by wants.now) bound.new) }
    ensures ok { OnOk result
        (IsShifted shift.now.added.items shift.now.taken.items slots.old.items slots.new.items) }
    ensures same { OnErr result (bound.new ≡ bound.old) }
    ensures err { OnErr result (IsWider slots.old.items slots.new.items) }
    ensures past { IsPast cursor.new slots.new.items }
    ensures owned { AreOwned owners.new slots.new.items }
{
    match form_slots(slots, bound, alloc, wants, shift) {
        Ok(()) => {
            *cursor = onward(slots, Cursor::new());
            *owners = Owners::of(alloc, slots);
            Ok(())
        }
        Err(refused) => {
            *cursor = Cursor::new();
            owners.whole = false;
            Err(refused)
        }
    }
}
