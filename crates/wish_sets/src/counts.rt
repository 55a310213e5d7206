//! How many entries wish what has a slot.
ghost use Rattle.std.specs.Prelude.{◌≡◌, ◌+◌, ◌<◌, ◌≤◌, ◌^◌, length, true, IfSome};
ghost use Rattle.std.specs.List.{position_from, AllByRecursion};
ghost use Rattle.wish_sets.specs.Counts.{most_for, raised, raised_all, lowered, lowered_all, HaveRoom};
ghost use Rattle.wish_sets.specs.Order.{is_wish};
ghost use Rattle.wish_sets.specs.Slots.{AreWithin};
ghost use Rattle.wish_sets.specs.Standing.{AreSorted};

use crate::slot::Slot;
use crate::standing::slot_of;
use crate::wish::Wish;

/// Whether so many entries at most wish a wish that has a slot.
pub(crate) fn is_within(slots: &[Slot], wish: &Wish, most: u64) -> bool
    requires { AreSorted slots.now }
    ensures { result ≡ true → AreWithin wish.now most slots.now }
{
    match slot_of(slots, wish) {
        Some(slot) => slot.count <= most,
        None => true,
    }
}

// The place of a wish's slot, where it has one.
fn place_of(slots: &[Slot], wish: &Wish) -> Option<usize>
    requires { AreSorted slots.now }
    ensures place { result ≡ position_from (λ slot. is_wish wish.now slot.wish) 0 slots.now }
    ensures within { IfSome result (λ at. at < length slots.now) }
{
    let at = slots.partition_point(|slot| slot.wish.cmp(wish).is_lt());
    if at >= slots.len() {
        return None;
    }
    let slot = &slots[at];
    if *wish == slot.wish { Some(at) } else { None }
}

// One entry more wishes it, where it has a slot.
fn raise(slots: &mut [Slot], wish: &Wish)
    requires sorted { AreSorted slots.old }
    requires room { AllByRecursion (λ slot. is_wish wish.now slot.wish ≡ true → slot.count + 1 < 2 ^ 64) slots.old }
    ensures { slots.new ≡ raised wish.now slots.old }
{
    let Some(at) = place_of(slots, wish) else {
        return;
    };
    slots[at].raise();
}

// One entry less wishes it, where it has a slot.
fn lower(slots: &mut [Slot], wish: &Wish)
    requires { AreSorted slots.old }
    ensures { slots.new ≡ lowered wish.now slots.old }
{
    let Some(at) = place_of(slots, wish) else {
        return;
    };
    slots[at].lower();
}

// One entry more for each of these.
fn raise_each(slots: &mut [Slot], those: &[Wish])
    requires sorted { AreSorted slots.old }
    requires room { HaveRoom (most_for (length those.now)) slots.old those.now }
    requires few { length those.now < 2 ^ 64 }
    ensures { slots.new ≡ raised_all those.now slots.old }
{
    for wish in those {
        raise(slots, wish);
    }
}

// One entry less for each of these.
fn lower_each(slots: &mut [Slot], those: &[Wish])
    requires { AreSorted slots.old }
    ensures { slots.new ≡ lowered_all those.now slots.old }
{
    for wish in those {
        lower(slots, wish);
    }
}

/// One entry more wishes each of these, as often as it is among them. It takes no memory.
pub(crate) fn raise_all(slots: &mut Vec<Slot>, those: &[Wish])
    requires sorted { AreSorted slots.old.items }
    requires room { HaveRoom (most_for (length those.now)) slots.old.items those.now }
    requires few { length those.now < 2 ^ 64 }
    ensures { slots.new.items ≡ raised_all those.now slots.old.items }
{
    raise_each(slots, those);
}

/// One entry less wishes each of these, as often as it is among them. It takes no memory.
pub(crate) fn lower_all(slots: &mut Vec<Slot>, those: &[Wish])
    requires { AreSorted slots.old.items }
    ensures { slots.new.items ≡ lowered_all those.now slots.old.items }
{
    lower_each(slots, those);
}
