//! A wish, and how it stands.
ghost use Rattle.std.specs.Prelude.{◌≡◌, ◌+◌, ◌-◌, ◌<◌, ◌≤◌, ◌^◌, ◌++◌, if◌then◌else◌, drop, is_some, length, IfSome, IfOk};
ghost use Rattle.std.specs.List.{list_any, position_from};
ghost use Rattle.std.specs.Result.{result_map_both};
ghost use Rattle.wish_sets.specs.Cursors.{IsPast, NoneBefore};
ghost use Rattle.wish_sets.specs.Slots.{is_late, is_unset, awaits, marked, with_first, wanted_slot, late_from};
ghost use Rattle.wish_sets.specs.Slots.{unset_from, change_shown, place_shown, new_slot, counted_slot};

use crate::change::{Change, Settled};
use crate::cursor::{Cursor, onward};
use crate::wish::{Wish, bit};

/// A wish that is wished, installed, or may be: how many entries wish it, whether it is wished, the id of its request
/// where it is installed, and whether it was refused. Exceptions and steps aren't counted.
#[derive(Drop)]
pub(crate) struct Slot {
    pub(crate) wish: Wish,
    pub(crate) count: u64,
    pub(crate) wished: bool,
    pub(crate) request: Option<u32>,
    pub(crate) refused: bool,
}

impl Slot {
    /// A wish that neither stands nor was refused.
    pub(crate) fn new(wish: Wish, wished: bool) -> Slot
        ensures { result ≡ new_slot wish wished }
    {
        Slot {
            wish,
            count: u64::from(bit(wished)),
            wished,
            request: None,
            refused: false,
        }
    }

    /// It is wished from now on, or isn't; then it is forgotten that it was refused.
    pub(crate) fn want(&mut self, wished: bool)
        ensures { self.new ≡ wanted_slot wished self.old }
    {
        self.wished = wished;
        self.refused = self.refused && wished;
    }

    // So many entries wish it.
    fn set_count(&mut self, count: u64)
        ensures { self.new ≡ counted_slot count self.old }
    {
        self.count = count;
        self.want(count > 0);
    }

    /// One entry more wishes it.
    pub(crate) fn raise(&mut self)
        requires { self.old.count + 1 < 2 ^ 64 }
        ensures { self.new ≡ counted_slot (self.old.count + 1) self.old }
    {
        self.set_count(self.count + 1);
    }

    /// One entry less wishes it, where there was one; where none is left it is wished no longer.
    pub(crate) fn lower(&mut self)
        ensures { self.new ≡ counted_slot (self.old.count - 1) self.old }
    {
        self.set_count(self.count.saturating_sub(1));
    }

    /// It has to be cleared: it is installed, and not wished.
    pub(crate) fn is_late(&self) -> bool
        ensures { result ≡ is_late self.now }
    {
        self.request.is_some() && !self.wished
    }

    /// It has to be set: it is wished, and neither installed nor refused.
    pub(crate) fn is_unset(&self) -> bool
        ensures { result ≡ is_unset self.now }
    {
        self.wished && self.request.is_none() && !self.refused
    }

    // It waits for an outcome of this kind.
    fn awaits(&self, outcome: Settled) -> bool
        ensures { result ≡ awaits outcome self.now }
    {
        match outcome {
            Settled::Cleared => self.is_late(),
            Settled::Installed(_) => self.is_unset(),
            Settled::Refused(_) => self.is_unset(),
        }
    }

    // An outcome is marked.
    fn mark(&mut self, outcome: Settled)
        ensures { self.new ≡ marked outcome self.old }
    {
        match outcome {
            Settled::Cleared => self.request = None,
            Settled::Installed(request) => self.request = Some(request),
            Settled::Refused(_) => self.refused = true,
        }
    }
}

// The Clear of the first that has to be cleared; else the place behind these, counted from a place.
fn late_in(slots: &[Slot], place: u32) -> Result<u32, Change<'_>>
    requires { place + length slots.now < 2 ^ 32 }
    ensures found { result_map_both (λ place. place) (λ change. (place_shown change, change_shown change)) result
        ≡ late_from place slots.now }
    ensures within { IfOk result (λ behind. behind ≤ place + length slots.now) }
{
    let mut place = place;
    for slot in slots {
        if let Some(request) = slot.request {
            if !slot.wished {
                return Err(Change::Clear {
                    place,
                    request,
                    wish: &slot.wish,
                });
            }
            place += 1;
        }
    }
    Ok(place)
}

// The Set of the first that has to be set; else the place behind these, counted from a place.
fn unset_in(slots: &[Slot], place: u32) -> Result<u32, Change<'_>>
    requires { place + length slots.now < 2 ^ 32 }
    ensures found { result_map_both (λ place. place) (λ change. (place_shown change, change_shown change)) result
        ≡ unset_from place slots.now }
    ensures within { IfOk result (λ behind. behind ≤ place + length slots.now) }
{
    let mut place = place;
    for slot in slots {
        if slot.is_unset() {
            return Err(Change::Set {
                place,
                wish: &slot.wish,
            });
        }
        if slot.wished {
            place += 1;
        }
    }
    Ok(place)
}

// The slots from a place on.
fn from_place(slots: &[Slot], start: usize) -> &[Slot]
    requires { start ≤ length slots.now }
    ensures { result.now ≡ drop start slots.now }
{
    &slots[start..]
}

// The Clear of the first that has to be cleared, looked for from the cursor on; else how many are installed.
fn late_on(slots: &[Slot], cursor: Cursor) -> Result<u32, Change<'_>>
    requires past { IsPast cursor slots.now }
    requires few { length slots.now < 2 ^ 31 }
    ensures found { result_map_both (λ place. place) (λ change. (place_shown change, change_shown change)) result
        ≡ late_from 0 slots.now }
    ensures within { IfOk result (λ behind. behind ≤ length slots.now) }
{
    late_in(from_place(slots, cursor.late), cursor.installed)
}

// The Set of the first that has to be set, looked for from the cursor on; else how many are wished.
fn unset_on(slots: &[Slot], cursor: Cursor) -> Result<u32, Change<'_>>
    requires past { IsPast cursor slots.now }
    requires few { length slots.now < 2 ^ 31 }
    ensures found { result_map_both (λ place. place) (λ change. (place_shown change, change_shown change)) result
        ≡ unset_from 0 slots.now }
    ensures within { IfOk result (λ behind. behind ≤ length slots.now) }
{
    unset_in(from_place(slots, cursor.unset), cursor.wished)
}

#[tactic(auto, using(crate::proofs::SlotLaws::late_append))]
/// The Clear of the first of two lists that has to be cleared; else how many of them are installed.
pub(crate) fn late<'a>(
    slots: &'a [Slot],
    fixed: &'a [Slot],
    cursor: Cursor,
) -> Result<u32, Change<'a>>
    requires past { IsPast cursor slots.now }
    requires few { length slots.now + length fixed.now < 2 ^ 31 }
    ensures { result_map_both (λ place. place) (λ change. (place_shown change, change_shown change)) result
        ≡ late_from 0 (slots.now ++ fixed.now) }
{
    match late_on(slots, cursor) {
        Ok(place) => late_in(fixed, place),
        Err(change) => Err(change),
    }
}

#[tactic(auto, using(crate::proofs::SlotLaws::unset_append))]
/// The Set of the first of two lists that has to be set; else how many of them are wished.
pub(crate) fn unset<'a>(
    slots: &'a [Slot],
    fixed: &'a [Slot],
    cursor: Cursor,
) -> Result<u32, Change<'a>>
    requires past { IsPast cursor slots.now }
    requires few { length slots.now + length fixed.now < 2 ^ 31 }
    ensures { result_map_both (λ place. place) (λ change. (place_shown change, change_shown change)) result
        ≡ unset_from 0 (slots.now ++ fixed.now) }
{
    match unset_on(slots, cursor) {
        Ok(place) => unset_in(fixed, place),
        Err(change) => Err(change),
    }
}

// The place of the first that waits for an outcome of this kind, where none does before a place.
fn place_of(slots: &[Slot], start: usize, outcome: Settled) -> Option<usize>
    requires { NoneBefore (awaits outcome) start slots.now }
    ensures value { result ≡ position_from (awaits outcome) 0 slots.now }
    ensures within { IfSome result (λ at. at < length slots.now) }
{
    for at in start..slots.len() {
        if slots[at].awaits(outcome) {
            return Some(at);
        }
    }
    None
}

// Marks an outcome at the first that waits for it, and says where it is, where none waits before a place.
fn settle_first(slots: &mut [Slot], start: usize, outcome: Settled) -> Option<usize>
    requires { NoneBefore (awaits outcome) start slots.old }
    ensures place { result ≡ position_from (awaits outcome) 0 slots.old }
    ensures found { is_some result ≡ list_any (awaits outcome) slots.old }
    ensures marked { slots.new ≡ with_first (awaits outcome) (marked outcome) slots.old }
{
    let Some(at) = place_of(slots, start, outcome) else {
        return None;
    };
    slots[at].mark(outcome);
    Some(at)
}

// Marks an outcome at the first that waits for it, and says where it is, where none waits before a place.
fn settle_slots(slots: &mut Vec<Slot>, start: usize, outcome: Settled) -> Option<usize>
    requires { NoneBefore (awaits outcome) start slots.old.items }
    ensures place { result ≡ position_from (awaits outcome) 0 slots.old.items }
    ensures found { is_some result ≡ list_any (awaits outcome) slots.old.items }
    ensures marked { slots.new.items ≡ with_first (awaits outcome) (marked outcome) slots.old.items }
{
    settle_first(slots, start, outcome)
}

/// Marks an outcome at the first of two lists that waits for it, and goes on; it answers the place in the first list.
pub(crate) fn settle(
    slots: &mut Vec<Slot>,
    fixed: &mut [Slot],
    cursor: &mut Cursor,
    outcome: Settled,
) -> Option<usize>
    requires past { IsPast cursor.old slots.old.items }
    requires few { length slots.old.items < 2 ^ 31 }
    ensures slots { slots.new.items ≡ with_first (awaits outcome) (marked outcome) slots.old.items }
    ensures fixed { fixed.new ≡ (if list_any (awaits outcome) slots.old.items then fixed.old
        else with_first (awaits outcome) (marked outcome) fixed.old) }
    ensures past { IsPast cursor.new slots.new.items }
    ensures place { result ≡ position_from (awaits outcome) 0 slots.old.items }
{
    let found = settle_slots(slots, cursor.start_of(outcome), outcome);
    *cursor = onward(slots, cursor.after(outcome, found));
    if found.is_none() {
        settle_first(fixed, 0, outcome);
    }
    found
}
