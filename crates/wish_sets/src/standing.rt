//! How the entries of lists stand, by the places at which they are bound.
ghost use Rattle.std.specs.Prelude.{◌≡◌, ◌==◌, ◌++◌, ◌∷◌, [], ◌<◌, ◌+◌, fold, filter, find, option_copied};
ghost use Rattle.std.specs.Prelude.{length, map, IfOk, IfSome, OnOk, OnErr};
ghost use Rattle.std.specs.BTreeSet.{insert_key};
ghost use Rattle.std.specs.List.{list_any};
ghost use Rattle.std.specs.Ordering.{nat_cmp, on};
ghost use Rattle.wish_sets.specs.declared.wish.Wish.TheVariants as wishes;
ghost use Rattle.wish_sets.specs.Entries.{has_location};
ghost use Rattle.wish_sets.specs.Order.{has_wish, is_wish};
ghost use Rattle.wish_sets.specs.Slots.{requests_in, refusals_in};
ghost use Rattle.wish_sets.specs.Standing.{id_place, entries_of, state_by, AreSorted};
ghost use Rattle.wish_sets.specs.Wishes.{is_installed};

use crate::entry::{EntryAt, EntryState};
use crate::place::Place;
use crate::slot::Slot;
use crate::wish::Wish;
use jdwp_values::Location;
use std::alloc::Global;
use std::cmp::Ordering;
use wire_core::{List, NoMemory};

/// The slot of a wish, where it has one.
pub(crate) fn slot_of<'a>(slots: &'a [Slot], wish: &Wish) -> Option<&'a Slot>
    requires { AreSorted slots.now }
    ensures { option_copied result ≡ find (λ slot. is_wish wish.now slot.wish) slots.now }
{
    let at = slots.partition_point(|slot| slot.wish.cmp(wish).is_lt());
    if at >= slots.len() {
        return None;
    }
    let slot = &slots[at];
    if *wish == slot.wish { Some(slot) } else { None }
}

// Whether a wish is installed.
fn is_installed(slots: &[Slot], wish: &Wish) -> bool
    requires { AreSorted slots.now }
    ensures { result ≡ is_installed (requests_in slots.now) wish.now }
{
    match slot_of(slots, wish) {
        Some(slot) => slot.request.is_some(),
        None => false,
    }
}

// Whether a wish was refused.
fn is_refused(slots: &[Slot], wish: &Wish) -> bool
    requires { AreSorted slots.now }
    ensures { result ≡ has_wish (refusals_in slots.now) wish.now }
{
    match slot_of(slots, wish) {
        Some(slot) => slot.refused,
        None => false,
    }
}

// Whether a breakpoint is installed, in one of two lists of slots.
#[tactic(auto, using(crate::proofs::StandingLaws::installed_append))]
fn stands(slots: &[Slot], fixed: &[Slot], at: Location) -> bool
    requires { AreSorted slots.now × AreSorted fixed.now }
    ensures { result ≡ is_installed (requests_in (slots.now ++ fixed.now)) (wishes.Stop at) }
{
    let wish = Wish::Stop(at);
    is_installed(slots, &wish) || is_installed(fixed, &wish)
}

// Whether a breakpoint was refused, in one of two lists of slots.
#[tactic(auto, using(crate::proofs::StandingLaws::refused_append))]
fn was_refused(slots: &[Slot], fixed: &[Slot], at: Location) -> bool
    requires { AreSorted slots.now × AreSorted fixed.now }
    ensures { result ≡ has_wish (refusals_in (slots.now ++ fixed.now)) (wishes.Stop at) }
{
    let wish = Wish::Stop(at);
    is_refused(slots, &wish) || is_refused(fixed, &wish)
}

// Whether one of an entry's locations is installed.
fn is_verified(bound: &[Place], id: u64, slots: &[Slot], fixed: &[Slot]) -> bool
    requires { AreSorted slots.now × AreSorted fixed.now }
    ensures { result ≡ has_location bound.now id (is_installed (requests_in (slots.now ++ fixed.now))) }
{
    for place in bound {
        if place.id == id && stands(slots, fixed, place.at) {
            return true;
        }
    }
    false
}

// Whether one of an entry's locations was refused.
fn is_denied(bound: &[Place], id: u64, slots: &[Slot], fixed: &[Slot]) -> bool
    requires { AreSorted slots.now × AreSorted fixed.now }
    ensures { result ≡ has_location bound.now id (has_wish (refusals_in (slots.now ++ fixed.now))) }
{
    for place in bound {
        if place.id == id && was_refused(slots, fixed, place.at) {
            return true;
        }
    }
    false
}

/// How an entry stands: one of its locations is installed, else one of them was refused, else neither. Both lists of
/// slots are in wish order.
pub(crate) fn entry_state(bound: &[Place], id: u64, slots: &[Slot], fixed: &[Slot]) -> EntryState
    requires { AreSorted slots.now × AreSorted fixed.now }
    ensures { result ≡ state_by bound.now id (requests_in (slots.now ++ fixed.now))
        (refusals_in (slots.now ++ fixed.now)) }
{
    if is_verified(bound, id, slots, fixed) {
        EntryState::Verified
    } else if is_denied(bound, id, slots, fixed) {
        EntryState::Refused
    } else {
        EntryState::Waiting
    }
}

// The place at which an entry goes, by its id, where none has it.
fn id_place(found: &[EntryAt], id: u64) -> Option<usize>
    ensures place { result ≡ id_place 0 id found.now }
    ensures within { IfSome result (λ place. place < length found.now + 1) }
{
    for (at, entry) in found.iter().enumerate() {
        match id.cmp(&entry.id) {
            Ordering::Less => return Some(at),
            Ordering::Equal => return None,
            Ordering::Greater => {}
        }
    }
    Some(found.len())
}

/// Adds an entry, by its id, where none has it; `NoMemory` comes where memory is refused (DAP specification, Events,
/// Stopped, hitBreakpointIds).
#[tactic(auto, using(crate::proofs::StandingLaws::no_id_place, crate::proofs::StandingLaws::at_its_id))]
pub fn add_entry(found: &mut Vec<EntryAt>, entry: EntryAt) -> Result<(), NoMemory>
    ensures { OnOk result (found.new.items ≡ insert_key (on (λ other. other.id) nat_cmp) found.old.items entry) }
{
    if let Some(at) = id_place(found, entry.id) {
        found.insert(at, entry)?;
    }
    Ok(())
}

/// The entries that have a location, in order of their ids, each once; `NoMemory` comes where memory is refused.
pub(crate) fn entries_at(
    alloc: Global,
    bound: &[Place],
    at: Location,
) -> Result<List<EntryAt>, NoMemory>
    ensures { IfOk result (λ found.
        found ≡ fold (insert_key (on (λ entry. entry.id) nat_cmp)) [] (entries_of at bound.now)) }
{
    let mut found = Vec::new(alloc);
    let wish = Wish::Stop(at);
    for place in bound {
        if wish == Wish::Stop(place.at) {
            let entry = EntryAt {
                id: place.id,
                line: place.line,
            };
            add_entry(&mut found, entry)?;
        }
    }
    Ok(List::from_vec(found))
}
