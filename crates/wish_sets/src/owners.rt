//! Which slot a request was installed in, so that the owner of an event is found by its request at once.
ghost use Rattle.std.specs.Prelude.{◌≡◌, ◌<◌, ◌++◌, ℕ, nat_eq, true, false, Some, is_some, if◌then◌else◌, length};
ghost use Rattle.std.specs.Prelude.{slice_get, IfSome};
ghost use Rattle.std.specs.Option.{option_copied};
ghost use Rattle.indexmap.specs.IndexMap.{get};
ghost use Rattle.wish_sets.specs.Owners.{AreOwned, IsFound, is_other, request_key};
ghost use Rattle.wish_sets.specs.Slots.{is_owner, owner_in};
ghost use Rattle.wish_sets.specs.declared.slot.Slot.{Slot as OneSlot};

use crate::slot::Slot;
use crate::wish::Wish;
use indexmap::IndexMap;
use jdwp_events::EventKind;
use std::alloc::Global;

/// The places of slots that were installed, by the kinds and the ids of their requests, with room for the others. It
/// says nothing where it isn't whole: memory was refused, or two requests had one kind and one id.
#[derive(Drop)]
pub(crate) struct Owners {
    pub(crate) places: IndexMap<u64, usize>,
    pub(crate) whole: bool,
}

// The key of a request: its kind, and its id.
fn request_key(kind: EventKind, request: u32) -> u64
    ensures { result ≡ request_key kind request }
{
    u64::from(kind.byte()) * 4294967296 + u64::from(request)
}

// Whether a slot is installed, of this kind and under this request.
fn is_owner(slot: &Slot, kind: EventKind, request: u32) -> bool
    ensures { result ≡ is_owner kind request slot.now }
{
    slot.request == Some(request) && slot.wish.kind() == kind
}

// Whether the slot at a place is installed.
fn is_held(slots: &[Slot], place: usize) -> bool
    ensures { (slot : OneSlot) → slice_get slots.now place ≡ Some slot → result ≡ is_some slot.request }
{
    place < slots.len() && slots[place].request.is_some()
}

// Whether the slot that a key leads to is installed.
fn is_taken(places: &IndexMap<u64, usize>, slots: &[Slot], key: u64) -> bool
    ensures { result ≡ false → (place : ℕ) (slot : OneSlot) → get nat_eq places.now key ≡ Some place
        → slice_get slots.now place ≡ Some slot → is_some slot.request ≡ false }
{
    match places.get(&key) {
        Some(place) => is_held(slots, *place),
        None => false,
    }
}

// Puts a place under a key in the room that is left, and says whether there was room.
fn put(places: &mut IndexMap<u64, usize>, key: u64, place: usize) -> bool
    ensures { result ≡ true → (asked : ℕ) → get nat_eq places.new asked
        ≡ (if nat_eq key asked then Some place else get nat_eq places.old asked) }
{
    if places.len() >= places.capacity() {
        return false;
    }
    places.insert(key, place).is_ok()
}

// The slot at a place is found by its request, if it is installed, and those that were found are found still; or there
// is no room, or another slot has the request.
fn add(places: &mut IndexMap<u64, usize>, slots: &[Slot], at: usize) -> bool
    requires { at < length slots.now }
    ensures here { result ≡ true → IsFound places.new slots.now at }
    ensures kept { result ≡ true → (place : ℕ) → IsFound places.old slots.now place
        → IsFound places.new slots.now place }
{
    let slot = &slots[at];
    let Some(request) = slot.request else {
        return true;
    };
    let key = request_key(slot.wish.kind(), request);
    if is_taken(places, slots, key) {
        return false;
    }
    put(places, key, at)
}

// Each slot is found that is installed; or there is no room, or two have one request.
fn add_all(places: &mut IndexMap<u64, usize>, slots: &[Slot]) -> bool
    ensures { result ≡ true → (place : ℕ) → IsFound places.new slots.now place }
{
    for at in 0..slots.len() {
        if !add(places, slots, at) {
            return false;
        }
    }
    true
}

impl Owners {
    /// It says nothing, and takes no memory.
    pub(crate) fn new(alloc: Global) -> Owners
        ensures { result.whole ≡ false }
    {
        Owners {
            places: IndexMap::new(alloc),
            whole: false,
        }
    }

    /// The owners of what is installed in these slots, with room for as many as may be; where memory is refused it says
    /// nothing.
    pub(crate) fn of(alloc: Global, slots: &[Slot]) -> Owners
        ensures { AreOwned result slots.now }
    {
        let Ok(mut places) = IndexMap::with_capacity(alloc, slots.len()) else {
            return Owners::new(alloc);
        };
        let whole = add_all(&mut places, slots);
        Owners { places, whole }
    }

    /// The slot at a place was changed, where there is one; the others are as they were. It takes no memory.
    pub(crate) fn keep(&mut self, slots: &[Slot], changed: Option<usize>)
        requires { IfSome changed (λ at. at < length slots.now) }
        ensures { (self.old.whole ≡ true → (place : ℕ) → is_other changed place ≡ true
            → IsFound self.old.places slots.now place) → AreOwned self.new slots.now }
    {
        let Some(at) = changed else {
            return;
        };
        if self.whole {
            self.whole = add(&mut self.places, slots, at);
        }
    }

    // The first that is installed, of this kind and under this request, by its place.
    fn found<'a>(&self, slots: &'a [Slot], kind: EventKind, request: u32) -> Option<&'a Wish>
        requires { (place : ℕ) → IsFound self.now.places slots.now place }
        ensures { option_copied result ≡ owner_in slots.now kind request }
    {
        let at = *self.places.get(&request_key(kind, request))?;
        if at >= slots.len() {
            return None;
        }
        let slot = &slots[at];
        if is_owner(slot, kind, request) {
            Some(&slot.wish)
        } else {
            None
        }
    }

    // The first that is installed, of this kind and under this request.
    fn owner<'a>(&self, slots: &'a [Slot], kind: EventKind, request: u32) -> Option<&'a Wish>
        requires { AreOwned self.now slots.now }
        ensures { option_copied result ≡ owner_in slots.now kind request }
    {
        if self.whole {
            self.found(slots, kind, request)
        } else {
            owner_in(slots, kind, request)
        }
    }
}

// The first that is installed, of this kind and under this request, looked for in all slots.
fn owner_in(slots: &[Slot], kind: EventKind, request: u32) -> Option<&Wish>
    ensures { option_copied result ≡ owner_in slots.now kind request }
{
    for slot in slots {
        if is_owner(slot, kind, request) {
            return Some(&slot.wish);
        }
    }
    None
}

/// The first of two lists that is installed, of this kind and under this request.
#[tactic(auto, using(crate::proofs::SlotLaws::owner_append))]
pub(crate) fn owner<'a>(
    owners: &Owners,
    slots: &'a [Slot],
    fixed: &'a [Slot],
    kind: EventKind,
    request: u32,
) -> Option<&'a Wish>
    requires { AreOwned owners.now slots.now }
    ensures { option_copied result ≡ owner_in (slots.now ++ fixed.now) kind request }
{
    match owners.owner(slots, kind, request) {
        Some(wish) => Some(wish),
        None => owner_in(fixed, kind, request),
    }
}
