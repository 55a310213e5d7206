//! How far slots were gone through, so that a whole list of changes takes one pass over them.
ghost use Rattle.std.specs.Prelude.{◌≡◌, ◌+◌, ◌<◌, ◌^◌, if◌then◌else◌, length, IfSome};
ghost use Rattle.wish_sets.specs.Cursors.{cursor_after, start_of, with_installed, IsPast};

use crate::change::Settled;
use crate::slot::Slot;

/// A place before which no slot has to be cleared, with how many of those before it are installed; and a place before
/// which no slot has to be set, with how many of those before it are wished.
#[derive(Clone, Copy)]
pub(crate) struct Cursor {
    pub(crate) late: usize,
    pub(crate) installed: u32,
    pub(crate) unset: usize,
    pub(crate) wished: u32,
}

impl Cursor {
    /// Nothing was gone through.
    pub(crate) fn new() -> Cursor
        ensures { result ≡ (record { late = 0; installed = 0; unset = 0; wished = 0 }) }
    {
        Cursor {
            late: 0,
            installed: 0,
            unset: 0,
            wished: 0,
        }
    }

    /// The place from which on a slot may wait for an outcome.
    pub(crate) fn start_of(self, outcome: Settled) -> usize
        ensures { result ≡ start_of outcome self }
    {
        match outcome {
            Settled::Cleared => self.late,
            Settled::Installed(_) => self.unset,
            Settled::Refused(_) => self.unset,
        }
    }

    // One more is installed, where it was found.
    fn with_installed(self, found: Option<usize>) -> Cursor
        requires { self.installed < 2 ^ 31 }
        ensures { result ≡ with_installed found self }
    {
        match found {
            Some(place) => {
                if place < self.late {
                    Cursor {
                        installed: self.installed + 1,
                        ..self
                    }
                } else {
                    self
                }
            }
            None => self,
        }
    }

    /// An outcome was marked, where a slot that waits for it was found.
    pub(crate) fn after(self, outcome: Settled, found: Option<usize>) -> Cursor
        requires { self.installed < 2 ^ 31 }
        ensures { result ≡ cursor_after outcome found self }
    {
        match outcome {
            Settled::Cleared => self,
            Settled::Installed(_) => self.with_installed(found),
            Settled::Refused(_) => self,
        }
    }
}

// A count, with one more where it is counted.
fn with_one(count: u32, is_one: bool) -> u32
    requires { count < 2 ^ 31 }
    ensures { result ≡ (if is_one then count + 1 else count) }
{
    if is_one { count + 1 } else { count }
}

// Goes over one slot, where there is one that has not to be cleared.
fn over_late(slots: &[Slot], cursor: Cursor) -> Option<Cursor>
    requires past { IsPast cursor slots.now }
    requires few { length slots.now < 2 ^ 31 }
    ensures past { IfSome result (λ next. IsPast next slots.now) }
    ensures on { IfSome result (λ next. (cursor.late < length slots.now) × (next.late ≡ cursor.late + 1)) }
{
    if cursor.late >= slots.len() {
        return None;
    }
    let slot = &slots[cursor.late];
    if slot.is_late() {
        return None;
    }
    let installed = with_one(cursor.installed, slot.request.is_some());
    let late = cursor.late + 1;
    Some(Cursor {
        late,
        installed,
        ..cursor
    })
}

// Goes over one slot, where there is one that has not to be set.
fn over_unset(slots: &[Slot], cursor: Cursor) -> Option<Cursor>
    requires past { IsPast cursor slots.now }
    requires few { length slots.now < 2 ^ 31 }
    ensures past { IfSome result (λ next. IsPast next slots.now) }
    ensures on { IfSome result (λ next. (cursor.unset < length slots.now) × (next.unset ≡ cursor.unset + 1)) }
{
    if cursor.unset >= slots.len() {
        return None;
    }
    let slot = &slots[cursor.unset];
    if slot.is_unset() {
        return None;
    }
    let wished = with_one(cursor.wished, slot.wished);
    let unset = cursor.unset + 1;
    Some(Cursor {
        unset,
        wished,
        ..cursor
    })
}

// Goes on to the first slot that has to be cleared.
fn to_late(slots: &[Slot], cursor: Cursor) -> Cursor
    requires past { IsPast cursor slots.now }
    requires few { length slots.now < 2 ^ 31 }
    ensures { IsPast result slots.now }
{
    let mut cursor = cursor;
    while let Some(next) = over_late(slots, cursor) {
        cursor = next;
    }
    cursor
}

// Goes on to the first slot that has to be set.
fn to_unset(slots: &[Slot], cursor: Cursor) -> Cursor
    requires past { IsPast cursor slots.now }
    requires few { length slots.now < 2 ^ 31 }
    ensures { IsPast result slots.now }
{
    let mut cursor = cursor;
    while let Some(next) = over_unset(slots, cursor) {
        cursor = next;
    }
    cursor
}

/// Goes on to the first slot that has to be cleared, and to the first that has to be set.
pub(crate) fn onward(slots: &[Slot], cursor: Cursor) -> Cursor
    requires past { IsPast cursor slots.now }
    requires few { length slots.now < 2 ^ 31 }
    ensures { IsPast result slots.now }
{
    to_unset(slots, to_late(slots, cursor))
}
