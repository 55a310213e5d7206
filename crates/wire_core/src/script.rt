ghost use Rattle.std.specs.Prelude.{ℕ, ◌≡◌, ◌+◌, ◌<◌, ◌≤◌, ◌^◌, true, false, length, take, min, IsTrue, IfSome, IfNone};
ghost use Rattle.wire_core.specs.Outside.{entry_of};
ghost use Rattle.wire_core.specs.Links.{is_open_in, first_open, IsPossible};
ghost use Rattle.wire_core.specs.Script.{step_from, steps_from, gives, due, given_by, comes, behind, names, kept_of};
ghost use Rattle.wire_core.specs.Script.{taken, IsBehind};

use crate::links::Links;
use crate::list::Blob;
use crate::outside::{Happening, Side};

/// A step of what wires in memory give: bytes of a side, the end or the failure of a side's link, or a wait in vain.
#[derive(Debug, Drop)]
pub enum Step {
    Bytes(Side, Blob),
    Shut(Side),
    Failed(Side),
    Quiet,
}

/// A send that fails: the call of this number to the side, from 0, fails after `kept` of its bytes, at most all but
/// the last.
#[derive(Clone, Copy, Debug, PartialEq, Eq)]
pub struct Cut {
    pub side: Side,
    pub call: u64,
    pub kept: u32,
}

/// A place in a list of steps: so many bytes behind the start of the step of this index.
#[derive(Clone, Copy, Debug, PartialEq, Eq)]
pub(crate) struct Place {
    step: usize,
    byte: usize,
}

/// What came, and the place behind it.
#[derive(Clone, Copy, Debug, PartialEq, Eq)]
pub(crate) struct Given {
    pub(crate) happening: Happening,
    pub(crate) place: Place,
}

impl Place {
    /// The place before all steps.
    pub(crate) const START: Place = Place { step: 0, byte: 0 };

    // The place behind what came from the step at this place.
    fn behind(self, happening: Happening) -> Place
        requires step { self.step + 1 < 2 ^ 64 }
        requires byte { self.byte + taken happening < 2 ^ 64 }
        ensures { IsBehind self happening result }
    {
        match happening {
            Happening::Bytes(_, n) => Place {
                step: self.step,
                byte: self.byte + n,
            },
            Happening::Shut(_) | Happening::Failed(_) | Happening::Quiet => Place {
                step: self.step + 1,
                byte: 0,
            },
        }
    }
}

/// What comes next from a place in the steps, with bytes put at the front of the buffer.
pub(crate) fn give(steps: &[Step], place: Place, links: Links, buffer: &mut [u8]) -> Given
    requires room { 0 < length buffer.old }
    requires some_open { is_open_in links (first_open links) ≡ true }
    ensures comes { entry_of buffer.new result.happening
        ≡ comes links (length buffer.old) (due links (steps_from place steps.now)) }
    ensures behind { steps_from result.place steps.now
        ≡ behind result.happening (due links (steps_from place steps.now)) }
    ensures possible { IsPossible links (length buffer.old) result.happening }
{
    let mut byte = place.byte;
    for step in place.step..steps.len() {
        if let Some(happening) = give_step(&steps[step], byte, links, buffer) {
            let place = Place { step, byte }.behind(happening);
            return Given { happening, place };
        }
        byte = 0;
    }
    Given {
        happening: Happening::Shut(links.first()),
        place: Place {
            step: steps.len(),
            byte: 0,
        },
    }
}

// What a step gives from a byte on; nothing where it is passed over.
fn give_step(step: &Step, byte: usize, links: Links, buffer: &mut [u8]) -> Option<Happening>
    requires { 0 < length buffer.old }
    ensures passed { IfNone result (gives links (step_from byte step.now) ≡ false) }
    ensures gives { IfSome result (λ h. gives links (step_from byte step.now) ≡ true) }
    ensures entry { IfSome result (λ h. entry_of buffer.new h
        ≡ given_by (length buffer.old) (step_from byte step.now)) }
    ensures possible { IfSome result (IsPossible links (length buffer.old)) }
    ensures place { IfSome result (λ h. byte + taken h < 2 ^ 64) }
{
    match step {
        Step::Bytes(side, bytes) => {
            if byte < bytes.len() && links.is_open(*side) {
                let n = copy_front(&bytes.as_slice()[byte..], buffer);
                Some(Happening::Bytes(*side, n))
            } else {
                None
            }
        }
        Step::Shut(side) => {
            if links.is_open(*side) {
                Some(Happening::Shut(*side))
            } else {
                None
            }
        }
        Step::Failed(side) => {
            if links.is_open(*side) {
                Some(Happening::Failed(*side))
            } else {
                None
            }
        }
        Step::Quiet => Some(Happening::Quiet),
    }
}

// Copies as many bytes as fit to the front of a buffer.
fn copy_front(bytes: &[u8], buffer: &mut [u8]) -> usize
    ensures count { result ≡ min (length bytes.now) (length buffer.old) }
    ensures front { take result buffer.new ≡ take (length buffer.old) bytes.now }
{
    let n = bytes.len().min(buffer.len());
    buffer[..n].copy_from_slice(&bytes[..n]);
    n
}

/// How many bytes of a send to a side are kept, where a cut names it.
pub(crate) fn kept(failing: &[Cut], side: Side, call: u64) -> Option<u32>
    ensures { result ≡ kept_of side call failing.now }
{
    failing
        .iter()
        .find(|cut| cut.side == side && cut.call == call)
        .map(|cut| cut.kept)
}
