//! What comes next where a session log is replayed, and where the replay stands behind it.
ghost use Rattle.std.specs.Prelude.{◌≡◌, ◌+◌, ◌<◌, ◌^◌, true, length, take, drop, min, IfNone, IfSome};
ghost use Rattle.wire_core.specs.Links.{is_open_in, first_open, IsPossible};
ghost use Rattle.run_logs.specs.declared.run.Run.TheVariants.{One};
ghost use Rattle.wire_core.specs.declared.outside.Entry.TheVariants.{In};
ghost use Rattle.file_wires.specs.Replaying.{left_at, taken, Comes, Gives, IsBehind, Passes};

use run_logs::Run;
use wire_core::{Entry, Happening, Links, Side};

/// A place in the runs of a log: so many bytes, or waits in vain, of the run of this index came already.
#[derive(Clone, Copy, Debug, PartialEq, Eq)]
pub(crate) struct Place {
    run: usize,
    done: u64,
}

/// What came, and the place behind it.
#[derive(Clone, Copy, Debug, PartialEq, Eq)]
pub(crate) struct Given {
    pub(crate) happening: Happening,
    pub(crate) place: Place,
}

impl Place {
    /// The place before all runs.
    pub(crate) const START: Place = Place { run: 0, done: 0 };

    // The place behind what came from the run at this place.
    fn behind(self, happening: Happening) -> Place
        requires run { self.run + 1 < 2 ^ 64 }
        requires done { self.done + taken happening < 2 ^ 64 }
        ensures { IsBehind self happening result }
    {
        match happening {
            Happening::Bytes(_, n) => Place {
                run: self.run,
                done: self.done + n as u64,
            },
            Happening::Quiet => Place {
                run: self.run,
                done: self.done + 1,
            },
            Happening::Shut(_) => Place {
                run: self.run + 1,
                done: 0,
            },
            Happening::Failed(_) => Place {
                run: self.run + 1,
                done: 0,
            },
        }
    }
}

/// What comes next from a place in the runs, with bytes put at the front of the buffer. Behind the last run each side
/// that is open ends, the client first.
pub(crate) fn give(runs: &[Run], place: Place, links: Links, buffer: &mut [u8]) -> Given
    requires room { length buffer.old ≡ 65536 }
    requires some_open { is_open_in links (first_open links) ≡ true }
    ensures comes { Comes links buffer.new result.happening (left_at place runs.now) (left_at result.place runs.now) }
    ensures possible { IsPossible links (length buffer.old) result.happening }
{
    let mut done = place.done;
    for run in place.run..runs.len() {
        if let Some(happening) = give_run(&runs[run], done, links, buffer) {
            let place = Place { run, done }.behind(happening);
            return Given { happening, place };
        }
        done = 0;
    }
    Given {
        happening: Happening::Shut(links.first()),
        place: Place {
            run: runs.len(),
            done: 0,
        },
    }
}

// What a run gives where so much of it came; nothing where it is passed over.
fn give_run(run: &Run, done: u64, links: Links, buffer: &mut [u8]) -> Option<Happening>
    requires { length buffer.old ≡ 65536 }
    ensures passes { IfNone result (Passes links done run.now) }
    ensures gives { IfSome result (λ h. Gives links buffer.new h done run.now) }
    ensures possible { IfSome result (IsPossible links (length buffer.old)) }
    ensures place { IfSome result (λ h. done + taken h < 2 ^ 64) }
{
    match run {
        Run::One(entry) => give_one(entry, done, links, buffer),
        Run::Quiets(n) => if done < *n {
            Some(Happening::Quiet)
        } else {
            None
        },
    }
}

// The same of an entry.
fn give_one(entry: &Entry, done: u64, links: Links, buffer: &mut [u8]) -> Option<Happening>
    requires { length buffer.old ≡ 65536 }
    ensures passes { IfNone result (Passes links done (One entry.now)) }
    ensures gives { IfSome result (λ h. Gives links buffer.new h done (One entry.now)) }
    ensures possible { IfSome result (IsPossible links (length buffer.old)) }
    ensures place { IfSome result (λ h. done + taken h < 2 ^ 64) }
{
    match entry {
        Entry::In(side, bytes) => give_bytes(*side, bytes.as_slice(), done, links, buffer),
        Entry::Out(_, _) => None,
        Entry::Shut(side) => if links.is_open(*side) {
            Some(Happening::Shut(*side))
        } else {
            None
        },
        Entry::Failed(side) => if links.is_open(*side) {
            Some(Happening::Failed(*side))
        } else {
            None
        },
        Entry::Quiet => if done < 1 {
            Some(Happening::Quiet)
        } else {
            None
        },
    }
}

// The same of bytes.
fn give_bytes(
    side: Side,
    bytes: &[u8],
    done: u64,
    links: Links,
    buffer: &mut [u8],
) -> Option<Happening>
    requires { length buffer.old ≡ 65536 }
    ensures passes { IfNone result (Passes links done (One (In side bytes.now))) }
    ensures gives { IfSome result (λ h. Gives links buffer.new h done (One (In side bytes.now))) }
    ensures possible { IfSome result (IsPossible links (length buffer.old)) }
    ensures place { IfSome result (λ h. done + taken h < 2 ^ 64) }
{
    if done < bytes.len() as u64 && links.is_open(side) {
        let n = copy_front(&bytes[done as usize..], buffer);
        Some(Happening::Bytes(side, n))
    } else {
        None
    }
}

// Copies as many bytes as fit to the front of a buffer.
fn copy_front(bytes: &[u8], buffer: &mut [u8]) -> usize
    ensures count { result ≡ min (length bytes.now) (length buffer.old) }
    ensures front { take result buffer.new ≡ take (length buffer.old) bytes.now }
{
    let n = bytes.len().min(buffer.len());
    buffer[..n].copy_from_slice(&bytes[..n]);
    n
}
