ghost use Rattle.std.specs.Prelude.{◌≡◌, ◌+◌, ◌^◌, ◌<◌, ◌≤◌, length, take};
ghost use Rattle.dap_frames.specs.Frames.{frame_front, header_of, bounded_by};
ghost use Rattle.dap_frames.specs.Taking.{IsRead, IsFound};

use crate::fault::FrameFault;
use crate::header::{Head, Reading, read_on};

/// The longest header, in bytes, with its empty line.
const LONGEST_HEADER: usize = 4096;

/// What stands at the front of a stream's bytes.
#[derive(Clone, Copy)]
pub(crate) enum Found {
    /// Nothing that is decided yet.
    Waits,
    /// A frame: the lengths of its header and of all of it.
    Whole(usize, usize),
    /// A refused byte, and how far behind the front it stands.
    Refused(FrameFault, usize),
}

/// What stands at the front of the pending bytes, of whose header the first `read` bytes say `head`.
pub(crate) fn look(head: &mut Head, read: &mut usize, pending: &[u8]) -> Found
    requires read { IsRead head.old read.old pending.now }
    requires small { length pending.now < 2 ^ 63 }
    ensures read { IsRead head.new read.new pending.now }
    ensures found { IsFound result (frame_front pending.now) pending.now }
{
    *head = header_by(*head, *read, pending);
    *read = pending.len();
    found_by(*head, pending)
}

// What the header says, of which the first bytes were read.
fn header_by(head: Head, read: usize, pending: &[u8]) -> Head
    requires read { IsRead head read pending.now }
    requires small { length pending.now < 2 ^ 63 }
    ensures { result ≡ header_of pending.now }
{
    match head {
        Head::Reads(reading) => header_from(reading, read, pending),
        Head::Ends(length, header) => Head::Ends(length, header),
        Head::Refused(fault, place) => Head::Refused(fault, place),
    }
}

// Reads on behind the first bytes, as far as a header may go.
fn header_from(reading: Reading, read: usize, pending: &[u8]) -> Head
    requires read { IsRead (Head.Reads reading) read pending.now }
    requires small { length pending.now < 2 ^ 63 }
    ensures { result ≡ header_of pending.now }
{
    let end = LONGEST_HEADER.min(pending.len());
    bounded(
        read_on(Head::Reads(reading), read, &pending[read..end]),
        pending.len(),
    )
}

// Where so many bytes end no header and another is there, that one is refused.
fn bounded(head: Head, count: usize) -> Head
    ensures { result ≡ bounded_by count head }
{
    match head {
        Head::Reads(reading) => {
            if count > LONGEST_HEADER {
                Head::Refused(FrameFault::HeaderTooLong, LONGEST_HEADER)
            } else {
                Head::Reads(reading)
            }
        }
        Head::Ends(length, header) => Head::Ends(length, header),
        Head::Refused(fault, place) => Head::Refused(fault, place),
    }
}

fn found_by(head: Head, pending: &[u8]) -> Found
    requires says { header_of pending.now ≡ head }
    requires small { length pending.now < 2 ^ 63 }
    ensures { IsFound result (frame_front pending.now) pending.now }
{
    match head {
        Head::Reads(_) => Found::Waits,
        Head::Refused(fault, place) => Found::Refused(fault, place),
        Head::Ends(length, header) => {
            if pending.len() - header < length as usize {
                Found::Waits
            } else {
                Found::Whole(header, header + length as usize)
            }
        }
    }
}
