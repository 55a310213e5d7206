//! A change of the target's event requests, and what came of it.

use crate::wish::Wish;

/// The next change of what is installed. A Clear has the request's place among those that are installed, the id that
/// the target gave it, and its wish; a Set has the place of the wish among those that are wished, and the wish. Places
/// are counted from 0, in wish order (JDWP, EventRequest command set, Set and Clear).
#[derive(Clone, Copy)]
pub enum Change<'a> {
    Clear {
        place: u32,
        request: u32,
        wish: &'a Wish,
    },
    Set {
        place: u32,
        wish: &'a Wish,
    },
}

/// What came of a change: a request was cleared, a wish was installed under the id of its request, or it was refused
/// with the code of an error reply (JDWP, EventRequest command set, Set and Clear; JDWP, Constants, Error).
#[derive(Clone, Copy, PartialEq, Eq)]
pub enum Settled {
    Cleared,
    Installed(u32),
    Refused(u16),
}
