use crate::courses::{Act, Course, Next, Seen, Step, wrong_of};
use jdwp_events::EventKind;
use jdwp_values::Line;
use std::test::Fail;
use wish_sets::{Depth, EntryAt, EntryState, LineEntry, Settled, VerifiedEntry};

// An entry that waits for nothing but its line.
const LINE_3: LineEntry = LineEntry {
    id: 1,
    line: 3,
    plain: true,
};

const ENTRY_1: EntryAt = EntryAt { id: 1, line: true };

// That entry, as it is verified.
const LINE_3_SEEN: VerifiedEntry = VerifiedEntry {
    id: 1,
    line: Some(3),
};

const LINE_3_AT_4: &[Line] = &[Line { index: 4, line: 3 }];

const EXCEPTIONS_AND_STEPS: Course<'static> = Course {
    lines: &[],
    steps: &[
        Step::See(Seen::Next(Next::Set(0, EventKind::ThreadStart, 0))),
        Step::Do(Act::Settle(Settled::Installed(2))),
        Step::See(Seen::Next(Next::Set(1, EventKind::ThreadDeath, 0))),
        Step::Do(Act::Settle(Settled::Installed(3))),
        Step::See(Seen::Next(Next::Nothing)),
        Step::Do(Act::Exceptions(true, false)),
        Step::Do(Act::Step(Depth::Over)),
        Step::See(Seen::Next(Next::Set(2, EventKind::Exception, 0))),
        Step::Do(Act::Settle(Settled::Refused(99))),
        Step::See(Seen::Next(Next::Set(3, EventKind::SingleStep, 0))),
        Step::Do(Act::Settle(Settled::Installed(4))),
        Step::See(Seen::Next(Next::Nothing)),
        Step::Do(Act::Exceptions(true, true)),
        Step::Do(Act::NoStep),
        Step::See(Seen::Next(Next::Clear(2, 4, EventKind::SingleStep, 0))),
        Step::Do(Act::Settle(Settled::Cleared)),
        Step::See(Seen::Next(Next::Set(2, EventKind::Exception, 0))),
    ],
};

// An event belongs to the wish of its kind and id.
const OWNERS: Course<'static> = Course {
    lines: &[],
    steps: &[
        Step::Do(Act::Settle(Settled::Installed(7))),
        Step::See(Seen::Owner(EventKind::ThreadStart, 7, Some(0))),
        Step::See(Seen::Owner(EventKind::ThreadStart, 8, None)),
        Step::See(Seen::Owner(EventKind::ThreadDeath, 7, None)),
    ],
};

// Line 3 of `Cart` and its method `add` are bound once the class is known.
const BOUND: Course<'static> = Course {
    lines: LINE_3_AT_4,
    steps: &[
        Step::Do(Act::Settle(Settled::Installed(1))),
        Step::Do(Act::Settle(Settled::Installed(2))),
        Step::Do(Act::Lines("Cart.java", &[LINE_3])),
        Step::Do(Act::Functions(&[(2, "Cart.add")])),
        Step::Do(Act::Settle(Settled::Installed(3))),
        Step::See(Seen::Next(Next::Nothing)),
        Step::Do(Act::Known(&[5])),
        Step::See(Seen::Next(Next::Set(3, EventKind::Breakpoint, 0))),
        Step::Do(Act::Settle(Settled::Installed(4))),
        Step::See(Seen::Next(Next::Set(4, EventKind::Breakpoint, 4))),
        Step::Do(Act::Settle(Settled::Installed(5))),
        Step::See(Seen::Next(Next::Nothing)),
        Step::Do(Act::Functions(&[])),
        Step::See(Seen::Next(Next::Clear(3, 4, EventKind::Breakpoint, 0))),
    ],
};

// An entry stands as its locations do.
const STANDING: Course<'static> = Course {
    lines: LINE_3_AT_4,
    steps: &[
        Step::Do(Act::Settle(Settled::Installed(1))),
        Step::Do(Act::Settle(Settled::Installed(2))),
        Step::Do(Act::Lines("Cart.java", &[LINE_3])),
        Step::Do(Act::Functions(&[(2, "Cart.add")])),
        Step::Do(Act::Settle(Settled::Installed(3))),
        Step::Do(Act::Known(&[5])),
        Step::See(Seen::State(1, Some(EntryState::Waiting))),
        Step::See(Seen::Verified(&[])),
        Step::Do(Act::Settle(Settled::Refused(99))),
        Step::Do(Act::Settle(Settled::Installed(5))),
        Step::See(Seen::State(1, Some(EntryState::Verified))),
        Step::See(Seen::State(2, Some(EntryState::Refused))),
        Step::See(Seen::State(3, None)),
        Step::See(Seen::Verified(&[LINE_3_SEEN])),
        Step::See(Seen::Entries(4, &[ENTRY_1])),
    ],
};

// A function that is verified, by its id.
const ADD_SEEN: VerifiedEntry = VerifiedEntry { id: 2, line: None };

// Breakpoints of sources and of functions are verified in order of their ids, whatever stands in front in their lists.
const VERIFIED: Course<'static> = Course {
    lines: &[Line { index: 4, line: 3 }, Line { index: 9, line: 5 }],
    steps: &[
        Step::Do(Act::Settle(Settled::Installed(1))),
        Step::Do(Act::Settle(Settled::Installed(2))),
        Step::Do(Act::Lines(
            "Cart.java",
            &[
                LineEntry {
                    id: 4,
                    line: 5,
                    plain: true,
                },
                LINE_3,
            ],
        )),
        Step::Do(Act::Functions(&[(3, "Cart.pay"), (2, "Cart.add")])),
        Step::Do(Act::Settle(Settled::Installed(3))),
        Step::Do(Act::Known(&[5])),
        Step::See(Seen::Verified(&[])),
        Step::Do(Act::Settle(Settled::Installed(4))),
        Step::See(Seen::Verified(&[ADD_SEEN])),
        Step::Do(Act::Settle(Settled::Installed(5))),
        Step::See(Seen::Verified(&[LINE_3_SEEN, ADD_SEEN])),
        Step::Do(Act::Settle(Settled::Installed(6))),
        Step::See(Seen::Next(Next::Nothing)),
        Step::See(Seen::Verified(&[
            LINE_3_SEEN,
            ADD_SEEN,
            VerifiedEntry {
                id: 4,
                line: Some(5),
            },
        ])),
    ],
};

// What is wanted is watched, listed and named.
const WANTED: Course<'static> = Course {
    lines: &[],
    steps: &[
        Step::Do(Act::Lines("com/caf\u{e9}/Till.java", &[LINE_3])),
        Step::Do(Act::Functions(&[(2, "org.Bank.open")])),
        Step::See(Seen::Watched(b"com/caf\xc3\xa9", true)),
        Step::See(Seen::Watched(b"org", true)),
        Step::See(Seen::Watched(b"com/caf\xc3", false)),
        Step::See(Seen::Watched(b"com", false)),
        Step::See(Seen::Listed(b"com/caf\xc3\xa9", b"Till.java", true)),
        Step::See(Seen::Listed(b"org", b"Bank.java", false)),
        Step::See(Seen::Named(b"Lorg/Bank;", None, true)),
        Step::See(Seen::Named(b"Lorg/Bank;", Some(b"open"), true)),
        Step::See(Seen::Named(b"Lorg/Bank;", Some(b"shut"), false)),
    ],
};

// A line that is in both lists stays installed (DAP specification, SetBreakpoints request).
const REPLACED: Course<'static> = Course {
    lines: &[
        Line { index: 0, line: 9 },
        Line { index: 5, line: 10 },
        Line { index: 9, line: 11 },
    ],
    steps: &[
        Step::Do(Act::Lines(
            "Cart.java",
            &[
                LineEntry {
                    id: 1,
                    line: 10,
                    plain: true,
                },
                LineEntry {
                    id: 2,
                    line: 11,
                    plain: true,
                },
            ],
        )),
        Step::Do(Act::Known(&[5])),
        Step::Do(Act::Settle(Settled::Installed(1))),
        Step::Do(Act::Settle(Settled::Installed(2))),
        Step::Do(Act::Settle(Settled::Installed(3))),
        Step::Do(Act::Settle(Settled::Installed(4))),
        Step::Do(Act::Settle(Settled::Installed(5))),
        Step::See(Seen::Next(Next::Nothing)),
        Step::Do(Act::Lines(
            "Cart.java",
            &[
                LineEntry {
                    id: 3,
                    line: 11,
                    plain: true,
                },
                LineEntry {
                    id: 4,
                    line: 9,
                    plain: true,
                },
            ],
        )),
        Step::See(Seen::Next(Next::Clear(3, 4, EventKind::Breakpoint, 5))),
        Step::Do(Act::Settle(Settled::Cleared)),
        Step::See(Seen::Next(Next::Set(3, EventKind::Breakpoint, 0))),
        Step::Do(Act::Settle(Settled::Installed(6))),
        Step::See(Seen::Next(Next::Nothing)),
        Step::See(Seen::Owner(EventKind::Breakpoint, 5, Some(9))),
    ],
};

// Classes that were not loaded, or of which nothing new is known, change nothing.
const NOTHING_NEW: Course<'static> = Course {
    lines: LINE_3_AT_4,
    steps: &[
        Step::Do(Act::Settle(Settled::Installed(1))),
        Step::Do(Act::Settle(Settled::Installed(2))),
        Step::Do(Act::Lines("Cart.java", &[LINE_3])),
        Step::Do(Act::Settle(Settled::Installed(3))),
        Step::Do(Act::Known(&[6, 5, 5])),
        Step::See(Seen::Next(Next::Set(3, EventKind::Breakpoint, 4))),
        Step::Do(Act::Settle(Settled::Installed(4))),
        Step::See(Seen::Next(Next::Nothing)),
        Step::Do(Act::Known(&[5, 6])),
        Step::See(Seen::Next(Next::Nothing)),
        Step::Do(Act::Forgotten(5)),
        Step::See(Seen::Next(Next::Nothing)),
    ],
};

#[test]
fn event_requests_follow_what_is_wished(rt: HostRuntime) -> Result<(), Fail> {
    for course in [EXCEPTIONS_AND_STEPS, OWNERS, REPLACED, NOTHING_NEW] {
        assert_eq!(rt; wrong_of(rt.alloc(), course)?, None);
    }
    Ok(())
}

#[test]
fn entries_are_bound_and_told_by_their_locations(rt: HostRuntime) -> Result<(), Fail> {
    for course in [BOUND, STANDING, VERIFIED, WANTED] {
        assert_eq!(rt; wrong_of(rt.alloc(), course)?, None);
    }
    Ok(())
}
