use class_tables::Classes;
use jdwp_events::EventKind;
use jdwp_values::{ClassId, Line, LineTable, Location, Method, MethodId, ThreadId, TypeTag};
use std::alloc::Global;
use wire_core::{Blob, List, NoMemory, Text};
use wish_sets::{
    Change, Depth, EntryAt, EntryState, FunctionEntry, LineEntry, Settled, VerifiedEntry, Wish,
    Wishes,
};

/// What is done.
#[derive(Clone, Copy, Drop)]
pub(crate) enum Act<'a> {
    Exceptions(bool, bool),
    Step(Depth),
    NoStep,
    Lines(&'a str, &'a [LineEntry]),
    Functions(&'a [(u64, &'a str)]),
    Known(&'a [u64]),
    Forgotten(u64),
    Settle(Settled),
}

/// The next change, by its place and the kind of its wish. A request that is cleared has its id, a breakpoint its
/// index in the method.
#[derive(Clone, Copy, Debug, PartialEq, Eq)]
pub(crate) enum Next {
    Nothing,
    Set(u32, EventKind, u64),
    Clear(u32, u32, EventKind, u64),
}

/// What is seen.
#[derive(Clone, Copy, Drop)]
pub(crate) enum Seen<'a> {
    Next(Next),
    Owner(EventKind, u32, Option<u64>),
    State(u64, Option<EntryState>),
    Verified(&'a [VerifiedEntry]),
    Entries(u64, &'a [EntryAt]),
    Watched(&'a [u8], bool),
    Listed(&'a [u8], &'a [u8], bool),
    Named(&'a [u8], Option<&'a [u8]>, bool),
}

#[derive(Clone, Copy, Drop)]
pub(crate) enum Step<'a> {
    Do(Act<'a>),
    See(Seen<'a>),
}

/// The class `Cart` of the default package, by the lines of its method `add`, and what is done and seen.
#[derive(Clone, Copy, Drop)]
pub(crate) struct Course<'a> {
    pub(crate) lines: &'a [Line],
    pub(crate) steps: &'a [Step<'a>],
}

const CART: ClassId = ClassId(5);

const ADD: MethodId = MethodId(7);

fn learn_cart(classes: &mut Classes, alloc: Global) -> Result<(), NoMemory> {
    let signature = Blob::from_slice(alloc, b"LCart;")?;
    classes.learn(CART, TypeTag::Class, signature, true)?;
    let source = Blob::from_slice(alloc, b"Cart.java")?;
    classes.learn_source(CART, Some(source))
}

fn learn_method(classes: &mut Classes, alloc: Global) -> Result<(), NoMemory> {
    let mut methods = List::new(alloc);
    methods.push(Method {
        id: ADD,
        name: Blob::from_slice(alloc, b"add")?,
        signature: Blob::from_slice(alloc, b"()V")?,
        bits: 0,
    })?;
    classes.learn_methods(CART, methods)
}

fn learn_lines(classes: &mut Classes, alloc: Global, lines: &[Line]) -> Result<(), NoMemory> {
    let table = LineTable {
        start: 0,
        end: 12,
        lines: List::from_slice(alloc, lines)?,
    };
    classes.learn_lines(CART, ADD, Some(table))
}

fn learn(classes: &mut Classes, alloc: Global, lines: &[Line]) -> Result<(), NoMemory> {
    learn_cart(classes, alloc)?;
    learn_method(classes, alloc)?;
    learn_lines(classes, alloc, lines)
}

fn set_functions(
    alloc: Global,
    wishes: &mut Wishes,
    names: &[(u64, &str)],
) -> Result<(), NoMemory> {
    let mut functions = List::new(alloc);
    for (id, name) in names {
        functions.push(FunctionEntry {
            id: *id,
            name: Text::from_str(alloc, name)?,
            plain: true,
        })?;
    }
    wishes.set_functions(alloc, functions)
}

fn set_lines(
    alloc: Global,
    wishes: &mut Wishes,
    key: &str,
    entries: &[LineEntry],
) -> Result<(), NoMemory> {
    let key = Text::from_str(alloc, key)?;
    let entries = List::from_slice(alloc, entries)?;
    wishes.set_lines(alloc, key, entries)
}

fn make_known(
    alloc: Global,
    wishes: &mut Wishes,
    classes: &Classes,
    ids: &[u64],
) -> Result<(), NoMemory> {
    let mut known = List::new(alloc);
    for id in ids {
        known.push(ClassId(*id))?;
    }
    wishes.classes_known(alloc, classes, known.as_slice())
}

// A class of which nothing is known any more is made known.
//
// A value that goes at the end of a scope is taken apart in the proof of that scope: large ones are let go by a call.
fn forget(alloc: Global, wishes: &mut Wishes, id: u64) -> Result<(), NoMemory> {
    let nothing = Classes::new(alloc);
    let known = wishes.class_known(alloc, &nothing, ClassId(id));
    drop(nothing);
    known
}

// The next change has this outcome, where it is one that the change can have.
fn settle(wishes: &mut Wishes, outcome: Settled) {
    match (wishes.next_change(), outcome) {
        (Some(Change::Clear { place, .. }), Settled::Cleared) => wishes.settled(place, outcome),
        (Some(Change::Set { place, .. }), Settled::Installed(_)) => wishes.settled(place, outcome),
        (Some(Change::Set { place, .. }), Settled::Refused(_)) => wishes.settled(place, outcome),
        _ => {}
    }
}

fn carry_out(
    alloc: Global,
    wishes: &mut Wishes,
    classes: &Classes,
    act: Act<'_>,
) -> Result<(), NoMemory> {
    match act {
        Act::Exceptions(caught, uncaught) => wishes.set_exceptions(caught, uncaught),
        Act::Step(depth) => wishes.set_step(ThreadId(1), depth),
        Act::NoStep => wishes.clear_step(),
        Act::Lines(key, entries) => set_lines(alloc, wishes, key, entries)?,
        Act::Functions(names) => set_functions(alloc, wishes, names)?,
        Act::Known(ids) => make_known(alloc, wishes, classes, ids)?,
        Act::Forgotten(id) => forget(alloc, wishes, id)?,
        Act::Settle(outcome) => settle(wishes, outcome),
    }
    Ok(())
}

fn index_of(wish: &Wish) -> u64 {
    match wish {
        Wish::Stop(at) => at.index,
        _ => 0,
    }
}

fn next_of(wishes: &Wishes) -> Next {
    match wishes.next_change() {
        Some(
            Change::Clear {
                place,
                request,
                wish,
            },
        ) => Next::Clear(place, request, wish.kind(), index_of(wish)),
        Some(Change::Set { place, wish }) => Next::Set(place, wish.kind(), index_of(wish)),
        None => Next::Nothing,
    }
}

fn owner_of(wishes: &Wishes, kind: EventKind, request: u32) -> Option<u64> {
    let owner = wishes.owner_of(kind, request)?;
    if owner.kind() != kind {
        return None;
    }
    Some(index_of(owner))
}

fn are_verified(
    alloc: Global,
    wishes: &Wishes,
    entries: &[VerifiedEntry],
) -> Result<bool, NoMemory> {
    let verified = wishes.verified(alloc)?;
    Ok(verified.as_slice() == entries)
}

fn stand_at(
    alloc: Global,
    wishes: &Wishes,
    index: u64,
    entries: &[EntryAt],
) -> Result<bool, NoMemory> {
    let location = Location {
        tag: TypeTag::Class,
        class: CART,
        method: ADD,
        index,
    };
    let found = wishes.entries_at(alloc, &location)?;
    Ok(found.as_slice() == entries)
}

fn is_seen(alloc: Global, wishes: &Wishes, seen: Seen<'_>) -> Result<bool, NoMemory> {
    Ok(match seen {
        Seen::Next(next) => next_of(wishes) == next,
        Seen::Owner(kind, request, index) => owner_of(wishes, kind, request) == index,
        Seen::State(id, state) => wishes.state_of(id) == state,
        Seen::Verified(entries) => are_verified(alloc, wishes, entries)?,
        Seen::Entries(index, entries) => stand_at(alloc, wishes, index, entries)?,
        Seen::Watched(path, watched) => wishes.is_watched(path) == watched,
        Seen::Listed(path, file, listed) => wishes.is_listed(path, file) == listed,
        Seen::Named(signature, method, named) => wishes.is_named(signature, method) == named,
    })
}

fn goes(
    alloc: Global,
    wishes: &mut Wishes,
    classes: &Classes,
    step: Step<'_>,
) -> Result<bool, NoMemory> {
    match step {
        Step::Do(deed) => carry_out(alloc, wishes, classes, deed)?,
        Step::See(seen) => return is_seen(alloc, wishes, seen),
    }
    Ok(true)
}

// The place of the first step that shows something else.
fn first_wrong(
    alloc: Global,
    wishes: &mut Wishes,
    classes: &Classes,
    steps: &[Step<'_>],
) -> Result<Option<usize>, NoMemory> {
    for (place, step) in steps.iter().enumerate() {
        if !goes(alloc, wishes, classes, *step)? {
            return Ok(Some(place));
        }
    }
    Ok(None)
}

fn wrong_over(
    alloc: Global,
    classes: &Classes,
    steps: &[Step<'_>],
) -> Result<Option<usize>, NoMemory> {
    let mut wishes = Wishes::new(alloc)?;
    let found = first_wrong(alloc, &mut wishes, classes, steps);
    drop(wishes);
    found
}

fn wrong_with(
    alloc: Global,
    classes: &mut Classes,
    course: Course<'_>,
) -> Result<Option<usize>, NoMemory> {
    learn(classes, alloc, course.lines)?;
    wrong_over(alloc, classes, course.steps)
}

/// The place of the first step of a course that shows something else than it must.
pub(crate) fn wrong_of(alloc: Global, course: Course<'_>) -> Result<Option<usize>, NoMemory> {
    let mut classes = Classes::new(alloc);
    let found = wrong_with(alloc, &mut classes, course);
    drop(classes);
    found
}
