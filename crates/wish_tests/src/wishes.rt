use jdwp_events::{EventKind, Modifier, Policy};
use jdwp_values::{ClassId, Location, MethodId, ThreadId, TypeTag};
use std::alloc::Global;
use std::cmp::Ordering;
use std::test::Fail;
use wire_core::{NoMemory, Text};
use wish_sets::{Depth, Wish};

// A wish, as a table has it.
#[derive(Clone, Copy, Drop)]
enum Row<'a> {
    Start,
    Death,
    Watch(&'a str),
    Stop(u64),
    Thrown,
    Step,
}

// One wish of each kind, and of some kinds two, in wish order.
const ROWS: [Row<'static>; 8] = [
    Row::Start,
    Row::Death,
    Row::Watch(""),
    Row::Watch("com.shop"),
    Row::Stop(9),
    Row::Stop(10),
    Row::Thrown,
    Row::Step,
];

// A location in a class, in its method 7 at index 8.
fn at(class: u64) -> Location {
    Location {
        tag: TypeTag::Class,
        class: ClassId(class),
        method: MethodId(7),
        index: 8,
    }
}

fn wish_of(alloc: Global, row: Row<'_>) -> Result<Wish, NoMemory> {
    Ok(match row {
        Row::Start => Wish::ThreadStart,
        Row::Death => Wish::ThreadDeath,
        Row::Watch(package) => Wish::Watch(Text::from_str(alloc, package)?),
        Row::Stop(class) => Wish::Stop(at(class)),
        Row::Thrown => Wish::Thrown {
            caught: false,
            uncaught: true,
        },
        Row::Step => Wish::Step {
            thread: ThreadId(1),
            depth: Depth::Out,
        },
    })
}

// How two wishes stand to each other, by each of the three comparisons.
type Compared = (Ordering, Option<Ordering>, bool);

fn compared(alloc: Global, one: Row<'_>, other: Row<'_>) -> Result<Compared, NoMemory> {
    let wish = wish_of(alloc, one)?;
    let other = wish_of(alloc, other)?;
    Ok((wish.cmp(&other), wish.partial_cmp(&other), wish == other))
}

#[test]
fn wishes_stand_by_kind_and_content(rt: HostRuntime) -> Result<(), Fail> {
    for (place, one) in ROWS.iter().enumerate() {
        for (other_place, other) in ROWS.iter().enumerate() {
            let wanted = place.cmp(&other_place);
            let found = compared(rt.alloc(), *one, *other)?;
            assert_eq!(rt; found, (wanted, Some(wanted), place == other_place));
        }
    }
    Ok(())
}

fn kind_and_policy(alloc: Global, row: Row<'_>) -> Result<(EventKind, Policy), NoMemory> {
    let wish = wish_of(alloc, row)?;
    Ok((wish.kind(), wish.policy()))
}

// Kinds and policies as the standard numbers them (JDWP, Constants, EventKind and SuspendPolicy).
#[test]
fn each_wish_has_its_kind_and_policy(rt: HostRuntime) -> Result<(), Fail> {
    let wanted = [
        (6, Policy::NoThread),
        (7, Policy::NoThread),
        (8, Policy::All),
        (8, Policy::All),
        (2, Policy::All),
        (2, Policy::All),
        (4, Policy::All),
        (1, Policy::All),
    ];
    for (row, (number, policy)) in ROWS.iter().zip(wanted) {
        let (kind, found) = kind_and_policy(rt.alloc(), *row)?;
        assert_eq!(rt; Some(kind), EventKind::from_byte(number));
        assert_eq!(rt; found, policy);
    }
    Ok(())
}

// The one modifier of an event request, or that there is none.
#[derive(Clone, Copy, Drop)]
enum Narrowed<'a> {
    Not,
    ToClasses(&'a [u8]),
    ToLocation(Location),
    ToUncaught,
    ToStepOut,
}

fn are(modifiers: &[Modifier], narrowed: Narrowed<'_>) -> bool {
    match (modifiers, narrowed) {
        ([], Narrowed::Not) => true,
        ([Modifier::ClassMatch(found)], Narrowed::ToClasses(pattern)) => {
            found.as_slice() == pattern
        }
        ([Modifier::LocationOnly(found)], Narrowed::ToLocation(at)) => *found == at,
        (
            [
                Modifier::ExceptionOnly {
                    class,
                    caught,
                    uncaught,
                },
            ],
            Narrowed::ToUncaught,
        ) => *class == ClassId(0) && *caught == 0 && *uncaught == 1,
        (
            [
                Modifier::Step {
                    thread,
                    size,
                    depth,
                },
            ],
            Narrowed::ToStepOut,
        ) => *thread == ThreadId(1) && *size == 1 && *depth == 2,
        _ => false,
    }
}

fn is_narrowed(alloc: Global, row: Row<'_>, narrowed: Narrowed<'_>) -> Result<bool, NoMemory> {
    let wish = wish_of(alloc, row)?;
    let modifiers = wish.modifiers(alloc)?;
    Ok(are(modifiers.as_slice(), narrowed))
}

// The pattern of each package, and what else an event request is narrowed to (JDWP, EventRequest command set, Set).
#[test]
fn each_wish_is_narrowed_to_what_it_is_of(rt: HostRuntime) -> Result<(), Fail> {
    let wanted = [
        Narrowed::Not,
        Narrowed::Not,
        Narrowed::ToClasses(b"*"),
        Narrowed::ToClasses(b"com.shop.*"),
        Narrowed::ToLocation(at(9)),
        Narrowed::ToLocation(at(10)),
        Narrowed::ToUncaught,
        Narrowed::ToStepOut,
    ];
    for (place, (row, narrowed)) in ROWS.iter().zip(wanted).enumerate() {
        assert!(rt; is_narrowed(rt.alloc(), *row, narrowed)?, "{place}");
    }
    Ok(())
}
