use jdwp_values::{ClassId, FrameId, Location, MethodId, ObjectId, ThreadId, TypeTag};
use stop_refs::{FrameThing, NumberFault, RefFault, Running, Thing};

fn frame_at(index: u64) -> FrameThing {
    FrameThing {
        thread: ThreadId(1),
        frame: FrameId(7),
        at: Location {
            tag: TypeTag::Class,
            class: ClassId(100),
            method: MethodId(1000),
            index,
        },
    }
}

#[test]
fn numbers_die_with_their_stop(rt: HostRuntime) {
    let (upper, lower) = (frame_at(4), frame_at(5));
    let mut stop = Running::new(rt.alloc()).stop();
    for (thing, number) in [
        (Thing::Frame(upper), 1),
        (Thing::Frame(lower), 2),
        (Thing::Locals(upper), 3),
        (Thing::Frame(upper), 1),
        (Thing::Object(ObjectId(9)), 4),
        (Thing::Array(ObjectId(9)), 5),
        (Thing::Object(ObjectId(9)), 4),
    ] {
        assert_eq!(rt; stop.number(thing), Ok(number));
    }
    assert_eq!(rt; stop.room(), 2147483642);
    for (n, frame, container) in [
        (0, Err(RefFault::Unknown(6)), Err(RefFault::Unknown(6))),
        (2, Ok(lower), Err(RefFault::WrongKind)),
        (3, Err(RefFault::WrongKind), Ok(Thing::Locals(upper))),
        (5, Err(RefFault::WrongKind), Ok(Thing::Array(ObjectId(9)))),
        (6, Err(RefFault::Unknown(6)), Err(RefFault::Unknown(6))),
    ] {
        assert_eq!(rt; stop.frame(n).map(|found| *found.thing), frame);
        assert_eq!(rt; stop.container(n).map(|found| *found.thing), container);
    }
    let running = stop.resume();
    assert_eq!(rt; running.look(2), RefFault::Stale(1));
    assert_eq!(rt; running.look(6), RefFault::Unknown(6));
}

#[test]
fn a_stop_in_which_nothing_was_told_is_counted(rt: HostRuntime) {
    let first = Running::from_number(rt.alloc(), 5).stop();
    let mut second = first.resume().stop();
    assert_eq!(rt; second.number(Thing::Object(ObjectId(3))), Ok(5));
    let third = second.resume().stop();
    let mut fourth = third.resume().stop();
    assert_eq!(rt; fourth.number(Thing::Object(ObjectId(3))), Ok(6));
    for (n, fault) in [
        (4, RefFault::Unknown(7)),
        (5, RefFault::Stale(2)),
        (6, RefFault::WrongKind),
    ] {
        assert_eq!(rt; fourth.frame(n).map(|found| *found.thing), Err(fault));
    }
    assert_eq!(rt; fourth.resume().look(6), RefFault::Stale(4));
}

#[test]
fn the_last_number_is_given_once(rt: HostRuntime) {
    let mut stop = Running::from_number(rt.alloc(), 2147483647).stop();
    assert_eq!(rt; stop.room(), 1);
    for (object, number) in [
        (1, Ok(2147483647)),
        (2, Err(NumberFault::Spent)),
        (1, Ok(2147483647)),
    ] {
        assert_eq!(rt; stop.number(Thing::Array(ObjectId(object))), number);
    }
    assert_eq!(rt; stop.room(), 0);
    assert_eq!(rt;
        stop.resume().look(2147483648),
        RefFault::Unknown(2147483648)
    );
}
