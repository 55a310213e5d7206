use super::*;
use jdwp_commands::{Asked, Effect, Question};

// Which command it is, of the few that are sent here.
fn name(asked: &Asked) -> &'static str {
    match asked {
        Asked::Question(Question::AllThreads) => "AllThreads",
        Asked::Question(Question::AllClasses) => "AllClasses",
        Asked::Question(_) => "another question",
        Asked::Effect(Effect::Suspend) => "Suspend",
        Asked::Effect(_) => "another effect",
    }
}

fn settled(pending: &mut Pending, id: u32) -> Result<&'static str, UnknownReply> {
    match pending.settle(id) {
        Ok(asked) => Ok(name(&asked)),
        Err(unknown) => Err(unknown),
    }
}

#[test]
fn a_reply_settles_the_command_of_its_id(rt: HostRuntime) {
    let mut pending = Pending::new();
    assert!(rt; pending.is_empty() && !pending.is_full());
    assert_eq!(rt; pending.next_id(), 1);
    assert_eq!(rt; pending.send(Asked::Question(Question::AllThreads)), 1);
    assert!(rt; !pending.is_full());
    assert_eq!(rt; pending.send(Asked::Question(Question::AllClasses)), 2);
    assert!(rt; !pending.is_full());
    assert_eq!(rt; pending.send(Asked::Effect(Effect::Suspend)), 3);
    assert_eq!(rt; pending.place(2), Some(1));
    assert_eq!(rt; pending.place(4), None);
    for (id, want) in [
        (4, Err(UnknownReply(4))),
        (2, Ok("AllClasses")),
        (2, Err(UnknownReply(2))),
        (0, Err(UnknownReply(0))),
        (3, Ok("Suspend")),
        (1, Ok("AllThreads")),
        (1, Err(UnknownReply(1))),
    ] {
        assert!(rt; !pending.is_empty() || id == 1);
        assert_eq!(rt; settled(&mut pending, id), want);
    }
    assert!(rt; pending.is_empty());
    assert_eq!(rt; pending.next_id(), 4);
}

#[test]
fn sixteen_commands_fill_the_window(rt: HostRuntime) {
    let mut pending = Pending::new();
    for id in 1..=16 {
        assert!(rt; !pending.is_full());
        assert_eq!(rt; pending.send(Asked::Question(Question::AllThreads)), id);
    }
    assert!(rt; pending.is_full());
    assert_eq!(rt; settled(&mut pending, 9), Ok("AllThreads"));
    assert!(rt; !pending.is_full());
    assert_eq!(rt; pending.send(Asked::Effect(Effect::Suspend)), 17);
    assert!(rt; pending.is_full());
    assert_eq!(rt; settled(&mut pending, 17), Ok("Suspend"));
}

#[test]
fn behind_the_last_id_the_first_comes_again(rt: HostRuntime) {
    let mut pending = Pending::new();
    pending.go_on_behind(4294967293);
    for (id, settles) in [
        (4294967294, true),
        (4294967295, true),
        (1, false),
        (2, true),
    ] {
        assert!(rt; !pending.is_full());
        assert_eq!(rt; pending.next_id(), id);
        assert_eq!(rt; pending.send(Asked::Question(Question::AllThreads)), id);
        if settles {
            assert_eq!(rt; settled(&mut pending, id), Ok("AllThreads"));
        }
    }
    assert_eq!(rt; settled(&mut pending, 1), Ok("AllThreads"));
    assert!(rt; pending.is_empty());
}

#[test]
fn an_id_that_is_pending_is_not_given_again(rt: HostRuntime) {
    let mut pending = Pending::new();
    assert!(rt; !pending.is_full());
    assert_eq!(rt; pending.send(Asked::Effect(Effect::Suspend)), 1);
    pending.go_on_behind(0);
    assert!(rt; pending.is_full());
    assert_eq!(rt; settled(&mut pending, 1), Ok("Suspend"));
    assert!(rt; !pending.is_full());
}
