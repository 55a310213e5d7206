use super::*;
use std::test::Fail;
use tap_model::Owner;

const DEBUGGERS: Owner = Owner::Debugger {
    id: 70,
    leaves: false,
};

// Sends so many questions, from that number on.
fn ask(window: &mut Window, first: usize, many: usize) -> Result<(), Fail> {
    for n in first..first.saturating_add(many) {
        window.send(Owner::Question(n))?;
    }
    Ok(())
}

#[test]
fn a_reply_settles_the_command_of_its_id(rt: HostRuntime) -> Result<(), Fail> {
    let mut window = Window::new(rt.alloc());
    assert_eq!(rt; window.next_id(), 1);
    window.send(Owner::Sizes)?;
    window.send(DEBUGGERS)?;
    ask(&mut window, 0, 1)?;
    for (id, want) in [
        (4, None),
        (2, Some(DEBUGGERS)),
        (2, None),
        (3, Some(Owner::Question(0))),
        (1, Some(Owner::Sizes)),
        (0, None),
    ] {
        assert!(rt; window.owner(id) == want);
        window.settle(id);
    }
    assert_eq!(rt; window.next_id(), 4);
    Ok(())
}

#[test]
fn sixteen_questions_have_no_reply_at_most(rt: HostRuntime) -> Result<(), Fail> {
    let mut window = Window::new(rt.alloc());
    ask(&mut window, 0, 15)?;
    window.send(DEBUGGERS)?;
    assert!(rt; window.can_ask());
    ask(&mut window, 15, 1)?;
    assert!(rt; !window.can_ask());
    window.settle(16);
    assert_eq!(rt; window.debuggers(), 0);
    assert!(rt; !window.can_ask());
    window.settle(9);
    assert!(rt; window.can_ask());
    Ok(())
}

#[test]
fn behind_the_last_id_the_first_comes_again(rt: HostRuntime) -> Result<(), Fail> {
    let mut window = Window::with_first(rt.alloc(), DEBUGGERS, 4294967294)?;
    assert_eq!(rt; window.next_id(), 4294967295);
    assert!(rt; !window.is_taken());
    window.send(Owner::Sizes)?;
    assert_eq!(rt; window.next_id(), 1);
    assert!(rt; window.is_taken() && !window.can_ask());
    window.settle(1);
    assert!(rt; !window.is_taken() && window.can_ask());
    Ok(())
}
