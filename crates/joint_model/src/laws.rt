//! What holds of look-ups over a target's world, and of every joint of the machine and a target. Each law is the
//! contract of a function that does nothing.

ghost use Rattle.joint_model.specs.Laws.{Balances, CountsAtRest, ErrorsAreTaken, LookUps, PendingOnTheWay};
ghost use Rattle.joint_model.specs.Laws.{RepliesStay, ResumesHeld, ShowsTheWorld, StandsStill, StopsAreHeld};

/// A look-up that is done by the replies of a target that obeys JDWP has the value that it has in the target's world,
/// in whatever order they were asked for and came, and whatever numbers the target chose for its errors. One that has
/// failed has no value there; it fails with an error of a question that the world refuses: with 112 just where the
/// target has ended, and with 10, unless a fact of a class was asked for, just where a thread isn't alive (JDWP,
/// Detailed Command Information; JDWP, Error Constants).
pub fn look_ups_show_the_targets_world()
    ensures { LookUps }
{}

/// No Resume is sent but for a suspension of the whole target that is held by the messages before it: so many more
/// composites and Suspends suspended it than Resumes were sent (JDWP, VirtualMachine command set, Suspend and Resume).
pub fn no_resume_is_sent_that_is_not_held()
    ensures { ResumesHeld }
{}

/// As long as a target that obeys JDWP lives and wasn't left, all its threads are suspended just as often as the
/// messages say, and as they don't tell yet: for each Resume that it hasn't served, for each composite that suspends
/// all threads and each reply to a Suspend in flight, and for each such composite that is kept unread (JDWP, Event
/// command set, Composite; JDWP, VirtualMachine command set, Suspend and Resume).
pub fn suspensions_balance()
    ensures { Balances }
{}

/// As long as the machine holds a suspension of the whole target, for the stop in hand, as its entry or for the
/// composite in hand, and no Suspend waits for its reply, a target that obeys JDWP, lives and wasn't left stands still:
/// all its threads are suspended, its program doesn't run, and no event and no command changes a class, an object, a
/// thread, a frame or a value, but for the value that a SetValues puts. So each question has the same reply as before,
/// as long as that is so (JDWP, Event command set, Composite; JDWP, VirtualMachine command set, Suspend).
pub fn a_target_that_is_held_stands_still()
    ensures { StandsStill }
{}

/// In a stop the machine holds a suspension of the whole target (DAP specification, Events, Stopped; JDWP,
/// VirtualMachine command set, Suspend).
pub fn a_stop_holds_the_target()
    ensures { StopsAreHeld }
{}

/// At rest, once the session is attached, with no command unserved, nothing in flight and nothing unread, a target that
/// obeys JDWP, lives and wasn't left is suspended once for a stop in hand, once as its entry, and no more (JDWP,
/// VirtualMachine command set, Suspend and Resume).
pub fn a_target_runs_on_at_rest()
    ensures { CountsAtRest }
{}

/// An error that a target which obeys JDWP replies ends no session: of the commands that a session can't do without
/// (IDSizes, AllClasses, Suspend, Resume and Clear) none is refused, unless the target has ended (JDWP, Error
/// Constants).
pub fn no_error_of_an_obeying_target_ends_a_session()
    ensures { ErrorsAreTaken }
{}

/// What is pending is on its way: of commands of any kind as many are pending as the target hasn't served, and as have
/// a reply in flight (JDWP, JDWP Packets).
pub fn what_is_pending_is_on_its_way()
    ensures { PendingOnTheWay }
{}

/// As long as the machine holds a suspension of the whole target and no Suspend waits for its reply, each reply to a
/// question that is in flight from a target that obeys JDWP, lives and wasn't left is one that the target may give as
/// its world stands: nothing that it tells has changed since (JDWP, JDWP Packets; JDWP, VirtualMachine command set,
/// Suspend).
pub fn replies_in_flight_stay_so_while_the_target_is_held()
    ensures { RepliesStay }
{}

/// As long as the machine holds a suspension of the whole target and no Suspend waits for its reply, over a target that
/// obeys JDWP, lives and wasn't left, and where what is known of classes is so in its world: a look-up for a request or
/// a composite in hand, for which nothing was written so far, has the value that it has in that world as it stands; one
/// that has failed has none there. Nothing was written where only questions were sent for it, nor where a look-up is
/// still to be done: before that at most event requests are set and cleared (DAP specification, StackTrace, Scopes,
/// Variables, Evaluate and ExceptionInfo requests; JDWP, Detailed Command Information; JDWP, Event command set,
/// Composite).
pub fn a_look_up_shows_the_world_as_it_stands()
    ensures { ShowsTheWorld }
{}
