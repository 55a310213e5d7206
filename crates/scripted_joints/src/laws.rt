//! A scripted target is one that obeys JDWP. Each law is the contract of a function that does nothing.

ghost use Rattle.scripted_joints.specs.Laws.{CallsObey, CoursesObey, ErrorsTaken, SessionsBalance, SessionsJoin};
ghost use Rattle.scripted_joints.specs.Laws.{SessionsSend};

/// Each call of a scripted target, whatever is fed, served, moved or read, is a course of a target that obeys JDWP:
/// commands come to it, it serves some, its program runs, and events go out. Behind the call the two have the same
/// world and the same unserved commands, and the bytes that went out and those on their way are the handshake and the
/// packets of what the other has sent, in order (JDWP, JDWP Start Up; JDWP, JDWP Packets).
pub fn each_call_obeys()
    ensures { CallsObey }
{}

/// The same of each course of calls, in any order, over what a script gives: a sound world that lives, with no event
/// request and no suspension, and a start under NONE or ALL.
pub fn each_course_obeys()
    ensures { CoursesObey }
{}

/// A session over a scripted target is a joint of the machine and a target that obeys JDWP (crate `joint_model`), with
/// the same messages and the same machine, the target's world, the commands that it hasn't served, and the replies and
/// composites on their way. So the laws over all such joints hold of it, with no premise on the target but that its
/// script gives a sound world.
pub fn each_session_is_a_joint()
    ensures { SessionsJoin }
{}

/// In such a session the bytes that went out, and those on their way, are the handshake and the packets of the replies
/// and composites that were read, and then of those in flight, in order (JDWP, JDWP Start Up; JDWP, JDWP Packets).
pub fn packets_in_flight_are_those_of_the_bytes()
    ensures { SessionsSend }
{}

/// For instance: as long as a scripted target lives and wasn't left, all its threads are suspended just as often as the
/// messages say, and as they don't tell yet (JDWP, Event command set, Composite; JDWP, VirtualMachine command set,
/// Suspend and Resume).
pub fn suspensions_balance_over_a_script()
    ensures { SessionsBalance }
{}

/// An error that a scripted target replies ends no session, whatever its world: of the commands that a session can't do
/// without (IDSizes, AllClasses, Suspend, Resume and Clear) none is refused, unless the target has ended (JDWP, Error
/// Constants).
pub fn no_error_of_a_scripted_target_ends_a_session()
    ensures { ErrorsTaken }
{}
