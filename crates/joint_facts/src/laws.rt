//! What holds of what arrives, and of what is known of classes, in every joint of the machine and a target. Each law is
//! the contract of a function that does nothing.

ghost use Rattle.joint_facts.specs.Arrivals.{NoneSuspendsOne};
ghost use Rattle.joint_facts.specs.Laws.{ClassesAreThere, FactsHold, LookUpsShow, ShowsAsItStands};

/// Whatever the machine knows of a class is what a target that obeys JDWP and lives replies to a question for it: its
/// signature, its source file, its methods, their lines and variables, its fields and the class above it. What such a
/// target refuses to say is known as absent (JDWP, Detailed Command Information, command sets VirtualMachine,
/// ReferenceType, ClassType and Method; JDWP, Event command set, Composite, ClassPrepare).
pub fn what_is_known_of_classes_is_so()
    ensures { FactsHold }
{}

/// Each class that the machine knows is there in the world of a target that obeys JDWP, with the tag and the signature
/// that are known; one that is known to be prepared is prepared; and each fact that is known of it is what the world
/// has by its rows. So it is behind the target's end, too (JDWP, VirtualMachine command set, AllClasses; JDWP, Event
/// command set, Composite, ClassPrepare; JDWP, command sets ReferenceType, ClassType and Method).
pub fn classes_that_are_known_are_there()
    ensures { ClassesAreThere }
{}

/// Beside a target that obeys JDWP and lives, a look-up that is done by replies which are so in the target's world has
/// the value that it has in that world, in whatever order they were asked for and came. One that has failed has no
/// value there, and fails with an error of a question that the world refuses (JDWP, Detailed Command Information; JDWP,
/// Error Constants).
pub fn look_ups_beside_a_target_show_its_world()
    ensures { LookUpsShow }
{}

/// As long as the machine holds a suspension of the whole target and no Suspend waits for its reply, over a target that
/// obeys JDWP, lives and wasn't left: a look-up for a request or a composite in hand, for which nothing was written so
/// far, has the value that it has in the target's world as that stands; one that has failed has none there (DAP
/// specification, StackTrace, Scopes, Variables, Evaluate and ExceptionInfo requests; JDWP, Detailed Command
/// Information; JDWP, Event command set, Composite).
pub fn a_look_up_beside_a_held_target_shows_its_world()
    ensures { ShowsAsItStands }
{}

/// No composite of a target that obeys JDWP suspends one thread alone: neither one that came, nor one in flight or
/// unread (JDWP, Event command set, Composite; JDWP, Constants, SuspendPolicy).
pub fn no_composite_suspends_one_thread_alone()
    ensures { NoneSuspendsOne }
{}
