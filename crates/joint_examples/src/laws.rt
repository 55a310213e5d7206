//! What a target may choose. Each law is the contract of a function that does nothing, and is worked out by
//! computation.

ghost use Rattle.joint_examples.specs.Choices.{AnyIds, AnyNumbers, AnyOrder, AnyRun, ToldBeside, Unasked};

/// Events are told while all threads are suspended: a second thread comes to a breakpoint, and is told alone, under
/// ALL; or with the start of the first, in the other order than the requests have, under the greatest of their
/// policies (JDWP, Event command set, Composite; JDWP, VirtualMachine command set, Suspend).
pub fn events_are_told_beside_a_stop()
    ensures { ToldBeside }
{}

/// A refusal has another number than the usual one: of the source file of a class that has none, of a slot, and of a
/// breakpoint in a class that isn't there; and of such a source file even that of a thread that isn't alive (JDWP,
/// Error Constants).
pub fn refusals_have_any_number()
    ensures { AnyNumbers }
{}

/// An event request gets the greatest id, though the least is free, and one that events in flight name (JDWP,
/// EventRequest command set, Set).
pub fn ids_are_chosen_at_will()
    ensures { AnyIds }
{}

/// Of two questions that wait the second is served before the first, as well as the first before the second (JDWP, JDWP
/// Packets).
pub fn commands_are_served_in_any_order()
    ensures { AnyOrder }
{}

/// While nothing is suspended a thread ends, another begins, frames come and go, an object is made, and a class is
/// prepared that no event request watches, all at once (JDWP, VirtualMachine command set, Resume).
pub fn a_target_runs_as_it_will()
    ensures { AnyRun }
{}

/// A start is told unasked, more than once, in a thread that isn't there, under ALL and under NONE; an end is told
/// again by a target that has ended; and a target ends without a word (JDWP, Event command set, Composite).
pub fn a_start_and_an_end_are_told_unasked()
    ensures { Unasked }
{}
