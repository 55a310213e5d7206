//! What each look-up shows of a target's world. Each law is the contract of a function that does nothing.

ghost use Rattle.shown_worlds.specs.Failures.{Fails, FailsByRows, FailsJust};
ghost use Rattle.shown_worlds.specs.Laws.{ShowsChildren, ShowsFrames, ShowsThreads, ShowsThrown};
ghost use Rattle.shown_worlds.specs.Laws.{ShowsValues, ShowsWrites};

/// The response to `threads` shows each thread that is alive in the target's world, with its name, in the order of
/// the world (DAP specification, Threads request; JDWP, VirtualMachine command set, AllThreads; JDWP,
/// ThreadReference command set, Name).
pub fn threads_are_those_of_the_world()
    ensures { ShowsThreads }
{}

/// What was thrown is told by the name of its class in the target's world: null is named so by `exceptionInfo`, and
/// has no name in the event `stopped` (DAP specification, ExceptionInfo request; Events, Stopped; JDWP,
/// ObjectReference command set, ReferenceType).
pub fn what_was_thrown_is_named_as_in_the_world()
    ensures { ShowsThrown }
{}

/// The response to `stackTrace` shows a page of the frames that the thread has in the target's world, the innermost
/// first: each with the name of its class and of its method, and at the line to which its code index belongs, in
/// the source of its class; of a thread that has ended or runs it shows nothing (DAP specification, StackTrace
/// request; JDWP, ThreadReference command set, Frames; JDWP, Method command set, LineTable).
pub fn stack_traces_show_the_frames_of_the_world()
    ensures { ShowsFrames }
{}

/// The response to `variables` shows a page of the children that a container has in the target's world, each with
/// its value. A frame has its receiver, unless the method is static, and then the variables that are in scope where
/// it stands, in order of their slots. An object has the fields of its class that aren't static, and then those of
/// each class above it; one whose name stands before it is shown with its class. An array has its elements (DAP
/// specification, Variables request; JDWP, Method command set, VariableTable; JDWP, ReferenceType command set,
/// Fields; JDWP, ClassType command set, Superclass; JDWP, commands GetValues of the command sets StackFrame,
/// ObjectReference and ArrayReference).
pub fn variables_show_the_children_of_the_world()
    ensures { ShowsChildren }
{}

/// The response to `evaluate` shows the value that the expression has in the target's world. A name is that of a
/// variable in scope, or else of the first field of the receiver that is called so, from its class upwards; a step
/// goes to such a field of an object, to the length of an array or to the element at an index. Where there is no
/// such name or no such element, the response says so (DAP specification, Evaluate request; Java Language
/// Specification, Field Access Expressions, Array Access Expressions and Array Members; Java Language
/// Specification, Field Declarations, Hiding).
pub fn evaluate_shows_the_value_in_the_world()
    ensures { ShowsValues }
{}

/// What `setVariable` writes is the value that the text is, by the kind of the place where the first child of that
/// name stands in the target's world: a slot of the frame, a field of the object, or an element of the array. Where
/// there is no such child, or where the text is no value of the kind, nothing is written, and the response says so
/// (DAP specification, SetVariable request; JDWP, commands SetValues of the command sets StackFrame,
/// ObjectReference and ArrayReference).
pub fn set_variable_writes_to_the_child_in_the_world()
    ensures { ShowsWrites }
{}

/// Where the target's world lives and what was replied is what it replies, `threads` meets no error. `stackTrace` meets
/// one where the thread has ended, with the code 10, or where it runs, with the code 99 (JDWP, Error Constants,
/// INVALID_THREAD; JDWP, ThreadReference command set, Frames and FrameCount).
pub fn frames_fail_where_the_thread_has_ended_or_runs()
    ensures { Fails }
{}

/// The errors of the other look-ups, where besides what is known of classes is so in that world. An object that isn't
/// there is refused with the code 20, and one of another kind with 99; a frame is refused as by `stackTrace`. `variables`
/// meets the error of its container, or of a frame's receiver; or 99 where a child of the page has no value in its place;
/// or that of a value that can't be shown. `evaluate` meets the error of its head, or that of the value at which its
/// steps stop. `setVariable` meets that of the container. `exceptionInfo` meets 20 where what was thrown isn't there; the
/// event `stopped` is told without (JDWP, Error Constants, INVALID_OBJECT; JDWP, commands GetValues of the command sets
/// StackFrame, ObjectReference and ArrayReference; JDWP, StackFrame command set, ThisObject).
pub fn look_ups_fail_by_what_is_not_there()
    ensures { FailsByRows }
{}

/// A page of children has such errors just where `variables` shows none of it: by its container, by a child without a
/// value, or by a value that isn't shown (DAP specification, Variables request).
pub fn children_have_errors_just_where_none_are_shown()
    ensures { FailsJust }
{}
