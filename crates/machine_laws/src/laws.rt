//! What holds of every run of the machine, and of every look-up. Each law is the contract of a function that does
//! nothing.

ghost use Rattle.machine_laws.specs.BreakpointLists.{Lists};
ghost use Rattle.machine_laws.specs.Changing.{Changes};
ghost use Rattle.machine_laws.specs.ClientStops.{ShowsStops};
ghost use Rattle.machine_laws.specs.NamedThreads.{AsksNamed, StepsNamed};
ghost use Rattle.machine_laws.specs.Pausing.{Pauses, TellsPauses};
ghost use Rattle.machine_laws.specs.ReceiverQuestions.{NamesOthers, SparesReceivers};
ghost use Rattle.machine_laws.specs.Settings.{Sets};
ghost use Rattle.machine_laws.specs.StepRequests.{FailsRefused, StepsAsAsked};
ghost use Rattle.machine_laws.specs.ThreadEvents.{TellsInHand, TellsThreads};
ghost use Rattle.machine_laws.specs.ThreadNumbers.{KeepsNumbers};
ghost use Rattle.machine_laws.specs.ThrownExceptions.{ShowsThrown};
ghost use Rattle.machine_laws.specs.VariableWrites.{SetsByWrites, WritesInStops};
ghost use Rattle.machine_model.specs.Binding.{Binds};
ghost use Rattle.machine_model.specs.BreakpointEvents.{TellsAll, TellsVerified};
ghost use Rattle.machine_model.specs.EventRequests.{AsReplied, Once, Settles, Stands};
ghost use Rattle.machine_model.specs.Events.{Events};
ghost use Rattle.machine_model.specs.Harmless.{Harmless};
ghost use Rattle.machine_model.specs.Ids.{Ids};
ghost use Rattle.machine_model.specs.Knowing.{Knows};
ghost use Rattle.machine_model.specs.Leaving.{Disconnects, Farewells, Greetings};
ghost use Rattle.machine_model.specs.Noting.{Notes};
ghost use Rattle.machine_model.specs.Outcomes.{Outcomes};
ghost use Rattle.machine_model.specs.Pending.{Pends, Windows};
ghost use Rattle.machine_model.specs.PlanLaws.{Errors, Wants, Worlds};
ghost use Rattle.machine_model.specs.Questions.{AnyOrder, Questions};
ghost use Rattle.machine_model.specs.ReferenceNumbers.{NumbersReferences};
ghost use Rattle.machine_model.specs.Responses.{Responses, Rests};
ghost use Rattle.machine_model.specs.Spelling.{Spells};
ghost use Rattle.machine_model.specs.Steps.{ClearsSteps, StepsAtRest};
ghost use Rattle.machine_model.specs.Stopping.{TellsStops, UndoesSurplus};
ghost use Rattle.machine_model.specs.Suspending.{BindsFirst, RunsOn};
ghost use Rattle.machine_model.specs.Waiting.{Waits};

/// The responses answer the first of the requests, one each, in order; at rest all requests are answered (DAP
/// specification, Base Protocol, Response).
pub fn requests_are_answered_in_order()
    ensures { Responses }
{}

/// At rest no item is in hand, and none waits but composites that came before an `attach`.
pub fn nothing_waits_at_rest()
    ensures { Rests }
{}

/// Each response has the outcome that its row leads to: the outcome of the row itself, or what its look-ups and
/// choices came to by the replies since its turn, each question asked once; or its target ended since then (DAP
/// specification, Base Protocol, Response; DAP specification, Requests).
pub fn outcomes_are_what_rows_lead_to()
    ensures { Outcomes }
{}

/// `initialized` is told behind the success of an `attach`, and nowhere else; at rest each such success was followed
/// by it, unless the target ended between the two, and `terminated` was told where the target is gone (DAP
/// specification, Events).
pub fn events_tell_where_a_session_stands()
    ensures { Events }
{}

/// At rest, once the session is attached, no event request is to be set or cleared, no item is in hand, and none waits
/// (JDWP, EventRequest command set).
pub fn event_requests_are_settled()
    ensures { Settles }
{}

/// As long as there is a target, the event requests that are installed and those that were refused are what the
/// messages say: each installed one under the id that its Set was answered with (JDWP, EventRequest command set, Set
/// and Clear).
pub fn event_requests_stand_as_the_messages_say()
    ensures { Stands }
{}

/// A Set that is sent is of a wish that is wished, isn't installed and wasn't refused since it is wished; a Clear is of
/// a request that is installed and isn't wished. Neither is sent while an effect is in flight (JDWP, EventRequest
/// command set, Set and Clear).
pub fn each_event_request_is_set_once()
    ensures { Once }
{}

/// At rest, once the session is attached, the Set of each wish was sent once and replied to once, and the wish stands
/// as the reply says: installed under the id that was answered, or refused (JDWP, EventRequest command set, Set).
pub fn event_requests_are_as_replied()
    ensures { AsReplied }
{}

/// At rest, once the session is attached, all classes were listed since the last watch was set, and nothing more has
/// to be known of those that are prepared in a watched package. In each whose source is listed, or that a function
/// names, breakpoints are bound at just the places that all that is known of it gives (DAP specification,
/// SetBreakpoints and SetFunctionBreakpoints requests; JDWP, VirtualMachine command set, AllClasses; JDWP,
/// ReferenceType command set, SourceFile and Methods; JDWP, Method command set, LineTable).
pub fn breakpoints_are_bound_by_all_that_is_known()
    ensures { Binds }
{}

/// Before a suspension of the whole target is undone, no event request is to be set or cleared, and breakpoints are bound
/// by all that is known: so in a class that was prepared each breakpoint that is wished is installed or refused (JDWP,
/// Event command set, Composite, ClassPrepare; JDWP, VirtualMachine command set, Resume).
pub fn breakpoints_are_bound_before_the_target_runs_on()
    ensures { BindsFirst }
{}

/// The event `breakpoint` tells of a breakpoint that is verified then, and that the client was not told to be verified
/// before. At rest, once the session is attached, the client was told of each that is verified, by this event or in a
/// response (DAP specification, Events, Breakpoint; DAP specification, SetBreakpoints and SetFunctionBreakpoints
/// requests).
pub fn breakpoints_are_told_once_they_are_verified()
    ensures news { TellsVerified }
    ensures all { TellsAll }
{}

/// The event `stopped` tells of a thread that halted by an event of the composite in hand: it came to a breakpoint,
/// threw something, or ended its step. At some time in the messages, with this composite in hand, the event's request
/// was installed. Then, and where the stop is told, no event request is to be set or cleared, and breakpoints are
/// bound by all that is known. The thread and the reason are told by that event; the text of an exception is what the
/// look-up of its type came to. Else `stopped` is told for a `pause`, with a stop in hand. Where a halt is
/// told in a stop, the Resume that undoes its suspension is due right behind it (DAP specification, Events, Stopped;
/// JDWP, Event command set, Composite; JDWP, VirtualMachine command set, Resume).
pub fn stops_are_told_of_what_stops_the_target()
    ensures told { TellsStops }
    ensures surplus { UndoesSurplus }
{}

/// Until the target is gone, the client knows whether a stop is in hand: `stopped` begins one, and so does the success
/// of `pause`; with the success of `continue` or of a step it is over. That is so wherever no request is in hand without
/// its response, at rest too. And once `configurationDone` has succeeded, the target's entry isn't held (DAP
/// specification, Events, Stopped; DAP specification, Continue, Next, StepIn, StepOut, Pause and ConfigurationDone
/// requests).
pub fn the_client_knows_whether_a_stop_is_in_hand()
    ensures { ShowsStops }
{}

/// Where `stopped` is told for a `pause`, the success of this request was told last. The event names the thread that
/// the request names, which was told to the client by this number. And where a `pause` has succeeded while the client
/// knew of no stop, this event is what it is told next, until the target is gone (DAP specification, Pause request; DAP
/// specification, Events, Stopped).
pub fn a_pause_is_told_of_the_thread_that_it_names()
    ensures answered { Pauses }
    ensures told { TellsPauses }
{}

/// Where a stop is told no step is in flight, and no event request of one is installed. At rest, once the session is
/// attached, that is so as long as a stop is in hand; else an event request of a step is installed only where it is
/// the one in flight (DAP specification, Next, StepIn and StepOut requests; JDWP, EventRequest command set, Set,
/// Step).
pub fn steps_are_over_where_a_stop_is_told()
    ensures cleared { ClearsSteps }
    ensures at_rest { StepsAtRest }
{}

/// Where the Resume that ends a stop goes for `next`, `stepIn` or `stepOut`, the step in flight is the one that this asks
/// for: of the thread that has the number, over calls, into them, or out of the method. Its event request is installed,
/// unless the target refused it. Where the target refused it, the request is answered by a failure, as long as there is
/// a target (DAP specification, Next, StepIn and StepOut requests; JDWP, EventRequest command set, Set, Step).
pub fn the_target_runs_on_with_the_step_that_was_asked_for()
    ensures in_flight { StepsAsAsked }
    ensures refused { FailsRefused }
{}

/// At rest, once the session is attached, each composite that came was at its turn. One suspension of the whole target is
/// held where a stop is in hand, one more where the target's entry is, and no other: so many more composites and
/// Suspends suspended it than Resumes were sent (JDWP, Event command set, Composite; JDWP, VirtualMachine command set,
/// Suspend and Resume).
pub fn the_target_runs_on_at_rest()
    ensures { RunsOn }
{}

/// What is pending was sent and has no reply, also what an item that was given up left; each reply is to a command
/// that is pending then. No question goes beside a command that changes the target, and such a command goes alone. The
/// handshake goes out once, commands only behind both sides of it, and nothing to a target that is gone (JDWP, JDWP
/// Start Up; JDWP, JDWP Packets).
pub fn commands_are_pending_until_they_are_replied_to()
    ensures { Pends }
{}

/// At most sixteen commands are pending.
pub fn at_most_sixteen_commands_are_pending()
    ensures { Windows }
{}

/// Nothing is asked but what the part in front of the item in hand lacked by the replies so far (JDWP, Detailed
/// Command Information).
pub fn nothing_is_asked_but_what_is_lacking()
    ensures { Questions }
{}

/// What the part in front of the item in hand lacks may be asked in any order, each question once, as far as there is
/// room among the sixteen commands that may be pending (JDWP, JDWP Packets).
pub fn questions_go_in_any_order()
    ensures { AnyOrder }
{}

/// No question is asked for the type, the text, the length, the fields or the elements of the object 0, and none for
/// the class above the class 0: such a question may end the target's process. No step of thread 0 is set, which may end
/// it, too. No question is asked for nothing: for no frame, no element, no field or no slot (JDWP, Detailed Command
/// Information).
pub fn nothing_is_asked_of_null()
    ensures { Harmless }
{}

/// Where the machine waits and the window has room, each question that the part in front lacks was asked; and it
/// awaits a reply where anything is lacking.
pub fn all_that_is_lacking_was_asked()
    ensures { Waits }
{}

/// What is known is what the messages say: where the session stands with its target, the two sides of the handshake,
/// the sizes of ids, the facts of classes, whether a watch was set since all classes were listed, which composites wait
/// for their turn, how many suspensions are held and whether a stop is in hand, which breakpoints the client was told to
/// be verified, and whether it was told that the target is gone. `initialized` is told once, before the target is gone;
/// `terminated` once, where it is gone or a composite tells so. A Resume is sent, and `stopped` told, only while a
/// suspension is held; that of a stop only in a stop, and a Suspend only outside one. Threads are numbered 1, 2, 3 as they
/// are first told.
pub fn what_is_known_is_what_messages_say()
    ensures { Knows }
{}

/// A thread that has a number keeps it as long as the session goes on (DAP specification, Types, Thread).
pub fn threads_keep_their_numbers()
    ensures { KeepsNumbers }
{}

/// The event `thread` tells of a thread that started or ended by an event of the composite in hand, as started or as
/// exited, by the number that the thread has. The starts and ends that composites told of are told one by one, in the
/// order in which they came. At rest, once the session is attached, all are (DAP specification, Events, Thread; JDWP,
/// Event command set, Composite, ThreadStart and ThreadDeath).
pub fn starts_and_ends_of_threads_are_told()
    ensures all { TellsThreads }
    ensures in_hand { TellsInHand }
{}

/// A thread is asked for its frames, and how many it has, for a `stackTrace`. A step over, into or out is set of it for
/// a `next`, a `stepIn` or a `stepOut`. This request is the first without a response, and the thread has the number
/// that it names (DAP specification, StackTrace, Next, StepIn and StepOut requests; JDWP, ThreadReference command set,
/// FrameCount and Frames; JDWP, EventRequest command set, Set, Step).
pub fn requests_are_served_for_the_threads_that_they_name()
    ensures frames { AsksNamed }
    ensures steps { StepsNamed }
{}

/// Frames and containers are numbered 1, 2, 3 as they are first told in a stop. A number is told again in its stop alone:
/// once the Resume that ends the stop is sent, no number below the next one is told any more (DAP specification, Overview,
/// Lifetime of Objects References; StackTrace, Scopes and Variables requests).
pub fn references_are_numbered_as_they_are_told()
    ensures { NumbersReferences }
{}

/// Until the target is gone, the client is served with the options that the last `initialize` which has its response
/// asked for; they are written down in the step behind that response (DAP specification, Initialize request).
pub fn client_options_are_those_of_the_last_initialize()
    ensures { Notes }
{}

/// Until the target is gone, and as long as no request is in hand whose response is to come, breakpoints are those that
/// the client set last: a request that succeeds replaces the folders of sources, the breakpoints of its source, the
/// functions, or which exceptions stop, and one that fails changes nothing. Each breakpoint has the next id, and its
/// line is counted as the client said (DAP specification, Initialize, Attach, SetBreakpoints, SetFunctionBreakpoints
/// and SetExceptionBreakpoints requests).
pub fn breakpoints_are_those_that_the_client_set_last()
    ensures { Sets }
{}

/// A `setBreakpoints` or `setFunctionBreakpoints` that succeeds is answered by the breakpoints that it asks for: as
/// many, in its order, each with the next id and at its line. No other response has any. Each is called verified just
/// where one of its locations is installed (DAP specification, SetBreakpoints and SetFunctionBreakpoints requests;
/// Types, Breakpoint).
pub fn responses_list_the_breakpoints_that_are_asked_for()
    ensures { Lists }
{}

/// Each id in a command that is sent was read before it, in an answer of the target's or in a composite, as an id of
/// its kind; only the class 0, which stands for any, needs none. That of a frame was read in the stop in hand, in an
/// answer to the question for the frames of the thread that the command names (JDWP, Detailed Command Information,
/// common data types; JDWP, StackFrame command set).
pub fn commands_use_ids_that_were_read()
    ensures { Ids }
{}

/// The sizes of ids are replied at most once, and a command with ids is sent only after that. Each command that is
/// sent, or is due, has a spelling with the sizes that were replied by then (JDWP, VirtualMachine command set,
/// IDSizes).
pub fn commands_have_a_spelling()
    ensures { Spells }
{}

/// A look-up that has met an error to what it can't do without fails, and lacks nothing more. The first of such errors
/// in order of sending decides.
pub fn the_first_error_decides()
    ensures { Errors }
{}

/// A look-up lacks just what it has come to and has not heard of; one that lacks nothing is done.
pub fn look_ups_lack_what_they_have_come_to()
    ensures { Wants }
{}

/// A look-up that is done by a world's replies has the value that it has in that world, in any order of asking, where
/// what is known of classes is so in that world; one that has failed has none there.
pub fn look_ups_show_the_world()
    ensures { Worlds }
{}

/// A command that leaves the target, Exit or Dispose, is sent at most once, and only while the session is attached. It
/// goes for a `disconnect`, which is the first request without a response: Exit where the client asked that the target
/// be ended, else Dispose (DAP specification, Disconnect request; JDWP, VirtualMachine command set, Exit and Dispose).
pub fn the_target_is_left_once_for_a_disconnect()
    ensures { Farewells }
{}

/// Each response is to the first request without one. A `disconnect` whose response is told while the session is
/// attached has it behind the reply to the command that leaves the target. Else the target is gone by then, or the
/// session was never attached, and no such command was sent (DAP specification, Disconnect request; JDWP,
/// VirtualMachine command set, Exit and Dispose).
pub fn a_disconnect_is_answered_once_the_target_is_left()
    ensures { Disconnects }
{}

/// The handshake goes out for an `attach`, which is the first request without a response (DAP specification, Attach
/// request; JDWP, JDWP Start Up).
pub fn the_handshake_goes_out_for_an_attach()
    ensures { Greetings }
{}

/// Where a command goes that changes the target, apart from its event requests, the first request without a response
/// asks for it: Suspend for `pause`; the Resume that ends a stop for `continue`, `next`, `stepIn` and `stepOut`; that of
/// the entry for `configurationDone`; a write for `setVariable`; Exit or Dispose for `disconnect`. Or it is the Resume
/// that undoes the suspension of the composite in hand, which suspended the whole target (DAP specification, Requests;
/// JDWP, VirtualMachine command set, Suspend and Resume; JDWP, StackFrame, ObjectReference and ArrayReference command
/// sets, SetValues).
pub fn the_target_is_changed_as_the_first_request_asks()
    ensures { Changes }
{}

/// Where a `setVariable` succeeds, a value was written for it: since it is the first request without a response, the
/// last command that changes the target is a write, and the target answered it, and with no error. A value is written
/// in a stop alone, as the client knows it from what it was told (DAP specification, SetVariable request; JDWP,
/// StackFrame, ObjectReference and ArrayReference command sets, SetValues).
pub fn values_are_set_by_writes_in_a_stop()
    ensures written { SetsByWrites }
    ensures in_stop { WritesInStops }
{}

/// Where an `exceptionInfo` succeeds, the thread that has the number which it names threw something in the stop in
/// hand: an event of a composite told so, under an event request that was installed, and no stop is over since then
/// (DAP specification, ExceptionInfo request; JDWP, Event command set, Composite, Exception).
pub fn exception_infos_are_of_threads_that_have_thrown()
    ensures { ShowsThrown }
{}

/// A `setVariable` asks for the receiver of a frame's method only where that is what it names, which is `this`. Any
/// other name stands for the same variable with the receiver beside it and without (DAP specification, SetVariable
/// request; JDWP, StackFrame command set, ThisObject).
pub fn the_receiver_is_asked_for_by_its_name()
    ensures spares { SparesReceivers }
    ensures others { NamesOthers }
{}
