//! What holds of every session, by the bytes of its two sides. Each law is the contract of a function that does
//! nothing.

ghost use Rattle.session_laws.specs.Laws.{Alike, Dones, Endings, LastWordsSaid, Replies, Requests, ResponsesToTheEnd};
ghost use Rattle.session_laws.specs.Laws.{AreRuns, LeftToRunOn, SidesAreSent, TerminatedOnce, Turns, Waitings};

/// The messages of a session are a run of the translation machine, which knows no bytes.
pub fn messages_are_a_run()
    ensures { AreRuns }
{}

/// Each turn of a session is one entry of its log that was waited for, and no more are taken than may be. Once a
/// session has ended, a send that failed may leave one more: that of the message that was due, and that of a last word.
pub fn turns_are_waits()
    ensures { Turns }
{}

/// After an ending nothing is said but the ending's last words, in their order, up to the first that can't be sent.
pub fn last_words_are_those_of_the_ending()
    ensures { LastWordsSaid }
{}

/// A target that is attached is left to run on where the session ends by its client, by a limit, or by a command that
/// the target refused. Once no last word is left, the last that went out behind the cause is a Dispose, whole, with the
/// next id. Only a send that failed behind the cause is in its place: that of the Dispose; or, where the ending is told
/// to the client, one of what is told. After another ending, or where it isn't attached, the target is sent nothing
/// behind the cause (JDWP, VirtualMachine command set, Dispose; JDWP, JDWP Packets, command packet).
pub fn a_target_is_left_to_run_on()
    ensures { LeftToRunOn }
{}

/// That nothing more comes of the target is told at most once in a session. Where the target is lost, refused a command
/// or was silent for too long, it is told just once, by a message of the run or as a last word, once none is left;
/// unless the client's link has failed (DAP specification, Events, Terminated).
pub fn terminated_is_told_once()
    ensures { TerminatedOnce }
{}

/// What the client is sent are the frames of what it is told, numbered 1, 2, 3, and so on; what the target is sent are
/// its handshake, and the packets of the commands, with the ids 1, 2, 3, and so on; in order, with nothing between
/// them, and then the last words to that side. A body is spelled with sizes of ids that serve where it is sent, all of
/// which give the same. Behind them stands less than the whole of one more only where that side's link failed (DAP
/// overview, Base protocol; DAP specification, Base Protocol, ProtocolMessage, `seq`; JDWP, JDWP Start Up; JDWP, JDWP
/// Packets, command packet).
pub fn each_side_is_sent_its_messages()
    ensures { SidesAreSent }
{}

/// The requests that are heard are those of the client's bytes, frame by frame; what a client's frame says that is no
/// request is passed over, and after a `disconnect` nothing is heard (DAP overview, Base protocol; DAP specification,
/// Base Protocol, Request).
pub fn requests_are_what_the_client_says()
    ensures { Requests }
{}

/// What came from the target are its handshake, once it came, and packets, with nothing between them, up to the bytes
/// that aren't cut. In order they are the replies that are heard, and the composites that come or are kept. Each reply
/// is to the command with its id, which had none yet, and is the answer or the error that its body and error say. The
/// commands without a reply are those that the machine has pending, no two under one id, and sixteen at most. What was
/// kept is read later, in order, or still waits; it is dropped only where the target has gone. The handshake is taken
/// up only where the bytes begin with it; each end of the target's stream is taken up, but one that has just come
/// (JDWP, JDWP Start Up; JDWP, JDWP Packets, reply packet; JDWP, Event command set, Composite).
pub fn replies_are_what_the_target_says()
    ensures { Replies }
{}

/// A session that has ended by the end of the client's stream, or by the failure of a link, has this last in its log,
/// but for last words; one that was idle too long the limit's waits in vain, side by side; and one that took too many
/// turns took as many as the limit says. Want of memory is no cause.
pub fn endings_show_in_the_log()
    ensures { Endings }
{}

/// A session that is done has told the success of a `disconnect` last. That is the last request, and all requests are
/// answered, one by one, in order (DAP specification, Disconnect request).
pub fn done_is_a_disconnect_that_succeeded()
    ensures { Dones }
{}

/// All responses, those among the last words included, answer the first of the requests that were heard, one each, in
/// order, each with its request's `seq` and command. Where an ending is told to the client, all requests are answered
/// once no last word is left, unless the client's link has failed (DAP specification, Base Protocol, Response).
pub fn responses_answer_the_requests_to_the_end()
    ensures { ResponsesToTheEnd }
{}

/// At each wait of a session, also inside it, nothing is due; and where nothing is pending, no command and no
/// handshake, all requests that were heard are answered, one by one, in order (DAP specification, Base Protocol,
/// Response).
pub fn requests_are_answered_where_a_session_waits()
    ensures { Waitings }
{}

/// The body of an answer to a pending command reads the same with all sizes of ids that serve: the target's, once it
/// has replied them, and any before (JDWP, VirtualMachine command set, IDSizes).
pub fn answers_read_alike_with_sizes_that_serve()
    ensures { Alike }
{}
