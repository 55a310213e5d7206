//! What holds of sessions in which nothing goes wrong. Each law is the contract of a function that does nothing.

ghost use Rattle.clean_sessions.specs.Laws.{CleanIsDone, CleanStatus, EachHasItsPremise};
ghost use Rattle.clean_sessions.specs.Needed.{AreNeeded, HoldAtFirst};

/// An ending comes only where what it names went wrong. The session is left where the client's stream ends, and ends
/// with a link where that fails. It ends for the client's bytes where these aren't frames of messages, up to a
/// `disconnect`. It ends for the target's where what stands next in them is neither a reply to a command that has none,
/// which reads as its answer, nor a composite that reads; or where a composite that was kept doesn't read, or one
/// suspends one thread alone. It ends by a refusal where an error that isn't tolerated stands next. And it ends by a
/// limit where more items wait than may, as many waits in a row as may be were in vain, or as many turns as may be were
/// taken (DAP overview, Base protocol; JDWP, JDWP Start Up; JDWP, JDWP Packets; JDWP, Event command set, Composite;
/// JDWP, Constants, SuspendPolicy).
pub fn each_ending_breaks_its_premise()
    ensures { EachHasItsPremise }
{}

/// Where nothing of this goes wrong, a session that has ended is done: it has told the success of a `disconnect` last,
/// and all requests are answered, one by one, in order. Or memory ran out. So the program's status is 0 or 70 (DAP
/// specification, Disconnect request).
pub fn a_clean_session_is_done()
    ensures ending { CleanIsDone }
    ensures status { CleanStatus }
{}

/// What is asked of the client's bytes and of its stream, of the links, of what stands next in the target's bytes, of
/// waits in a row, and of turns can't be left out: for each of these there is a session in which it alone goes wrong,
/// and which is neither done nor out of memory. And nothing has gone wrong where a session begins (DAP overview, Base
/// protocol; JDWP, JDWP Start Up).
pub fn premises_are_needed()
    ensures needed { AreNeeded }
    ensures first { HoldAtFirst }
{}
