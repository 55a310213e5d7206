//! What the summary of a log is of. The law is a contract over all sessions.
ghost use Rattle.summary_laws.specs.Laws.{SummedUp};

/// The summary of the log of a session that is done counts the requests that were heard, and the responses, the events
/// and the stops that were told, and sums up the values that were shown for variables named `n`; where the client's
/// link did not fail, and it can read each message (DAP specification, Base Protocol, ProtocolMessage).
pub fn a_summary_is_of_what_was_said()
    ensures { SummedUp }
{}
