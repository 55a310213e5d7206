//! What holds of every ending, by its first cause. Each law is the contract of a function that does nothing.

ghost use Rattle.session_causes.specs.Laws.{FailedIsLost, FirstDecides, ForMemory, OneDecides, OutsideLast};
ghost use Rattle.session_causes.specs.Laws.{ShutIsLeft};

/// The first cause decides: at each place that a session has left, no cause stood. Neither was the machine done, nor
/// did more items wait than may; what was read had no fault, no reply refused what is essential, and where the session
/// waited no limit was reached (DAP overview, Base protocol; DAP specification, Disconnect request; JDWP, JDWP Start
/// Up; JDWP, JDWP Packets; JDWP, Constants, SuspendPolicy). What comes from the outside, or fails in a send, is no such
/// cause.
pub fn a_session_passes_no_cause()
    ensures { FirstDecides }
{}

/// At one place one cause alone stands, with one ending, one offset and one id: only one side has anything to take up,
/// and what stands at its front is one thing. What comes from the outside, or fails in a send, ends a session only
/// where no other cause stands (DAP overview, Base protocol; JDWP, JDWP Start Up; JDWP, JDWP Packets; JDWP, Event
/// command set, Composite).
pub fn one_cause_stands_at_a_place()
    ensures one { OneDecides }
    ensures outside { OutsideLast }
{}

/// Where the end of the client's stream is in the log, the session was left, or memory ran out behind it. Where the
/// failure of a link is, the session ended by that side's link, or memory ran out behind it; but for a failure in the
/// last words, which changes no ending (DAP overview, Base protocol; JDWP, JDWP Start Up).
pub fn what_ended_in_the_log_is_what_ended_the_session()
    ensures shut { ShutIsLeft }
    ensures failed { FailedIsLost }
{}

/// An ending for memory cuts a session off. What came and went is that of a session that goes on, and each side was
/// sent its messages and nothing else; or of one that has ended for another cause, and each side was sent its messages
/// and some of the last words to it. Less than the whole of one more stands behind them only where that side's link
/// failed (DAP overview, Base protocol; JDWP, JDWP Packets).
pub fn an_ending_for_memory_cuts_a_session_off()
    ensures { ForMemory }
{}
