//! What becomes of a look-up as more is heard. Each law is the contract of a function that does nothing.

ghost use Rattle.lacking_laws.specs.Lacking.{LacksOn, RepliesLead, StaysFailed, StaysFound};

/// What a look-up lacks it lacks on until it is heard: the question has a reply by then, or its fact is known. It isn't
/// so only once the look-up has failed (JDWP, Detailed Command Information).
pub fn what_is_lacking_stays_so_until_it_is_heard()
    ensures { LacksOn }
{}

/// A look-up that has failed has failed for good, whatever is heard then, and lacks nothing more; an error to what was
/// asked before may decide in place of the one that came first (JDWP, Error Constants).
pub fn what_has_failed_lacks_nothing_more()
    ensures { StaysFailed }
{}

/// What a look-up has found stays, or gives way to an error alone: it finds nothing else by more that is heard.
pub fn what_was_found_stays()
    ensures { StaysFound }
{}

/// A reply to the item in hand, and a question that is asked for it, take back nothing that was heard: so the laws
/// beside this one hold from each to the next, as long as what is known of all else stays.
pub fn a_reply_takes_nothing_back()
    ensures { RepliesLead }
{}
