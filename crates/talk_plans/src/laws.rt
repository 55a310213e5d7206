//! What ties a talk to the machine. Each law is the contract of a function that does nothing.

ghost use Rattle.talk_plans.specs.Laws.{ItemIsDue, ReadingIsDue, TalkIsDue};

/// With an item in hand, the machine does what the talk about the item has next, where no composite is to be read (DAP
/// specification, Requests; JDWP, Event command set, Composite).
pub fn what_a_talk_has_next_is_due()
    ensures { TalkIsDue }
{}

/// With no item in hand, the machine begins the first item whose turn it is, and waits where there is none (DAP
/// specification, Base Protocol, Request).
pub fn the_next_item_is_due()
    ensures { ItemIsDue }
{}

/// While a composite can be read, the machine waits for it to be read (JDWP, Event command set, Composite).
pub fn a_composite_is_read_first()
    ensures { ReadingIsDue }
{}
