//! What becomes of each composite that suspends the whole target. Each law is the contract of a function that does
//! nothing.

ghost use Rattle.composite_laws.specs.Dealing.{DealsWithAll, DealsWithEach};

/// Each composite that suspends the whole target, and doesn't tell of its end, is dealt with once, before the next
/// is at its turn. Where by one of its events the target stops, one event `stopped` is told; with a stop in hand
/// one Resume undoes the suspension behind it. Else it is held as the target's entry, or one Resume undoes the
/// suspension. By an event the target stops where, under an event request that is installed, a thread came to a
/// place where a breakpoint stands, threw something, or ended its step. `stopped` is told for nothing else but a
/// `pause`, and no other such Resume is sent. At rest, once the session is attached, each composite that came was
/// at its turn and is dealt with (JDWP, Event command set, Composite; DAP specification, Events, Stopped; JDWP,
/// VirtualMachine command set, Resume).
pub fn each_composite_is_dealt_with()
    ensures each { DealsWithEach }
    ensures all { DealsWithAll }
{}
