//! What hits come to in a target's world. The law is the contract of a function that does nothing.

ghost use Rattle.judged_worlds.specs.Laws.{JudgesHits};

/// What hits of breakpoints come to is so in the target's world. A breakpoint is passed where its condition holds in
/// the innermost frame of the thread that came to it; one that can't be judged holds. What is passed counts, and fires
/// where its hit condition is met by all passes so far. What fires logs its message, where it has one, with the
/// values that its expressions have in that frame, or why they have none; else it stops its thread (DAP specification,
/// Types, SourceBreakpoint, condition, hitCondition and logMessage; JDWP, ThreadReference command set, Frames).
pub fn what_hits_come_to_is_so_in_the_world()
    ensures { JudgesHits }
{}
