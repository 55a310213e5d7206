//! What a script determines. Each law is the contract of a function that does nothing.

ghost use Rattle.script_courses.specs.Laws.{OneCourse, OneLog};

/// A script has one course. Two sessions of it in which the bridge did the same, one thing after the other, have the
/// same log and stand at the same place: to hear, to send bytes to a side, and to reach the target alone is all that
/// the bridge can do, and the script says what comes of each.
pub fn a_script_has_one_course()
    ensures { OneCourse }
{}

/// Two sessions of a script hear the same where the bridge sends the same bytes to the same sides, at the same places
/// of the log. Here both sides were reached.
pub fn what_is_heard_is_determined_by_what_is_sent()
    ensures { OneLog }
{}
