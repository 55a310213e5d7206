//! What rules keep. Each law is a contract over all rules.
ghost use Rattle.break_rules.specs.Laws.{Judges, LogsPlain, ReadsConditions, ReadsHits, ReadsTemplates};

/// A condition is judged just where it can be.
pub fn a_condition_is_judged_just_where_it_can_be()
    ensures { Judges }
{}

/// A log message without an expression says what stands there.
pub fn a_message_without_an_expression_logs_itself()
    ensures { LogsPlain }
{}

/// A text is one condition at most, and it is read as that.
pub fn a_condition_is_read_as_it_is_written()
    ensures { ReadsConditions }
{}

/// A text is one hit condition at most, and it is read as that.
pub fn a_hit_condition_is_read_as_it_is_written()
    ensures { ReadsHits }
{}

/// A text is one log message at most, and it is read as that.
pub fn a_log_message_is_read_as_it_is_written()
    ensures { ReadsTemplates }
{}
