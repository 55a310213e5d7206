//! What holds of legal logs, and of verdicts. Each law is the contract of a function that does nothing.

ghost use Rattle.legal_logs.specs.Laws.{AreRuns, AreRunsThen, FrontsOfFronts, NoneIsBoth};

/// What some reading goes through, some reading goes through as far as any entry of it.
pub fn a_front_of_a_front_is_one()
    ensures { FrontsOfFronts }
{}

/// No log is both legal and broken.
pub fn no_log_is_both()
    ensures { NoneIsBoth }
{}

/// The messages of each reading of a log are a run of the translation machine, while it goes on and once it has ended.
/// So what holds of the machine's runs holds of the messages of every legal log.
pub fn messages_of_a_legal_log_are_a_run()
    ensures going { AreRuns }
    ensures ended { AreRunsThen }
{}
