//! What the definitions of a log's text and of its reading come to.
ghost use Rattle.std.specs.Prelude.{◌≡◌, List, ℕ, Ok};
ghost use Rattle.script_text.specs.declared.log.SessionLog.{SessionLog};
ghost use Rattle.script_text.specs.Orderly.{HasUsualLimits, IsOrderly};
ghost use Rattle.script_text.specs.Reading.{reading_of};
ghost use Rattle.script_text.specs.Texts.{log_text, old_text};

/// The text that is printed of a log is read as that log, where it keeps the order: its limits can be told, what came
/// or went out is one or more bytes, waits in vain that follow each other are one run, a side ends or fails at most
/// once, and nothing comes from it afterwards.
pub fn a_printed_log_is_read_again()
    ensures { (log : SessionLog) → IsOrderly log → reading_of (log_text log) ≡ Ok log }
{}

/// A text of version 1, with a line for each entry of a log, is read as that log, where it keeps the order and has the
/// limits of version 1.
pub fn an_old_text_is_read_as_its_log()
    ensures { (log : SessionLog) → IsOrderly log → HasUsualLimits log → reading_of (old_text log) ≡ Ok log }
{}

/// No other log is read: what is read keeps that order.
pub fn a_log_that_was_read_keeps_the_order()
    ensures { (text : List ℕ) (log : SessionLog) → reading_of text ≡ Ok log → IsOrderly log }
{}
