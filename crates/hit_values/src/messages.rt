//! What a breakpoint logs: its message, with the values of the expressions in it (DAP specification, Types,
//! SourceBreakpoint, logMessage; Events, Output).
ghost use Rattle.std.specs.Prelude.{◌≡◌, ◌++◌, ◌∷◌, [], IfOk, List as Pieces, OnOk, codes, filter, map, option_copied};
ghost use Rattle.break_rules.specs.declared.rule.Piece.{Piece as APiece};
ghost use Rattle.break_rules.specs.Rendering.{paths_in};
ghost use Rattle.dap_messages.specs.Failures.{message_of};
ghost use Rattle.machine_model.specs.Judging.{log_plan, logged_with, logs, path_text, said_as, stops, template_plan};
ghost use Rattle.machine_model.specs.Plans.{each, made_with, need};
ghost use Rattle.look_ups.specs.Needs.{need_of, need_with, seen_by};

use crate::paths::path_text;
use crate::rules::log_of;
use break_rules::{Piece, Template, render_log};
use dap_messages::{Failure, message_of};
use jdwp_values::ThreadId;
use look_ups::{Need, Sight, beside_others};
use machine_model::Strike;
use rule_tables::RuleTable;
use std::alloc::Global;
use std::collections::VecDeque;
use wire_core::{List, NoMemory, Text};

// Whether a breakpoint logs, and doesn't stop.
fn logs(rules: &RuleTable, strike: Strike) -> bool
    ensures { result ≡ logs rules.now strike }
{
    match log_of(rules, strike.entry.id) {
        None => false,
        Some(_) => true,
    }
}

fn add_logging(
    rules: &RuleTable,
    strike: Strike,
    logging: &mut List<Strike>,
) -> Result<(), NoMemory>
    ensures { OnOk result (logging.new ≡ logging.old ++ filter (logs rules.now) (strike ∷ [])) }
{
    if logs(rules, strike) {
        logging.push(strike)?;
    }
    Ok(())
}

/// Those that log, in their order.
pub(crate) fn logging(
    alloc: Global,
    rules: &RuleTable,
    fired: &[Strike],
) -> Result<List<Strike>, NoMemory>
    ensures { IfOk result (λ logging. logging ≡ filter (logs rules.now) fired.now) }
{
    let mut logging = List::new(alloc);
    for strike in fired {
        add_logging(rules, *strike, &mut logging)?;
    }
    Ok(logging)
}

fn add_stopping(
    rules: &RuleTable,
    strike: Strike,
    stopping: &mut List<Strike>,
) -> Result<(), NoMemory>
    ensures { OnOk result (stopping.new ≡ stopping.old ++ filter (stops rules.now) (strike ∷ [])) }
{
    if !logs(rules, strike) {
        stopping.push(strike)?;
    }
    Ok(())
}

/// Those that stop, in their order.
pub(crate) fn stopping(
    alloc: Global,
    rules: &RuleTable,
    fired: &[Strike],
) -> Result<List<Strike>, NoMemory>
    ensures { IfOk result (λ stopping. stopping ≡ filter (stops rules.now) fired.now) }
{
    let mut stopping = List::new(alloc);
    for strike in fired {
        add_stopping(rules, *strike, &mut stopping)?;
    }
    Ok(stopping)
}

// The message of a failure between angle brackets.
fn failure_said(alloc: Global, code: u8) -> Result<Text, NoMemory>
    ensures { IfOk result (λ text. text ≡ codes "<" ++ message_of code ++ codes ">") }
{
    let mut said = String::from_str(alloc, "<")?;
    said.push_str(message_of(code))?;
    said.push_str(">")?;
    Ok(Text::from_string(said))
}

// What can't be had is shown by its failure.
fn said_as(alloc: Global, taken: Result<Text, Failure>) -> Result<Text, NoMemory>
    ensures { IfOk result (λ text. text ≡ said_as taken) }
{
    match taken {
        Ok(text) => Ok(text),
        Err(failure) => failure_said(alloc, failure.code),
    }
}

fn all_said(
    alloc: Global,
    mut taken: VecDeque<Result<Text, Failure>>,
) -> Result<List<Text>, NoMemory>
    ensures { IfOk result (λ said. said ≡ map said_as taken.items) }
{
    let mut said = List::new(alloc);
    while let Some(text) = taken.pop_front() {
        said.push(said_as(alloc, text)?)?;
    }
    Ok(said)
}

// The message, and a newline behind it.
fn logged_with(
    alloc: Global,
    template: &Template,
    taken: VecDeque<Result<Text, Failure>>,
) -> Result<Text, NoMemory>
    ensures { IfOk result (λ text. text ≡ logged_with template.now taken.items) }
{
    let said = all_said(alloc, taken)?;
    let message = render_log(alloc, template, &said)?;
    let mut text = String::from_str(alloc, message.as_str())?;
    text.push_str("\n")?;
    Ok(Text::from_string(text))
}

// A piece that is an expression is looked up, before those that are.
fn beside_texts(
    alloc: Global,
    sight: Sight<'_>,
    thread: ThreadId,
    piece: &Piece,
    found: Need<VecDeque<Result<Text, Failure>>>,
) -> Result<Need<VecDeque<Result<Text, Failure>>>, NoMemory>
    ensures { IfOk result (λ all. (others : Pieces APiece)
        → need_with (λ texts. texts.items) found
        ≡ need (seen_by sight.entry) (each (path_text thread) (paths_in others))
        → need_with (λ texts. texts.items) all
        ≡ need (seen_by sight.entry) (each (path_text thread) (paths_in (piece.now ∷ others)))) }
{
    match piece {
        Piece::Plain(_) => Ok(found),
        Piece::Path(expression) => {
            let text = path_text(alloc, sight, thread, expression)?;
            let all = beside_others(text, found)?;
            Ok(all)
        }
    }
}

// The values of the expressions among some pieces, all side by side.
fn texts_need(
    alloc: Global,
    sight: Sight<'_>,
    thread: ThreadId,
    pieces: &[Piece],
) -> Result<Need<VecDeque<Result<Text, Failure>>>, NoMemory>
    ensures { IfOk result (λ found. need_with (λ texts. texts.items) found
        ≡ need (seen_by sight.entry) (each (path_text thread) (paths_in pieces.now))) }
{
    let mut found = Need::Has(VecDeque::new(alloc));
    let mut place = pieces.len();
    while place > 0 {
        place -= 1;
        found = beside_texts(alloc, sight, thread, &pieces[place], found)?;
    }
    Ok(found)
}

// The text of a message.
#[tactic(auto, using(machine_model::proofs::PlanIds::need_made))]
fn message_need(
    alloc: Global,
    sight: Sight<'_>,
    thread: ThreadId,
    template: &Template,
) -> Result<Need<Text>, NoMemory>
    ensures { IfOk result (λ found. need_of found ≡ need (seen_by sight.entry)
        (made_with (logged_with template.now) (each (path_text thread) (paths_in template.now.pieces)))) }
{
    match texts_need(alloc, sight, thread, template.pieces.as_slice())? {
        Need::Has(taken) => Ok(Need::Has(logged_with(alloc, template, taken)?)),
        Need::Fails { place, code } => Ok(Need::Fails { place, code }),
        Need::Lacks { first, others } => Ok(Need::Lacks { first, others }),
    }
}

// The text of a message, if there is one.
#[tactic(auto, unfolding(machine_model::specs::Plans::need))]
fn template_need(
    alloc: Global,
    sight: Sight<'_>,
    thread: ThreadId,
    template: Option<&Template>,
) -> Result<Need<Text>, NoMemory>
    ensures { IfOk result (λ found. need_of found
        ≡ need (seen_by sight.entry) (template_plan thread (option_copied template.entry))) }
{
    match template {
        None => Ok(Need::Has(Text::from_str(alloc, "")?)),
        Some(template) => message_need(alloc, sight, thread, template),
    }
}

// What a breakpoint logs that a thread came to.
fn log_need(
    alloc: Global,
    sight: Sight<'_>,
    rules: &RuleTable,
    strike: Strike,
) -> Result<Need<Text>, NoMemory>
    ensures { IfOk result (λ found. need_of found ≡ need (seen_by sight.entry) (log_plan rules.now strike)) }
{
    template_need(alloc, sight, strike.thread, log_of(rules, strike.entry.id))
}

/// What each of them logs, all side by side. The time is that of the messages, and of the rules for each.
pub(crate) fn logs_need(
    alloc: Global,
    sight: Sight<'_>,
    rules: &RuleTable,
    strikes: &[Strike],
) -> Result<Need<VecDeque<Text>>, NoMemory>
    ensures { IfOk result (λ found. need_with (λ texts. texts.items) found
        ≡ need (seen_by sight.entry) (each (log_plan rules.now) strikes.now)) }
{
    let mut found = Need::Has(VecDeque::new(alloc));
    let mut place = strikes.len();
    while place > 0 {
        place -= 1;
        found = beside_others(log_need(alloc, sight, rules, strikes[place])?, found)?;
    }
    Ok(found)
}
