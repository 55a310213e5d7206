//! The rules that the texts of a breakpoint are.
ghost use Rattle.std.specs.Prelude.{◌≡◌, [], IfOk, option_copied};
ghost use Rattle.std.specs.List.{cons_option};
ghost use Rattle.break_rules.specs.Parsing.{condition_of, hit_of, template_of};
ghost use Rattle.machine_model.specs.RuleTexts.{fault_by, fault_in, goes_wrong, if_some, rule_in, ruled_by, ruled_of};
ghost use Rattle.rule_tables.specs.Said.{IsSaid};

use break_rules::{Condition, Hit, RuleFault, Template, parse_condition, parse_hit, parse_log};
use machine_model::{RuleText, Ruled};
use std::alloc::Global;
use wire_core::{NoMemory, Text};

/// What a breakpoint's texts come to: its rules, where it has some and each text is one; or the first of its texts that
/// is none, so that it is never bound.
#[derive(Drop)]
pub struct ReadRules {
    pub fault: Option<RuleText>,
    pub ruled: Option<Ruled>,
}

/// What one text comes to: the rule that it is, where it is there and is one, and whether it is there and is none.
#[derive(Drop)]
pub struct Said<A> {
    pub rule: Option<A>,
    pub wrong: bool,
}

// A text that is there; an empty one counts as missing.
fn if_some(text: &Option<Text>) -> Option<&Text>
    ensures { option_copied result ≡ if_some text.now }
{
    match text {
        Some(text) => match text.as_bytes() {
            [] => None,
            _ => Some(text),
        },
        None => None,
    }
}

fn condition_in(alloc: Global, text: &Option<Text>) -> Result<Said<Condition>, NoMemory>
    ensures { IfOk result (IsSaid condition_of text.now) }
{
    let Some(text) = if_some(text) else {
        return Ok(Said {
            rule: None,
            wrong: false,
        });
    };
    match parse_condition(alloc, text) {
        Ok(rule) => Ok(Said {
            rule: Some(rule),
            wrong: false,
        }),
        Err(RuleFault::NoMemory) => Err(NoMemory),
        Err(RuleFault::Outside) => Ok(Said {
            rule: None,
            wrong: true,
        }),
    }
}

fn hit_in(text: &Option<Text>) -> Said<Hit>
    ensures { IsSaid hit_of text.now result }
{
    let Some(text) = if_some(text) else {
        return Said {
            rule: None,
            wrong: false,
        };
    };
    match parse_hit(text) {
        Ok(rule) => Said {
            rule: Some(rule),
            wrong: false,
        },
        Err(_) => Said {
            rule: None,
            wrong: true,
        },
    }
}

fn log_in(alloc: Global, text: &Option<Text>) -> Result<Said<Template>, NoMemory>
    ensures { IfOk result (IsSaid template_of text.now) }
{
    let Some(text) = if_some(text) else {
        return Ok(Said {
            rule: None,
            wrong: false,
        });
    };
    match parse_log(alloc, text) {
        Ok(rule) => Ok(Said {
            rule: Some(rule),
            wrong: false,
        }),
        Err(RuleFault::NoMemory) => Err(NoMemory),
        Err(RuleFault::Outside) => Ok(Said {
            rule: None,
            wrong: true,
        }),
    }
}

// The first of the three that is there and is no rule.
fn fault_by(condition: bool, hit: bool, log: bool) -> Option<RuleText>
    ensures { result ≡ fault_by condition hit log }
{
    if condition {
        return Some(RuleText::Condition);
    }
    if hit {
        return Some(RuleText::Hit);
    }
    if log { Some(RuleText::Log) } else { None }
}

// What is kept of a breakpoint: nothing of one that is never bound, nor of one without rules.
fn ruled_by(fault: Option<RuleText>, ruled: Ruled) -> Option<Ruled>
    ensures { cons_option result [] ≡ ruled_by fault ruled }
{
    if fault.is_some() {
        return None;
    }
    if ruled.condition.is_some() || ruled.hit.is_some() || ruled.log.is_some() {
        Some(ruled)
    } else {
        None
    }
}

/// The rules that the texts of the breakpoint of an id are: of its condition, of its hit condition and of its message to
/// log. An empty text counts as missing; `NoMemory` comes where memory is refused (DAP specification, Types,
/// SourceBreakpoint and FunctionBreakpoint, condition, hitCondition and logMessage).
pub fn read_rules(
    alloc: Global,
    id: u64,
    condition: &Option<Text>,
    hit: &Option<Text>,
    log: &Option<Text>,
) -> Result<ReadRules, NoMemory>
    ensures fault { IfOk result (λ read. read.fault ≡ fault_in condition.now hit.now log.now) }
    ensures ruled { IfOk result (λ read. cons_option read.ruled [] ≡ ruled_of id condition.now hit.now log.now) }
{
    let condition = condition_in(alloc, condition)?;
    let hit = hit_in(hit);
    let log = log_in(alloc, log)?;
    let fault = fault_by(condition.wrong, hit.wrong, log.wrong);
    let ruled = Ruled {
        id,
        condition: condition.rule,
        hit: hit.rule,
        log: log.rule,
        passed: 0,
    };
    Ok(ReadRules {
        fault,
        ruled: ruled_by(fault, ruled),
    })
}
