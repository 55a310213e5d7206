//! What rules a breakpoint, where something does (DAP specification, Types, SourceBreakpoint and FunctionBreakpoint).
ghost use Rattle.std.specs.Prelude.{◌≡◌, option_copied};
ghost use Rattle.machine_model.specs.RuleTables.{rules_of};

use break_rules::{Condition, Hit, Template};
use rule_tables::RuleTable;

/// The condition of a breakpoint.
pub(crate) fn condition_of(rules: &RuleTable, id: u64) -> Option<&Condition>
    ensures { option_copied result ≡ (rules_of rules.now id).condition }
{
    match rules.of(id) {
        None => None,
        Some(ruled) => ruled.condition.as_ref(),
    }
}

/// Its hit condition.
pub(crate) fn hit_of(rules: &RuleTable, id: u64) -> Option<Hit>
    ensures { result ≡ (rules_of rules.now id).hit }
{
    match rules.of(id) {
        None => None,
        Some(ruled) => ruled.hit,
    }
}

/// How often it was passed before.
pub(crate) fn passed_of(rules: &RuleTable, id: u64) -> u64
    ensures { result ≡ (rules_of rules.now id).passed }
{
    match rules.of(id) {
        None => 0,
        Some(ruled) => ruled.passed,
    }
}

/// Its message to log.
pub(crate) fn log_of(rules: &RuleTable, id: u64) -> Option<&Template>
    ensures { option_copied result ≡ (rules_of rules.now id).log }
{
    match rules.of(id) {
        None => None,
        Some(ruled) => ruled.log.as_ref(),
    }
}
