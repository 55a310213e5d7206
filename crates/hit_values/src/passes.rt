//! Which breakpoints are passed: those whose condition holds, all judged side by side (DAP specification, Types,
//! SourceBreakpoint, condition).
ghost use Rattle.std.specs.Prelude.{◌≡◌, ◌∷◌, ◌++◌, [], IfOk, OnOk};
ghost use Rattle.machine_model.specs.Judging.{pass_plan, passes_in};
ghost use Rattle.machine_model.specs.Plans.{each, need};
ghost use Rattle.look_ups.specs.Needs.{need_of, need_with, seen_by};

use crate::conditions::condition_need;
use crate::rules::condition_of;
use look_ups::{Need, Sight, beside_others};
use machine_model::Strike;
use rule_tables::RuleTable;
use std::alloc::Global;
use std::collections::VecDeque;
use wire_core::{List, NoMemory};

// Whether a breakpoint that a thread came to is passed.
#[tactic(auto, using(machine_model::proofs::PlanIds::need_made))]
fn pass_need(
    alloc: Global,
    sight: Sight<'_>,
    rules: &RuleTable,
    strike: Strike,
) -> Result<Need<(Strike, bool)>, NoMemory>
    ensures { IfOk result (λ found. need_of found ≡ need (seen_by sight.entry) (pass_plan rules.now strike)) }
{
    let condition = condition_of(rules, strike.entry.id);
    match condition_need(alloc, sight, strike.thread, condition)? {
        Need::Has(passes) => Ok(Need::Has((strike, passes))),
        Need::Fails { place, code } => Ok(Need::Fails { place, code }),
        Need::Lacks { first, others } => Ok(Need::Lacks { first, others }),
    }
}

/// Whether each of them is passed. The time is that of their conditions, and of the rules for each.
pub(crate) fn passes_need(
    alloc: Global,
    sight: Sight<'_>,
    rules: &RuleTable,
    strikes: &[Strike],
) -> Result<Need<VecDeque<(Strike, bool)>>, NoMemory>
    ensures { IfOk result (λ found. need_with (λ passes. passes.items) found
        ≡ need (seen_by sight.entry) (each (pass_plan rules.now) strikes.now)) }
{
    let mut found = Need::Has(VecDeque::new(alloc));
    let mut place = strikes.len();
    while place > 0 {
        place -= 1;
        found = beside_others(pass_need(alloc, sight, rules, strikes[place])?, found)?;
    }
    Ok(found)
}

// Its id is among those that were passed, where it was.
fn add_pass(ids: &mut List<u64>, pass: (Strike, bool)) -> Result<(), NoMemory>
    ensures { OnOk result (ids.new ≡ ids.old ++ passes_in (pass ∷ [])) }
{
    if pass.1 {
        ids.push(pass.0.entry.id)?;
    }
    Ok(())
}

/// The ids of those that are passed, in order, one as often as it is.
pub(crate) fn passes_in(alloc: Global, passed: &[(Strike, bool)]) -> Result<List<u64>, NoMemory>
    ensures { IfOk result (λ ids. ids ≡ passes_in passed.now) }
{
    let mut ids = List::new(alloc);
    for pass in passed {
        add_pass(&mut ids, *pass)?;
    }
    Ok(ids)
}
