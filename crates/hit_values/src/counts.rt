//! At which counts of passes a breakpoint stops or logs (DAP specification, Types, SourceBreakpoint, hitCondition).
ghost use Rattle.std.specs.Prelude.{◌≡◌, ◌==◌, ◌+◌, ◌∷◌, ◌++◌, [], count_by, suc, IfOk, OnOk};
ghost use Rattle.machine_model.specs.Judging.{fired_from, fired_if, is_counted, passes_in};
ghost use Rattle.machine_model.specs.RuleTables.{times};

use crate::rules::{hit_of, passed_of};
use machine_model::Strike;
use rule_tables::RuleTable;
use std::alloc::Global;
use wire_core::{List, NoMemory};

fn counted(ids: &[u64], id: u64) -> usize
    ensures { result ≡ count_by (λ other. other == id) ids.now }
{
    ids.iter().filter(|other| **other == id).count()
}

// How often an id stands in a list.
fn times(ids: &[u64], id: u64) -> usize
    ensures { result ≡ times ids.now id }
{
    counted(ids, id)
}

// The count of this pass: those before this composite, those before it in this composite, and this one. A count that
// no number of 64 bits is counts as memory that is refused.
fn count_of(passed: u64, before: usize) -> Result<u64, NoMemory>
    ensures { IfOk result (λ count. count ≡ suc (passed + before)) }
{
    let count = passed.checked_add(before as u64).ok_or(NoMemory)?;
    count.checked_add(1).ok_or(NoMemory)
}

// Whether the hit condition of a breakpoint is met at this pass, behind these passes of the same composite.
fn is_counted(rules: &RuleTable, before: &[u64], id: u64) -> Result<bool, NoMemory>
    ensures { IfOk result (λ is. is ≡ is_counted rules.now before.now id) }
{
    match hit_of(rules, id) {
        None => Ok(true),
        Some(hit) => Ok(hit.meets(count_of(passed_of(rules, id), times(before, id))?)),
    }
}

// It fires, where its hit condition is met.
fn add_fired(fired: &mut List<Strike>, is_met: bool, strike: Strike) -> Result<(), NoMemory>
    ensures { OnOk result (fired.new ≡ fired.old ++ fired_if is_met strike) }
{
    if is_met {
        fired.push(strike)?;
    }
    Ok(())
}

// What is passed may fire, and counts for those behind it.
fn take_pass(
    rules: &RuleTable,
    pass: (Strike, bool),
    before: &mut List<u64>,
    fired: &mut List<Strike>,
) -> Result<(), NoMemory>
    ensures before { OnOk result (before.new ≡ before.old ++ passes_in (pass ∷ [])) }
    ensures fired { OnOk result (fired.new ≡ fired.old ++ fired_from rules.now before.old (pass ∷ [])) }
{
    let (strike, passes) = pass;
    if !passes {
        return Ok(());
    }
    let id = strike.entry.id;
    add_fired(fired, is_counted(rules, before.as_slice(), id)?, strike)?;
    before.push(id)?;
    Ok(())
}

/// What fires: what is passed, where its hit condition is met. The time is that of all pairs of passes, where
/// breakpoints have hit conditions, and of the rules for each. `NoMemory` also comes where a count would be 2^64.
pub(crate) fn fired_from(
    alloc: Global,
    rules: &RuleTable,
    passed: &[(Strike, bool)],
) -> Result<List<Strike>, NoMemory>
    ensures { IfOk result (λ fired. fired ≡ fired_from rules.now [] passed.now) }
{
    let mut before = List::new(alloc);
    let mut fired = List::new(alloc);
    for pass in passed {
        take_pass(rules, *pass, &mut before, &mut fired)?;
    }
    Ok(fired)
}
