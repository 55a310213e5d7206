//! What the hits of a composite come to: all that it tells of are judged by one look-up (DAP specification, Types,
//! SourceBreakpoint, condition, hitCondition and logMessage; JDWP, Event command set, Composite).
ghost use Rattle.std.specs.Prelude.{◌≡◌, IfOk, filter};
ghost use Rattle.machine_model.specs.Judging.{fired_plan, hits_plan, judged_plan, judgement, log_plan, logs};
ghost use Rattle.machine_model.specs.Plans.{each, need};
ghost use Rattle.look_ups.specs.Needs.{need_of, need_with, seen_by};

use crate::counts::fired_from;
use crate::messages::{logging, logs_need, stopping};
use crate::passes::{passes_in, passes_need};
use look_ups::{Need, Sight};
use machine_model::{Judgement, Strike};
use rule_tables::RuleTable;
use std::alloc::Global;
use std::collections::VecDeque;
use wire_core::{List, NoMemory, Text};

// All that fires and has a message is asked for what it logs.
fn logged_need(
    alloc: Global,
    sight: Sight<'_>,
    rules: &RuleTable,
    fired: &[Strike],
) -> Result<Need<VecDeque<Text>>, NoMemory>
    ensures { IfOk result (λ found. need_with (λ texts. texts.items) found
        ≡ need (seen_by sight.entry) (each (log_plan rules.now) (filter (logs rules.now) fired.now))) }
{
    let logging = logging(alloc, rules, fired)?;
    logs_need(alloc, sight, rules, logging.as_slice())
}

// What was passed, what is logged, and what of that which fires stops.
fn judgement_of(
    alloc: Global,
    rules: &RuleTable,
    passed: List<u64>,
    fired: &[Strike],
    logged: VecDeque<Text>,
) -> Result<Judgement, NoMemory>
    ensures { IfOk result (λ found. found ≡ judgement rules.now passed fired.now logged.items) }
{
    Ok(Judgement {
        passed,
        logged: List::from_vec(Vec::from(logged)),
        stops: stopping(alloc, rules, fired)?,
    })
}

// What was passed, and what fires of it.
#[tactic(auto, using(machine_model::proofs::PlanIds::need_made))]
fn fired_need(
    alloc: Global,
    sight: Sight<'_>,
    rules: &RuleTable,
    passed: List<u64>,
    fired: &[Strike],
) -> Result<Need<Judgement>, NoMemory>
    ensures { IfOk result (λ found. need_of found
        ≡ need (seen_by sight.entry) (fired_plan rules.now passed fired.now)) }
{
    match logged_need(alloc, sight, rules, fired)? {
        Need::Has(logged) => Ok(Need::Has(judgement_of(alloc, rules, passed, fired, logged)?)),
        Need::Fails { place, code } => Ok(Need::Fails { place, code }),
        Need::Lacks { first, others } => Ok(Need::Lacks { first, others }),
    }
}

// Once it is known what is passed.
fn judged_need(
    alloc: Global,
    sight: Sight<'_>,
    rules: &RuleTable,
    passed: &[(Strike, bool)],
) -> Result<Need<Judgement>, NoMemory>
    ensures { IfOk result (λ found. need_of found ≡ need (seen_by sight.entry) (judged_plan rules.now passed.now)) }
{
    let fired = fired_from(alloc, rules, passed)?;
    let ids = passes_in(alloc, passed)?;
    fired_need(alloc, sight, rules, ids, fired.as_slice())
}

/// What hits come to by the rules of their breakpoints, by what was learnt and replied: which breakpoints are passed,
/// in order, one as often as it is; the texts that are logged; and what stops. A condition that can't be judged holds.
/// An error fails nothing. Messages are looked up once all conditions are judged, and only those of what fires.
///
/// The time is that of the look-ups, of the rules for each hit, and of all pairs of hits where breakpoints have hit
/// conditions. `NoMemory` comes where memory is refused, where a count of hits would be 2^64 or more, and where an
/// array's length would be 2^31 or more (DAP specification, Types, SourceBreakpoint, condition, hitCondition and
/// logMessage).
#[tactic(auto, using(machine_model::proofs::PlanIds::need_chained))]
pub fn hits_need(
    alloc: Global,
    sight: Sight<'_>,
    rules: &RuleTable,
    strikes: &[Strike],
) -> Result<Need<Judgement>, NoMemory>
    ensures { IfOk result (λ found. need_of found ≡ need (seen_by sight.entry) (hits_plan rules.now strikes.now)) }
{
    match passes_need(alloc, sight, rules, strikes)? {
        Need::Has(passed) => judged_need(alloc, sight, rules, Vec::from(passed).as_slice()),
        Need::Fails { place, code } => Ok(Need::Fails { place, code }),
        Need::Lacks { first, others } => Ok(Need::Lacks { first, others }),
    }
}
