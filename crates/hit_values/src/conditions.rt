//! Whether the condition of a breakpoint holds (DAP specification, Types, SourceBreakpoint, condition).
ghost use Rattle.std.specs.Prelude.{◌≡◌, Some, IfOk, option_copied};
ghost use Rattle.machine_model.specs.Judging.{condition_plan, holds_alone, holds_by, path_plan, seen_as, side_plan};
ghost use Rattle.machine_model.specs.Judging.{side_seen, sides_plan, unless_false};
ghost use Rattle.machine_model.specs.Plans.{made_with, need};
ghost use Rattle.look_ups.specs.Needs.{need_of, seen_by};

use crate::paths::path_need;
use break_rules::{Comparison, Condition, Part, Seen, judge};
use expression_values::Sought;
use field_exprs::Expr;
use jdwp_values::{ThreadId, Value};
use look_ups::{Need, Sight, both};
use std::alloc::Global;
use wire_core::NoMemory;

// A value as a condition sees it (Java Language Specification, Types, Values, and Variables).
fn seen_as(value: Value) -> Seen
    ensures { result ≡ seen_as value }
{
    match value {
        Value::Byte(number) => Seen::Number(i64::from(number)),
        Value::Short(number) => Seen::Number(i64::from(number)),
        Value::Int(number) => Seen::Number(i64::from(number)),
        Value::Long(number) => Seen::Number(number),
        Value::Char(number) => Seen::Number(i64::from(number)),
        Value::Boolean(byte) => Seen::Truth(byte != 0),
        Value::Float(_) => Seen::Other,
        Value::Double(_) => Seen::Other,
        Value::Void => Seen::Other,
        Value::Object(o) => Seen::Reference(o.0),
        Value::Array(o) => Seen::Reference(o.0),
        Value::String(o) => Seen::Reference(o.0),
        Value::Thread(o) => Seen::Reference(o.0),
        Value::ThreadGroup(o) => Seen::Reference(o.0),
        Value::ClassLoader(o) => Seen::Reference(o.0),
        Value::ClassObject(o) => Seen::Reference(o.0),
    }
}

fn side_seen(taken: Sought) -> Option<Seen>
    ensures { result ≡ side_seen taken }
{
    match taken {
        Ok(found) => Some(seen_as(found.value)),
        Err(_) => None,
    }
}

// An expression as a side.
#[tactic(auto, using(machine_model::proofs::PlanIds::need_made))]
fn path_seen(
    alloc: Global,
    sight: Sight<'_>,
    thread: ThreadId,
    expression: &Expr,
) -> Result<Need<Option<Seen>>, NoMemory>
    ensures { IfOk result (λ found. need_of found
        ≡ need (seen_by sight.entry) (made_with side_seen (path_plan thread expression.now))) }
{
    match path_need(alloc, sight, thread, expression)? {
        Need::Has(taken) => Ok(Need::Has(side_seen(taken))),
        Need::Fails { place, code } => Ok(Need::Fails { place, code }),
        Need::Lacks { first, others } => Ok(Need::Lacks { first, others }),
    }
}

// A side of a condition; nothing is asked but of an expression.
#[tactic(auto, unfolding(machine_model::specs::Plans::need))]
fn side_need(
    alloc: Global,
    sight: Sight<'_>,
    thread: ThreadId,
    side: &Part,
) -> Result<Need<Option<Seen>>, NoMemory>
    ensures { IfOk result (λ found. need_of found ≡ need (seen_by sight.entry) (side_plan thread side.now)) }
{
    match side {
        Part::Number(number) => Ok(Need::Has(Some(Seen::Number(*number)))),
        Part::Truth(is) => Ok(Need::Has(Some(Seen::Truth(*is)))),
        Part::Null => Ok(Need::Has(Some(Seen::Reference(0)))),
        Part::Path(expression) => path_seen(alloc, sight, thread, expression),
    }
}

// A condition that can't be judged holds.
fn unless_false(judged: Option<bool>) -> bool
    ensures { result ≡ unless_false judged }
{
    match judged {
        None => true,
        Some(is) => is,
    }
}

fn holds_alone(left: Option<Seen>) -> bool
    ensures { result ≡ holds_alone left }
{
    match left {
        None => true,
        Some(left) => unless_false(judge(left, None)),
    }
}

fn holds_by(comparison: Comparison, left: Option<Seen>, right: Option<Seen>) -> bool
    ensures { result ≡ holds_by comparison (left, right) }
{
    match left {
        None => true,
        Some(left) => match right {
            None => true,
            Some(right) => unless_false(judge(left, Some((comparison, right)))),
        },
    }
}

// One side alone.
#[tactic(auto, using(machine_model::proofs::PlanIds::need_made))]
fn alone_need(
    alloc: Global,
    sight: Sight<'_>,
    thread: ThreadId,
    left: &Part,
) -> Result<Need<bool>, NoMemory>
    ensures { IfOk result (λ found. need_of found
        ≡ need (seen_by sight.entry) (made_with holds_alone (side_plan thread left.now))) }
{
    match side_need(alloc, sight, thread, left)? {
        Need::Has(left) => Ok(Need::Has(holds_alone(left))),
        Need::Fails { place, code } => Ok(Need::Fails { place, code }),
        Need::Lacks { first, others } => Ok(Need::Lacks { first, others }),
    }
}

// Two sides, side by side.
#[tactic(auto, using(machine_model::proofs::PlanIds::need_made), unfolding(machine_model::specs::Plans::need))]
fn compared_need(
    alloc: Global,
    sight: Sight<'_>,
    thread: ThreadId,
    left: &Part,
    comparison: Comparison,
    right: &Part,
) -> Result<Need<bool>, NoMemory>
    ensures { IfOk result (λ found. need_of found
        ≡ need (seen_by sight.entry) (sides_plan thread left.now (Some (comparison, right.now)))) }
{
    let left = side_need(alloc, sight, thread, left)?;
    match both(left, side_need(alloc, sight, thread, right)?)? {
        Need::Has((left, right)) => Ok(Need::Has(holds_by(comparison, left, right))),
        Need::Fails { place, code } => Ok(Need::Fails { place, code }),
        Need::Lacks { first, others } => Ok(Need::Lacks { first, others }),
    }
}

fn sides_need(
    alloc: Global,
    sight: Sight<'_>,
    thread: ThreadId,
    condition: &Condition,
) -> Result<Need<bool>, NoMemory>
    ensures { IfOk result (λ found. need_of found
        ≡ need (seen_by sight.entry) (sides_plan thread condition.now.left condition.now.rest)) }
{
    match &condition.rest {
        None => alone_need(alloc, sight, thread, &condition.left),
        Some((comparison, right)) => {
            compared_need(alloc, sight, thread, &condition.left, *comparison, right)
        }
    }
}

/// Whether the condition of a breakpoint holds; one without a condition is passed.
#[tactic(auto, unfolding(machine_model::specs::Plans::need))]
pub(crate) fn condition_need(
    alloc: Global,
    sight: Sight<'_>,
    thread: ThreadId,
    condition: Option<&Condition>,
) -> Result<Need<bool>, NoMemory>
    ensures { IfOk result (λ found. need_of found
        ≡ need (seen_by sight.entry) (condition_plan thread (option_copied condition.entry))) }
{
    match condition {
        None => Ok(Need::Has(true)),
        Some(condition) => sides_need(alloc, sight, thread, condition),
    }
}
