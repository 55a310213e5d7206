//! What an expression names in the innermost frame of a thread, and how that is shown (DAP specification, Evaluate
//! request).
ghost use Rattle.std.specs.Prelude.{◌≡◌, IfOk};
ghost use Rattle.machine_model.specs.Caught.{caught};
ghost use Rattle.machine_model.specs.Expressions.{named_in};
ghost use Rattle.machine_model.specs.Judging.{path_plan, path_text, shown_text, sought_taken, text_by, text_taken};
ghost use Rattle.machine_model.specs.Judging.{value_by};
ghost use Rattle.machine_model.specs.Plans.{made_with, need};
ghost use Rattle.look_ups.specs.Needs.{need_of, seen_by};

use crate::failures::failure_by;
use crate::frames::innermost_need;
use crate::shown::shown_need;
use dap_messages::Failure;
use expression_values::{Sought, sought_need};
use field_exprs::Expr;
use jdwp_values::{ThreadId, Value};
use look_ups::{Need, Refusal, Sight, handed_on};
use std::alloc::Global;
use stop_refs::FrameThing;
use wire_core::{NoMemory, Text};

// What was sought, where no error came.
fn sought_taken(sought: Result<Sought, Refusal>) -> Sought
    ensures { result ≡ sought_taken sought }
{
    match sought {
        Ok(sought) => sought,
        Err(why) => Err(failure_by(why)),
    }
}

// What an expression names in a frame; an error fails nothing.
#[tactic(auto, using(crate::proofs::CaughtNeeds::names_caught))]
fn names_caught(
    alloc: Global,
    sight: Sight<'_>,
    frame: FrameThing,
    expression: &Expr,
) -> Result<Need<Result<Sought, Refusal>>, NoMemory>
    ensures { IfOk result (λ found. need_of found
        ≡ need (seen_by sight.entry) (caught (named_in frame expression.now))) }
{
    handed_on(alloc, sought_need(alloc, sight, frame, expression)?)
}

// What an expression names in a frame, or why there is no value.
#[tactic(auto, using(machine_model::proofs::PlanIds::need_made))]
fn value_in(
    alloc: Global,
    sight: Sight<'_>,
    expression: &Expr,
    frame: FrameThing,
) -> Result<Need<Sought>, NoMemory>
    ensures { IfOk result (λ found. need_of found
        ≡ need (seen_by sight.entry) (made_with sought_taken (caught (named_in frame expression.now)))) }
{
    match names_caught(alloc, sight, frame, expression)? {
        Need::Has(sought) => Ok(Need::Has(sought_taken(sought))),
        Need::Fails { place, code } => Ok(Need::Fails { place, code }),
        Need::Lacks { first, others } => Ok(Need::Lacks { first, others }),
    }
}

// In a frame, if there is one.
#[tactic(auto, unfolding(machine_model::specs::Plans::need))]
fn value_by(
    alloc: Global,
    sight: Sight<'_>,
    expression: &Expr,
    frame: Result<FrameThing, Failure>,
) -> Result<Need<Sought>, NoMemory>
    ensures { IfOk result (λ found. need_of found ≡ need (seen_by sight.entry) (value_by expression.now frame)) }
{
    match frame {
        Ok(frame) => value_in(alloc, sight, expression, frame),
        Err(failure) => Ok(Need::Has(Err(failure))),
    }
}

/// What an expression names in the innermost frame of a thread, or why there is no value. No error fails this.
#[tactic(auto, using(machine_model::proofs::PlanIds::need_chained))]
pub(crate) fn path_need(
    alloc: Global,
    sight: Sight<'_>,
    thread: ThreadId,
    expression: &Expr,
) -> Result<Need<Sought>, NoMemory>
    ensures { IfOk result (λ found. need_of found ≡ need (seen_by sight.entry) (path_plan thread expression.now)) }
{
    match innermost_need(alloc, sight, thread)? {
        Need::Has(frame) => value_by(alloc, sight, expression, frame),
        Need::Fails { place, code } => Ok(Need::Fails { place, code }),
        Need::Lacks { first, others } => Ok(Need::Lacks { first, others }),
    }
}

// A text, where no error came.
fn text_taken(text: Result<Text, Refusal>) -> Result<Text, Failure>
    ensures { result ≡ text_taken text }
{
    match text {
        Ok(text) => Ok(text),
        Err(why) => Err(failure_by(why)),
    }
}

// A value as it is shown; an error fails nothing.
#[tactic(auto, using(crate::proofs::CaughtNeeds::text_caught))]
fn text_caught(
    alloc: Global,
    sight: Sight<'_>,
    value: Value,
) -> Result<Need<Result<Text, Refusal>>, NoMemory>
    ensures { IfOk result (λ found. need_of found
        ≡ need (seen_by sight.entry) (caught (shown_text value value))) }
{
    handed_on(alloc, shown_need(alloc, sight, value)?)
}

// A value as it is shown, or why it isn't.
#[tactic(auto, using(machine_model::proofs::PlanIds::need_made))]
fn text_of(
    alloc: Global,
    sight: Sight<'_>,
    value: Value,
) -> Result<Need<Result<Text, Failure>>, NoMemory>
    ensures { IfOk result (λ found. need_of found
        ≡ need (seen_by sight.entry) (made_with text_taken (caught (shown_text value value)))) }
{
    match text_caught(alloc, sight, value)? {
        Need::Has(text) => Ok(Need::Has(text_taken(text))),
        Need::Fails { place, code } => Ok(Need::Fails { place, code }),
        Need::Lacks { first, others } => Ok(Need::Lacks { first, others }),
    }
}

// What was taken, as it is shown.
#[tactic(auto, unfolding(machine_model::specs::Plans::need))]
fn text_by(
    alloc: Global,
    sight: Sight<'_>,
    taken: Sought,
) -> Result<Need<Result<Text, Failure>>, NoMemory>
    ensures { IfOk result (λ found. need_of found ≡ need (seen_by sight.entry) (text_by taken)) }
{
    match taken {
        Ok(found) => text_of(alloc, sight, found.value),
        Err(failure) => Ok(Need::Has(Err(failure))),
    }
}

/// What an expression names in the innermost frame of a thread, as it is shown, or why there is no value. No error
/// fails this.
#[tactic(auto, using(machine_model::proofs::PlanIds::need_chained))]
pub(crate) fn path_text(
    alloc: Global,
    sight: Sight<'_>,
    thread: ThreadId,
    expression: &Expr,
) -> Result<Need<Result<Text, Failure>>, NoMemory>
    ensures { IfOk result (λ found. need_of found ≡ need (seen_by sight.entry) (path_text thread expression.now)) }
{
    match path_need(alloc, sight, thread, expression)? {
        Need::Has(taken) => text_by(alloc, sight, taken),
        Need::Fails { place, code } => Ok(Need::Fails { place, code }),
        Need::Lacks { first, others } => Ok(Need::Lacks { first, others }),
    }
}
