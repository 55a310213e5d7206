//! The text of a value, found by one question behind the other (DAP specification, Evaluate request, result; JDWP,
//! StringReference, ArrayReference and ObjectReference command sets).
ghost use Rattle.std.specs.Prelude.{◌≡◌, IfOk};
ghost use Rattle.machine_model.specs.Judging.{array_text, object_text, plain_text, shown_text, string_text};
ghost use Rattle.machine_model.specs.Plans.{made_with, need};
ghost use Rattle.machine_model.specs.Values.{by_id, length_plan};
ghost use Rattle.value_views.specs.Texts.{value_text};
ghost use Rattle.value_views.specs.declared.known.Known.TheVariants as knowns;
ghost use Rattle.look_ups.specs.Needs.{need_of, seen_by};

use jdwp_values::Value;
use look_ups::{Need, Sight, length_need, text_need, type_need};
use std::alloc::Global;
use value_views::{Known, value_text};
use wire_core::{Blob, NoMemory, Text};

// An array, by the signature of its class.
#[tactic(auto, using(machine_model::proofs::PlanIds::need_made))]
fn sized_text(
    alloc: Global,
    sight: Sight<'_>,
    value: Value,
    id: u64,
    signature: Blob,
) -> Result<Need<Text>, NoMemory>
    ensures { IfOk result (λ found. need_of found ≡ need (seen_by sight.entry)
        (made_with (λ total. value_text value (knowns.Array signature total)) (length_plan id))) }
{
    match length_need(alloc, sight, id)? {
        Need::Has(length) => {
            let text = value_text(alloc, &value, &Known::Array { signature, length })?;
            Ok(Need::Has(text))
        }
        Need::Fails { place, code } => Ok(Need::Fails { place, code }),
        Need::Lacks { first, others } => Ok(Need::Lacks { first, others }),
    }
}

// An array: its type, and then its length.
#[tactic(auto, using(machine_model::proofs::PlanIds::need_chained))]
fn array_text(
    alloc: Global,
    sight: Sight<'_>,
    value: Value,
    id: u64,
) -> Result<Need<Text>, NoMemory>
    ensures { IfOk result (λ found. need_of found ≡ need (seen_by sight.entry) (array_text value id)) }
{
    match type_need(alloc, sight, id)? {
        Need::Has(signature) => sized_text(alloc, sight, value, id, signature),
        Need::Fails { place, code } => Ok(Need::Fails { place, code }),
        Need::Lacks { first, others } => Ok(Need::Lacks { first, others }),
    }
}

// A string: its text.
#[tactic(auto, using(machine_model::proofs::PlanIds::need_made))]
fn string_text(
    alloc: Global,
    sight: Sight<'_>,
    value: Value,
    id: u64,
) -> Result<Need<Text>, NoMemory>
    ensures { IfOk result (λ found. need_of found ≡ need (seen_by sight.entry) (string_text value id)) }
{
    match text_need(alloc, sight, id)? {
        Need::Has(text) => {
            let text = value_text(alloc, &value, &Known::Text(text))?;
            Ok(Need::Has(text))
        }
        Need::Fails { place, code } => Ok(Need::Fails { place, code }),
        Need::Lacks { first, others } => Ok(Need::Lacks { first, others }),
    }
}

// Another object: its type.
#[tactic(auto, using(machine_model::proofs::PlanIds::need_made))]
fn object_text(
    alloc: Global,
    sight: Sight<'_>,
    value: Value,
    id: u64,
) -> Result<Need<Text>, NoMemory>
    ensures { IfOk result (λ found. need_of found ≡ need (seen_by sight.entry) (object_text value id)) }
{
    match type_need(alloc, sight, id)? {
        Need::Has(signature) => {
            let text = value_text(alloc, &value, &Known::Object { signature })?;
            Ok(Need::Has(text))
        }
        Need::Fails { place, code } => Ok(Need::Fails { place, code }),
        Need::Lacks { first, others } => Ok(Need::Lacks { first, others }),
    }
}

// A value that is no reference, or null.
#[tactic(auto, unfolding(machine_model::specs::Plans::need))]
fn plain_text(alloc: Global, sight: Sight<'_>, value: Value) -> Result<Need<Text>, NoMemory>
    ensures { IfOk result (λ found. need_of found ≡ need (seen_by sight.entry) (plain_text value)) }
{
    Ok(Need::Has(value_text(alloc, &value, &Known::Plain)?))
}

fn array_or_null(
    alloc: Global,
    sight: Sight<'_>,
    value: Value,
    id: u64,
) -> Result<Need<Text>, NoMemory>
    ensures { IfOk result (λ found. need_of found
        ≡ need (seen_by sight.entry) (by_id id (plain_text value) (array_text value))) }
{
    if id == 0 {
        plain_text(alloc, sight, value)
    } else {
        array_text(alloc, sight, value, id)
    }
}

fn string_or_null(
    alloc: Global,
    sight: Sight<'_>,
    value: Value,
    id: u64,
) -> Result<Need<Text>, NoMemory>
    ensures { IfOk result (λ found. need_of found
        ≡ need (seen_by sight.entry) (by_id id (plain_text value) (string_text value))) }
{
    if id == 0 {
        plain_text(alloc, sight, value)
    } else {
        string_text(alloc, sight, value, id)
    }
}

fn object_or_null(
    alloc: Global,
    sight: Sight<'_>,
    value: Value,
    id: u64,
) -> Result<Need<Text>, NoMemory>
    ensures { IfOk result (λ found. need_of found
        ≡ need (seen_by sight.entry) (by_id id (plain_text value) (object_text value))) }
{
    if id == 0 {
        plain_text(alloc, sight, value)
    } else {
        object_text(alloc, sight, value, id)
    }
}

/// The text of a value, by what was learnt and replied. Nothing is asked of null.
pub(crate) fn shown_need(
    alloc: Global,
    sight: Sight<'_>,
    value: Value,
) -> Result<Need<Text>, NoMemory>
    ensures { IfOk result (λ found. need_of found ≡ need (seen_by sight.entry) (shown_text value value)) }
{
    match value {
        Value::Array(o) => array_or_null(alloc, sight, value, o.0),
        Value::String(o) => string_or_null(alloc, sight, value, o.0),
        Value::Object(o) => object_or_null(alloc, sight, value, o.0),
        Value::Thread(o) => object_or_null(alloc, sight, value, o.0),
        Value::ThreadGroup(o) => object_or_null(alloc, sight, value, o.0),
        Value::ClassLoader(o) => object_or_null(alloc, sight, value, o.0),
        Value::ClassObject(o) => object_or_null(alloc, sight, value, o.0),
        _ => plain_text(alloc, sight, value),
    }
}
