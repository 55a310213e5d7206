//! The steps of an expression, each from a value to the next (Java Language Specification, Expressions, Field Access
//! Expressions and Array Access Expressions).
ghost use Rattle.std.specs.Prelude.{◌≡◌, true, Ok, IfOk};
ghost use Rattle.machine_model.specs.Expressions.{as_length, element_hop, element_if, field_hop, hop_on, hops_on};
ghost use Rattle.machine_model.specs.Expressions.{index_on, length_hop, length_if, missing, name_on};
ghost use Rattle.machine_model.specs.Plans.{need};
ghost use Rattle.machine_model.specs.Values.{by_id};
ghost use Rattle.dap_messages.specs.Telling.{bad_index, no_such_name};
ghost use Rattle.look_ups.specs.Needs.{need_of, seen_by};

use crate::field_search::field_hop;
use crate::sought::{Sought, Valued, missing, one_of};
use dap_messages::Failure;
use field_exprs::Hop;
use jdwp_values::Value;
use look_ups::{Declared, Need, Sight, as_int, elements_heard, length_need, object_named};
use std::alloc::Global;
use wire_core::{Blob, NoMemory};

// An array's length as a value.
fn as_length(alloc: Global, total: u32) -> Result<Sought, NoMemory>
    ensures { IfOk result (λ sought. sought ≡ as_length total) }
{
    Ok(Ok(Valued {
        value: Value::Int(as_int(total)?),
        declared: Declared::Signature(Blob::from_slice(alloc, b"I")?),
    }))
}

// The length of an array.
#[tactic(auto, using(machine_model::proofs::PlanIds::need_made))]
fn length_of(alloc: Global, sight: Sight<'_>, id: u64) -> Result<Need<Sought>, NoMemory>
    ensures { IfOk result (λ found. need_of found ≡ need (seen_by sight.entry) (length_if true id)) }
{
    match length_need(alloc, sight, id)? {
        Need::Has(total) => Ok(Need::Has(as_length(alloc, total)?)),
        Need::Fails { place, code } => Ok(Need::Fails { place, code }),
        Need::Lacks { first, others } => Ok(Need::Lacks { first, others }),
    }
}

// An array has its length alone (Java Language Specification, Arrays, Array Members).
#[tactic(auto, unfolding(machine_model::specs::Plans::need))]
fn length_hop(
    alloc: Global,
    sight: Sight<'_>,
    name: &[u8],
    id: u64,
) -> Result<Need<Sought>, NoMemory>
    ensures { IfOk result (λ found. need_of found ≡ need (seen_by sight.entry) (length_hop name.now id)) }
{
    if name == b"length".as_slice() {
        length_of(alloc, sight, id)
    } else {
        Ok(missing(Failure::no_such_name()))
    }
}

// An element inside an array (JDWP, ArrayReference command set, GetValues).
#[tactic(auto, using(machine_model::proofs::PlanIds::need_made))]
fn element_of(
    alloc: Global,
    sight: Sight<'_>,
    index: u32,
    id: u64,
) -> Result<Need<Sought>, NoMemory>
    ensures { IfOk result (λ found. need_of found ≡ need (seen_by sight.entry) (element_if true index id)) }
{
    match elements_heard(alloc, sight, id, index, 1)? {
        Need::Has(values) => Ok(Need::Has(one_of(Declared::ElementOf(id), values))),
        Need::Fails { place, code } => Ok(Need::Fails { place, code }),
        Need::Lacks { first, others } => Ok(Need::Lacks { first, others }),
    }
}

// An element of an array, if it is inside.
#[tactic(auto, unfolding(machine_model::specs::Plans::need))]
fn element_if(
    alloc: Global,
    sight: Sight<'_>,
    is_inside: bool,
    index: u32,
    id: u64,
) -> Result<Need<Sought>, NoMemory>
    ensures { IfOk result (λ found. need_of found ≡ need (seen_by sight.entry) (element_if is_inside index id)) }
{
    if is_inside {
        element_of(alloc, sight, index, id)
    } else {
        Ok(missing(Failure::bad_index()))
    }
}

// An element of an array, by its length.
#[tactic(auto, using(machine_model::proofs::PlanIds::need_chained))]
fn element_hop(
    alloc: Global,
    sight: Sight<'_>,
    index: u32,
    id: u64,
) -> Result<Need<Sought>, NoMemory>
    ensures { IfOk result (λ found. need_of found ≡ need (seen_by sight.entry) (element_hop index id)) }
{
    match length_need(alloc, sight, id)? {
        Need::Has(total) => element_if(alloc, sight, index < total, index, id),
        Need::Fails { place, code } => Ok(Need::Fails { place, code }),
        Need::Lacks { first, others } => Ok(Need::Lacks { first, others }),
    }
}

// A name on an array, which null has none of.
#[tactic(auto, unfolding(machine_model::specs::Plans::need))]
fn name_on_array(
    alloc: Global,
    sight: Sight<'_>,
    name: &[u8],
    id: u64,
) -> Result<Need<Sought>, NoMemory>
    ensures { IfOk result (λ found. need_of found
        ≡ need (seen_by sight.entry) (by_id id (missing no_such_name) (length_hop name.now))) }
{
    if id == 0 {
        Ok(missing(Failure::no_such_name()))
    } else {
        length_hop(alloc, sight, name, id)
    }
}

// A name on another object, which null has none of.
#[tactic(auto, unfolding(machine_model::specs::Plans::need))]
fn name_on_object(
    alloc: Global,
    sight: Sight<'_>,
    name: &[u8],
    id: u64,
) -> Result<Need<Sought>, NoMemory>
    ensures { IfOk result (λ found. need_of found
        ≡ need (seen_by sight.entry) (by_id id (missing no_such_name) (field_hop name.now))) }
{
    if id == 0 {
        Ok(missing(Failure::no_such_name()))
    } else {
        field_hop(alloc, sight, name, id)
    }
}

/// A name on a value: null, a string and what is no reference have none.
#[tactic(auto, unfolding(machine_model::specs::Plans::need))]
pub(crate) fn name_on(
    alloc: Global,
    sight: Sight<'_>,
    name: &[u8],
    value: Value,
) -> Result<Need<Sought>, NoMemory>
    ensures { IfOk result (λ found. need_of found ≡ need (seen_by sight.entry) (name_on name.now value)) }
{
    match value {
        Value::Array(o) => name_on_array(alloc, sight, name, o.0),
        Value::String(_) => Ok(missing(Failure::no_such_name())),
        _ => name_on_object(alloc, sight, name, object_named(value)),
    }
}

// An index on an array; null has no elements.
#[tactic(auto, unfolding(machine_model::specs::Plans::need))]
fn index_on_array(
    alloc: Global,
    sight: Sight<'_>,
    index: u32,
    id: u64,
) -> Result<Need<Sought>, NoMemory>
    ensures { IfOk result (λ found. need_of found
        ≡ need (seen_by sight.entry) (by_id id (missing bad_index) (element_hop index))) }
{
    if id == 0 {
        Ok(missing(Failure::bad_index()))
    } else {
        element_hop(alloc, sight, index, id)
    }
}

// An index on a value: only an array has elements.
#[tactic(auto, unfolding(machine_model::specs::Plans::need))]
fn index_on(
    alloc: Global,
    sight: Sight<'_>,
    index: u32,
    value: Value,
) -> Result<Need<Sought>, NoMemory>
    ensures { IfOk result (λ found. need_of found ≡ need (seen_by sight.entry) (index_on index value)) }
{
    match value {
        Value::Array(o) => index_on_array(alloc, sight, index, o.0),
        _ => Ok(missing(Failure::bad_index())),
    }
}

// A step on a value.
fn hop_on(
    alloc: Global,
    sight: Sight<'_>,
    hop: &Hop,
    value: Value,
) -> Result<Need<Sought>, NoMemory>
    ensures { IfOk result (λ found. need_of found ≡ need (seen_by sight.entry) (hop_on hop.now value)) }
{
    match hop {
        Hop::Field(name) => name_on(alloc, sight, name.as_bytes(), value),
        Hop::Index(index) => index_on(alloc, sight, *index, value),
    }
}

/// The steps from a value on, from left to right.
pub(crate) fn hops_on(
    alloc: Global,
    sight: Sight<'_>,
    hops: &[Hop],
    from: Valued,
) -> Result<Need<Sought>, NoMemory>
    ensures { IfOk result (λ found. need_of found ≡ need (seen_by sight.entry) (hops_on hops.now from)) }
{
    let mut reached = from;
    for hop in hops {
        match hop_on(alloc, sight, hop, reached.value)? {
            Need::Has(Ok(next)) => reached = next,
            Need::Has(Err(failure)) => return Ok(missing(failure)),
            Need::Fails { place, code } => return Ok(Need::Fails { place, code }),
            Need::Lacks { first, others } => return Ok(Need::Lacks { first, others }),
        }
    }
    Ok(Need::Has(Ok(reached)))
}
