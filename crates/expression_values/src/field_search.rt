//! A field of an object by its name (Java Language Specification, Expressions, Field Access Expressions).
ghost use Rattle.std.specs.Prelude.{◌≡◌, [], IfOk, Some, option_copied};
ghost use Rattle.machine_model.specs.Children.{reach};
ghost use Rattle.machine_model.specs.Expressions.{class_field, field_from, field_hop, field_named, field_value};
ghost use Rattle.machine_model.specs.Plans.{need};
ghost use Rattle.look_ups.specs.Needs.{need_of, need_with, seen_by};

use crate::sought::{Sought, missing, one_of};
use dap_messages::Failure;
use jdwp_values::{ClassId, Field};
use look_ups::{
    Declared, MetClasses, Need, REACH, Sight, above_need, class_need, fields_heard, fields_need,
    is_further, is_static,
};
use std::alloc::Global;
use wire_core::{Blob, List, NoMemory};

// The first of a class's fields that has a name.
fn field_named<'a>(name: &[u8], fields: &'a [Field]) -> Option<&'a Field>
    ensures { option_copied result ≡ field_named name.now fields.now }
{
    fields
        .iter()
        .filter(|field| !is_static(field.bits))
        .find(|field| field.name.as_slice() == name)
}

// The first field of a name from a class upwards, up to null or to a class that was met.
fn field_from<'a>(
    alloc: Global,
    sight: Sight<'a>,
    name: &[u8],
    class: ClassId,
) -> Result<Need<Option<&'a Field>>, NoMemory>
    ensures { IfOk result (λ found. need_with option_copied found
        ≡ need (seen_by sight.entry) (field_from reach [] name.now class.0)) }
{
    let mut met = MetClasses::new(alloc);
    let mut class = class;
    let mut left = REACH;
    while left > 0 && is_further(&met, class) {
        match fields_need(alloc, sight, class)? {
            Need::Has(fields) => {
                if let Some(field) = field_named(name, fields) {
                    return Ok(Need::Has(Some(field)));
                }
            }
            Need::Fails { place, code } => return Ok(Need::Fails { place, code }),
            Need::Lacks { first, others } => return Ok(Need::Lacks { first, others }),
        }
        match above_need(alloc, sight, class)? {
            Need::Has(above) => {
                met.add(class.0)?;
                class = above;
            }
            Need::Fails { place, code } => return Ok(Need::Fails { place, code }),
            Need::Lacks { first, others } => return Ok(Need::Lacks { first, others }),
        }
        left -= 1;
    }
    Ok(Need::Has(None))
}

// The value of a field (JDWP, ObjectReference command set, GetValues).
#[tactic(auto, using(machine_model::proofs::PlanIds::need_made))]
fn value_of(
    alloc: Global,
    sight: Sight<'_>,
    id: u64,
    field: &Field,
) -> Result<Need<Sought>, NoMemory>
    ensures { IfOk result (λ found. need_of found ≡ need (seen_by sight.entry) (field_value id (Some field.now))) }
{
    let mut fields = List::new(alloc);
    fields.push(field.id)?;
    match fields_heard(alloc, sight, id, fields)? {
        Need::Has(values) => {
            let signature = Blob::from_slice(alloc, field.signature.as_slice())?;
            Ok(Need::Has(one_of(Declared::Signature(signature), values)))
        }
        Need::Fails { place, code } => Ok(Need::Fails { place, code }),
        Need::Lacks { first, others } => Ok(Need::Lacks { first, others }),
    }
}

// The value of a field, if there is one.
#[tactic(auto, unfolding(machine_model::specs::Plans::need))]
fn field_value(
    alloc: Global,
    sight: Sight<'_>,
    id: u64,
    field: Option<&Field>,
) -> Result<Need<Sought>, NoMemory>
    ensures { IfOk result (λ found. need_of found
        ≡ need (seen_by sight.entry) (field_value id (option_copied field.entry))) }
{
    match field {
        None => Ok(missing(Failure::no_such_name())),
        Some(field) => value_of(alloc, sight, id, field),
    }
}

// The value of the first field of a name, from an object's class upwards.
#[tactic(auto, using(machine_model::proofs::PlanIds::need_chained))]
fn class_field(
    alloc: Global,
    sight: Sight<'_>,
    name: &[u8],
    id: u64,
    class: ClassId,
) -> Result<Need<Sought>, NoMemory>
    ensures { IfOk result (λ found. need_of found ≡ need (seen_by sight.entry) (class_field name.now id class)) }
{
    match field_from(alloc, sight, name, class)? {
        Need::Has(field) => field_value(alloc, sight, id, field),
        Need::Fails { place, code } => Ok(Need::Fails { place, code }),
        Need::Lacks { first, others } => Ok(Need::Lacks { first, others }),
    }
}

/// The value of an object's field of a name; that of a class hides those of the classes above it.
#[tactic(auto, using(machine_model::proofs::PlanIds::need_chained))]
pub(crate) fn field_hop(
    alloc: Global,
    sight: Sight<'_>,
    name: &[u8],
    id: u64,
) -> Result<Need<Sought>, NoMemory>
    ensures { IfOk result (λ found. need_of found ≡ need (seen_by sight.entry) (field_hop name.now id)) }
{
    match class_need(alloc, sight, id)? {
        Need::Has(class) => class_field(alloc, sight, name, id, class),
        Need::Fails { place, code } => Ok(Need::Fails { place, code }),
        Need::Lacks { first, others } => Ok(Need::Lacks { first, others }),
    }
}
