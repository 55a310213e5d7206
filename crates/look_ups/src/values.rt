//! How a value is shown by what was heard of it (DAP specification, Types, Variable; JDWP, StringReference,
//! ArrayReference and ObjectReference command sets).
ghost use Rattle.std.specs.Prelude.{◌≡◌, IfOk};
ghost use Rattle.machine_model.specs.Plans.{need};
ghost use Rattle.machine_model.specs.Values.{array_plan, array_seen, by_id, childless, null_plan, object_plan};
ghost use Rattle.machine_model.specs.Values.{object_seen, primitive_seen, seen_plan, string_plan};
ghost use Rattle.value_views.specs.Texts.{value_text};
ghost use Rattle.value_views.specs.declared.known.Known.TheVariants.{Plain};
ghost use Rattle.look_ups.specs.Needs.{need_of, seen_by};
ghost use Rattle.look_ups.specs.Shown.{declared_of};

use crate::need::{Need, both};
use crate::objects::{length_need, text_need, type_need};
use crate::place::Declared;
use crate::sight::Sight;
use crate::types::{place_type, type_if, type_shown};
use jdwp_values::{ObjectId, Value};
use machine_model::Seen;
use std::alloc::Global;
use stop_refs::Thing;
use value_views::{Known, value_text};
use wire_core::{Blob, NoMemory, Text};

/// A value with this text and type that has no children (DAP specification, Types, Variable).
pub fn childless(text: Text, kind: Option<Text>) -> Seen
    ensures { result ≡ childless text kind }
{
    Seen {
        text,
        kind,
        indexed: None,
        thing: None,
    }
}

// A value that is no reference: its type is its tag's.
fn primitive_seen(alloc: Global, types: bool, value: Value) -> Result<Seen, NoMemory>
    ensures { IfOk result (λ seen. seen ≡ primitive_seen types value) }
{
    let text = value_text(alloc, &value, &Known::Plain)?;
    let kind = type_if(alloc, types, &[value.tag().byte()])?;
    Ok(childless(text, kind))
}

// Null: its type is that of its place.
#[tactic(auto, using(machine_model::proofs::PlanIds::need_made))]
fn null_need(
    alloc: Global,
    sight: Sight<'_>,
    types: bool,
    value: Value,
    declared: &Declared,
) -> Result<Need<Seen>, NoMemory>
    ensures { IfOk result (λ found. need_of found ≡ need (seen_by sight.entry)
        (null_plan types (record { value = value; declared = declared_of declared.now }))) }
{
    match place_type(alloc, sight, types, declared)? {
        Need::Has(kind) => {
            let text = value_text(alloc, &value, &Known::Plain)?;
            Ok(Need::Has(childless(text, kind)))
        }
        Need::Fails { place, code } => Ok(Need::Fails { place, code }),
        Need::Lacks { first, others } => Ok(Need::Lacks { first, others }),
    }
}

// A string: its text, and its type.
#[tactic(auto, using(machine_model::proofs::PlanIds::need_made), unfolding(machine_model::specs::Plans::need))]
fn string_need(
    alloc: Global,
    sight: Sight<'_>,
    types: bool,
    value: Value,
    id: u64,
) -> Result<Need<Seen>, NoMemory>
    ensures { IfOk result (λ found. need_of found ≡ need (seen_by sight.entry) (string_plan types value id)) }
{
    let text = text_need(alloc, sight, id)?;
    match both(text, type_shown(alloc, sight, types, id)?)? {
        Need::Has((text, kind)) => {
            let text = value_text(alloc, &value, &Known::Text(text))?;
            Ok(Need::Has(childless(text, kind)))
        }
        Need::Fails { place, code } => Ok(Need::Fails { place, code }),
        Need::Lacks { first, others } => Ok(Need::Lacks { first, others }),
    }
}

// An array, by the signature of its class and its length.
fn array_seen(
    alloc: Global,
    types: bool,
    value: Value,
    id: u64,
    signature: Blob,
    length: u32,
) -> Result<Seen, NoMemory>
    ensures { IfOk result (λ seen. seen ≡ array_seen types value id (signature, length)) }
{
    let kind = type_if(alloc, types, signature.as_slice())?;
    Ok(Seen {
        text: value_text(alloc, &value, &Known::Array { signature, length })?,
        kind,
        indexed: Some(length),
        thing: Some(Thing::Array(ObjectId(id))),
    })
}

// An array: its type and its length.
#[tactic(auto, using(machine_model::proofs::PlanIds::need_made), unfolding(machine_model::specs::Plans::need))]
fn array_need(
    alloc: Global,
    sight: Sight<'_>,
    types: bool,
    value: Value,
    id: u64,
) -> Result<Need<Seen>, NoMemory>
    ensures { IfOk result (λ found. need_of found ≡ need (seen_by sight.entry) (array_plan types value id)) }
{
    let signature = type_need(alloc, sight, id)?;
    match both(signature, length_need(alloc, sight, id)?)? {
        Need::Has((signature, length)) => Ok(Need::Has(array_seen(
            alloc, types, value, id, signature, length,
        )?)),
        Need::Fails { place, code } => Ok(Need::Fails { place, code }),
        Need::Lacks { first, others } => Ok(Need::Lacks { first, others }),
    }
}

// Another object, by the signature of its class.
fn object_seen(
    alloc: Global,
    types: bool,
    value: Value,
    id: u64,
    signature: Blob,
) -> Result<Seen, NoMemory>
    ensures { IfOk result (λ seen. seen ≡ object_seen types value id signature) }
{
    let kind = type_if(alloc, types, signature.as_slice())?;
    Ok(Seen {
        text: value_text(alloc, &value, &Known::Object { signature })?,
        kind,
        indexed: None,
        thing: Some(Thing::Object(ObjectId(id))),
    })
}

// Another object: its type.
#[tactic(auto, using(machine_model::proofs::PlanIds::need_made))]
fn object_need(
    alloc: Global,
    sight: Sight<'_>,
    types: bool,
    value: Value,
    id: u64,
) -> Result<Need<Seen>, NoMemory>
    ensures { IfOk result (λ found. need_of found ≡ need (seen_by sight.entry) (object_plan types value id)) }
{
    match type_need(alloc, sight, id)? {
        Need::Has(signature) => {
            let seen = object_seen(alloc, types, value, id, signature)?;
            Ok(Need::Has(seen))
        }
        Need::Fails { place, code } => Ok(Need::Fails { place, code }),
        Need::Lacks { first, others } => Ok(Need::Lacks { first, others }),
    }
}

// An object that is no array and no string, or null.
fn object_or_null(
    alloc: Global,
    sight: Sight<'_>,
    types: bool,
    value: Value,
    declared: &Declared,
    id: u64,
) -> Result<Need<Seen>, NoMemory>
    ensures { IfOk result (λ found. need_of found ≡ need (seen_by sight.entry)
        (by_id id (null_plan types (record { value = value; declared = declared_of declared.now }))
        (object_plan types value))) }
{
    if id == 0 {
        null_need(alloc, sight, types, value, declared)
    } else {
        object_need(alloc, sight, types, value, id)
    }
}

fn array_or_null(
    alloc: Global,
    sight: Sight<'_>,
    types: bool,
    value: Value,
    declared: &Declared,
    id: u64,
) -> Result<Need<Seen>, NoMemory>
    ensures { IfOk result (λ found. need_of found ≡ need (seen_by sight.entry)
        (by_id id (null_plan types (record { value = value; declared = declared_of declared.now }))
        (array_plan types value))) }
{
    if id == 0 {
        null_need(alloc, sight, types, value, declared)
    } else {
        array_need(alloc, sight, types, value, id)
    }
}

fn string_or_null(
    alloc: Global,
    sight: Sight<'_>,
    types: bool,
    value: Value,
    declared: &Declared,
    id: u64,
) -> Result<Need<Seen>, NoMemory>
    ensures { IfOk result (λ found. need_of found ≡ need (seen_by sight.entry)
        (by_id id (null_plan types (record { value = value; declared = declared_of declared.now }))
        (string_plan types value))) }
{
    if id == 0 {
        null_need(alloc, sight, types, value, declared)
    } else {
        string_need(alloc, sight, types, value, id)
    }
}

/// A value as it is shown, by what was learnt and replied: its text, its type where `types` holds, and its children.
/// Nothing is asked of null but the type of its place. `NoMemory` comes where memory is refused (DAP specification,
/// Types, Variable).
#[tactic(auto, unfolding(machine_model::specs::Plans::need))]
pub fn seen_need(
    alloc: Global,
    sight: Sight<'_>,
    types: bool,
    value: Value,
    declared: &Declared,
) -> Result<Need<Seen>, NoMemory>
    ensures { IfOk result (λ found. need_of found ≡ need (seen_by sight.entry)
        (seen_plan types (record { value = value; declared = declared_of declared.now }))) }
{
    match value {
        Value::Array(o) => array_or_null(alloc, sight, types, value, declared, o.0),
        Value::String(o) => string_or_null(alloc, sight, types, value, declared, o.0),
        Value::Object(o) => object_or_null(alloc, sight, types, value, declared, o.0),
        Value::Thread(o) => object_or_null(alloc, sight, types, value, declared, o.0),
        Value::ThreadGroup(o) => object_or_null(alloc, sight, types, value, declared, o.0),
        Value::ClassLoader(o) => object_or_null(alloc, sight, types, value, declared, o.0),
        Value::ClassObject(o) => object_or_null(alloc, sight, types, value, declared, o.0),
        _ => Ok(Need::Has(primitive_seen(alloc, types, value)?)),
    }
}
