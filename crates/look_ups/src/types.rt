//! The types of values, where the client asked for types (DAP specification, Types, Variable, type).
ghost use Rattle.std.specs.Prelude.{◌≡◌, true, IfOk};
ghost use Rattle.machine_model.specs.Plans.{after, has, need};
ghost use Rattle.machine_model.specs.Values.{behind_bracket, declared_plan, element_plan, type_if, type_plan, typed};
ghost use Rattle.look_ups.specs.Needs.{need_of, seen_by};
ghost use Rattle.look_ups.specs.Shown.{declared_of};

use crate::need::Need;
use crate::objects::type_need;
use crate::place::Declared;
use crate::sight::Sight;
use std::alloc::Global;
use value_views::class_name;
use wire_core::{Blob, NoMemory, Text};

/// The name of the type that a signature says, where types are shown. `NoMemory` comes where memory is refused (DAP
/// specification, Types, Variable, type).
pub fn type_if(alloc: Global, types: bool, signature: &[u8]) -> Result<Option<Text>, NoMemory>
    ensures { IfOk result (λ kind. kind ≡ type_if types signature.now) }
{
    if types {
        Ok(Some(class_name(alloc, signature)?))
    } else {
        Ok(None)
    }
}

// A signature that is known, as a type where types are shown.
fn kind_of(alloc: Global, signature: Need<Blob>) -> Result<Need<Option<Text>>, NoMemory>
    ensures { IfOk result (λ found. need_of found ≡ after (need_of signature) (λ s. has (type_if true s))) }
{
    match signature {
        Need::Has(signature) => Ok(Need::Has(type_if(alloc, true, signature.as_slice())?)),
        Need::Fails { place, code } => Ok(Need::Fails { place, code }),
        Need::Lacks { first, others } => Ok(Need::Lacks { first, others }),
    }
}

/// The type of an object, where types are shown.
#[tactic(auto, using(machine_model::proofs::PlanIds::need_made), unfolding(machine_model::specs::Plans::need))]
pub(crate) fn type_shown(
    alloc: Global,
    sight: Sight<'_>,
    types: bool,
    id: u64,
) -> Result<Need<Option<Text>>, NoMemory>
    ensures { IfOk result (λ found. need_of found ≡ need (seen_by sight.entry) (typed types (type_plan id))) }
{
    if types {
        kind_of(alloc, type_need(alloc, sight, id)?)
    } else {
        Ok(Need::Has(None))
    }
}

// The signature of an array's elements; none where its own isn't an array's.
fn behind_bracket(signature: &[u8]) -> &[u8]
    ensures { result.now ≡ behind_bracket signature.now }
{
    match signature {
        [b'[', rest @ ..] => rest,
        _ => &[],
    }
}

// The signature of an array's elements.
#[tactic(auto, using(machine_model::proofs::PlanIds::need_made))]
fn element_need(alloc: Global, sight: Sight<'_>, id: u64) -> Result<Need<Blob>, NoMemory>
    ensures { IfOk result (λ found. need_of found ≡ need (seen_by sight.entry) (element_plan id)) }
{
    match type_need(alloc, sight, id)? {
        Need::Has(signature) => Ok(Need::Has(Blob::from_slice(
            alloc,
            behind_bracket(signature.as_slice()),
        )?)),
        Need::Fails { place, code } => Ok(Need::Fails { place, code }),
        Need::Lacks { first, others } => Ok(Need::Lacks { first, others }),
    }
}

/// The signature of a place as the target's bytes, by what was learnt and replied; an element's is empty where its
/// array is null, or has no array's. `NoMemory` comes where memory is refused.
#[tactic(auto, unfolding(machine_model::specs::Plans::need))]
pub fn declared_need(
    alloc: Global,
    sight: Sight<'_>,
    declared: &Declared,
) -> Result<Need<Blob>, NoMemory>
    ensures { IfOk result (λ found. need_of found
        ≡ need (seen_by sight.entry) (declared_plan (declared_of declared.now))) }
{
    match declared {
        Declared::Signature(signature) => {
            Ok(Need::Has(Blob::from_slice(alloc, signature.as_slice())?))
        }
        Declared::ElementOf(id) => {
            if *id == 0 {
                Ok(Need::Has(Blob::new(alloc)))
            } else {
                element_need(alloc, sight, *id)
            }
        }
    }
}

/// The type of a place, where types are shown.
#[tactic(auto, using(machine_model::proofs::PlanIds::need_made), unfolding(machine_model::specs::Plans::need))]
pub(crate) fn place_type(
    alloc: Global,
    sight: Sight<'_>,
    types: bool,
    declared: &Declared,
) -> Result<Need<Option<Text>>, NoMemory>
    ensures { IfOk result (λ found. need_of found
        ≡ need (seen_by sight.entry) (typed types (declared_plan (declared_of declared.now)))) }
{
    if types {
        kind_of(alloc, declared_need(alloc, sight, declared)?)
    } else {
        Ok(Need::Has(None))
    }
}
