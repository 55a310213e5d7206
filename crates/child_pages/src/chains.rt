//! The fields of a class and of those above it (JDWP, ReferenceType command set, Fields; JDWP, ClassType command set,
//! Superclass).
ghost use Rattle.std.specs.Prelude.{◌≡◌, [], IfOk};
ghost use Rattle.machine_model.specs.Children.{chain, chain_fields, class_fields, reach};
ghost use Rattle.machine_model.specs.Plans.{each, need};
ghost use Rattle.look_ups.specs.Needs.{need_of, need_with, seen_by};

use crate::field_names::ClassFields;
use jdwp_values::ClassId;
use look_ups::{
    MetClasses, Need, REACH, Sight, above_need, beside_others, fields_need, is_further,
};
use std::alloc::Global;
use std::collections::VecDeque;
use wire_core::NoMemory;

// A class with its fields.
#[tactic(auto, using(machine_model::proofs::PlanIds::need_made))]
fn class_fields<'a>(
    alloc: Global,
    sight: Sight<'a>,
    class: ClassId,
) -> Result<Need<ClassFields<'a>>, NoMemory>
    ensures { IfOk result (λ found. need_of found ≡ need (seen_by sight.entry) (class_fields class.0)) }
{
    match fields_need(alloc, sight, class)? {
        Need::Has(fields) => Ok(Need::Has(ClassFields { class, fields })),
        Need::Fails { place, code } => Ok(Need::Fails { place, code }),
        Need::Lacks { first, others } => Ok(Need::Lacks { first, others }),
    }
}

// A class and those above it are met, up to null or to a class that was met before.
fn follow(
    alloc: Global,
    sight: Sight<'_>,
    class: ClassId,
    met: &mut MetClasses,
) -> Result<Need<()>, NoMemory>
    ensures { IfOk result (λ found. need_with (λ _. met.new) found
        ≡ need (seen_by sight.entry) (chain reach met.old class.0)) }
{
    let mut class = class;
    let mut left = REACH;
    while left > 0 && is_further(met, class) {
        match above_need(alloc, sight, class)? {
            Need::Has(above) => {
                met.add(class.0)?;
                class = above;
            }
            Need::Fails { place, code } => return Ok(Need::Fails { place, code }),
            Need::Lacks { first, others } => return Ok(Need::Lacks { first, others }),
        }
        left -= 1;
    }
    Ok(Need::Has(()))
}

// A class and those above it.
fn chain_need(alloc: Global, sight: Sight<'_>, class: ClassId) -> Result<Need<Vec<u64>>, NoMemory>
    ensures { IfOk result (λ found. need_with (λ classes. classes.items) found
        ≡ need (seen_by sight.entry) (chain reach [] class.0)) }
{
    let mut met = MetClasses::new(alloc);
    match follow(alloc, sight, class, &mut met)? {
        Need::Has(()) => Ok(Need::Has(met.listed(alloc)?)),
        Need::Fails { place, code } => Ok(Need::Fails { place, code }),
        Need::Lacks { first, others } => Ok(Need::Lacks { first, others }),
    }
}

// Each of these classes with its fields.
fn each_fields<'a>(
    alloc: Global,
    sight: Sight<'a>,
    classes: &[u64],
) -> Result<Need<VecDeque<ClassFields<'a>>>, NoMemory>
    ensures { IfOk result (λ found. need_with (λ classes. classes.items) found
        ≡ need (seen_by sight.entry) (each class_fields classes.now)) }
{
    let mut found = Need::Has(VecDeque::new(alloc));
    let mut place = classes.len();
    while place > 0 {
        place -= 1;
        found = beside_others(class_fields(alloc, sight, ClassId(classes[place]))?, found)?;
    }
    Ok(found)
}

/// The fields of a class and of those above it, class by class upwards.
#[tactic(auto, using(machine_model::proofs::PlanIds::need_chained))]
pub(crate) fn chain_fields<'a>(
    alloc: Global,
    sight: Sight<'a>,
    class: ClassId,
) -> Result<Need<VecDeque<ClassFields<'a>>>, NoMemory>
    ensures { IfOk result (λ found. need_with (λ classes. classes.items) found
        ≡ need (seen_by sight.entry) (chain_fields class)) }
{
    match chain_need(alloc, sight, class)? {
        Need::Has(classes) => each_fields(alloc, sight, classes.as_slice()),
        Need::Fails { place, code } => Ok(Need::Fails { place, code }),
        Need::Lacks { first, others } => Ok(Need::Lacks { first, others }),
    }
}
