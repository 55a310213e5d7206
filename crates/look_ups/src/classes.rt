//! What is heard of a class: its fields, and the class that it extends (JDWP, ReferenceType command set, Fields; JDWP,
//! ClassType command set, Superclass).
ghost use Rattle.std.specs.Prelude.{◌≡◌, [], IfOk, option_copied};
ghost use Rattle.class_tables.specs.Lookups.{found_in};
ghost use Rattle.machine_model.specs.Children.{above_plan, fields_plan, is_static};
ghost use Rattle.machine_model.specs.Facts.{above_in, fields_in};
ghost use Rattle.machine_model.specs.Plans.{answer_in, need};
ghost use Rattle.look_ups.specs.Needs.{need_of, need_with, seen_by};
ghost use Rattle.look_ups.specs.Shown.{is_further};

use crate::met::MetClasses;
use crate::need::Need;
use crate::sight::{Sight, fact_replied};
use class_tables::Classes;
use jdwp_commands::{Answer, Question, Replied};
use jdwp_values::{ClassId, Field};
use std::alloc::Global;
use wire_core::NoMemory;

/// So many classes are followed upwards at most, from a class on.
pub const REACH: u64 = 1 << 40;

// The fields of a class in a reply.
fn fields_in(replied: &Replied) -> &[Field]
    ensures { result.now ≡ fields_in (answer_in replied.now) }
{
    match replied {
        Replied::Answer(Answer::Fields(fields)) => fields.as_slice(),
        _ => &[],
    }
}

// The class that a class extends, in a reply.
fn above_in(replied: &Replied) -> ClassId
    ensures { result ≡ above_in (answer_in replied.now) }
{
    match replied {
        Replied::Answer(Answer::Superclass(class)) => *class,
        _ => ClassId(0),
    }
}

// The fields of a class, where they were learnt.
fn known_fields(classes: &Classes, class: ClassId) -> Option<&[Field]>
    ensures { option_copied result ≡ (found_in classes.now).fields class }
{
    Some(classes.class(class)?.fields?.as_slice())
}

// The class that a class extends, where it was learnt.
fn known_above(classes: &Classes, class: ClassId) -> Option<ClassId>
    ensures { result ≡ (found_in classes.now).above class }
{
    classes.class(class)?.above
}

/// The fields of a class by what was learnt and replied, in the target's order. `NoMemory` comes where memory is
/// refused (JDWP, ReferenceType command set, Fields).
#[tactic(auto, unfolding(machine_model::specs::Plans::need))]
pub fn fields_need<'a>(
    alloc: Global,
    sight: Sight<'a>,
    class: ClassId,
) -> Result<Need<&'a [Field]>, NoMemory>
    ensures { IfOk result (λ found. need_with (λ fields. fields.now) found
        ≡ need (seen_by sight.entry) (fields_plan class.0)) }
{
    if let Some(fields) = known_fields(sight.classes, class) {
        return Ok(Need::Has(fields));
    }
    match fact_replied(alloc, sight.asked, Question::Fields(class))? {
        Need::Has(replied) => Ok(Need::Has(fields_in(replied))),
        Need::Fails { place, code } => Ok(Need::Fails { place, code }),
        Need::Lacks { first, others } => Ok(Need::Lacks { first, others }),
    }
}

/// The class that a class extends by what was learnt and replied, id 0 where it extends none. `NoMemory` comes where
/// memory is refused (JDWP, ClassType command set, Superclass).
#[tactic(auto, unfolding(machine_model::specs::Plans::need))]
pub fn above_need(
    alloc: Global,
    sight: Sight<'_>,
    class: ClassId,
) -> Result<Need<ClassId>, NoMemory>
    ensures { IfOk result (λ found. need_of found ≡ need (seen_by sight.entry) (above_plan class.0)) }
{
    if let Some(above) = known_above(sight.classes, class) {
        return Ok(Need::Has(above));
    }
    match fact_replied(alloc, sight.asked, Question::Superclass(class))? {
        Need::Has(replied) => Ok(Need::Has(above_in(replied))),
        Need::Fails { place, code } => Ok(Need::Fails { place, code }),
        Need::Lacks { first, others } => Ok(Need::Lacks { first, others }),
    }
}

/// Whether a class is followed further: its id isn't 0, and it wasn't met.
pub fn is_further(met: &MetClasses, class: ClassId) -> bool
    ensures { result ≡ is_further met.now class.0 }
{
    class.0 != 0 && !met.has(class.0)
}

/// Whether the access flags of a field say that it is one of the class itself, and not of its objects (Java Virtual
/// Machine Specification, Fields, ACC_STATIC).
pub fn is_static(bits: i32) -> bool
    ensures { result ≡ is_static bits }
{
    if bits < 0 {
        ((-1 - i64::from(bits)) / 8) % 2 == 0
    } else {
        (bits / 8) % 2 == 1
    }
}
