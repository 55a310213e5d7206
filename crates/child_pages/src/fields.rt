//! The fields of an object, each with its name (JDWP, ObjectReference command set, ReferenceType).
ghost use Rattle.std.specs.Prelude.{◌≡◌, true, IfOk};
ghost use Rattle.jdwp_values.specs.Lossy.{lossy};
ghost use Rattle.machine_model.specs.Children.{chain_fields, field_plan, fields_named, name_plan, object_fields, of_field};
ghost use Rattle.machine_model.specs.Children.{with_class};
ghost use Rattle.machine_model.specs.Plans.{chained, each, need};
ghost use Rattle.look_ups.specs.Needs.{need_of, need_with, seen_by};

use crate::chains::chain_fields;
use crate::children::{Child, Place};
use crate::field_names::{ClassFields, FieldOf, of_classes};
use jdwp_values::{ClassId, Field, lossy};
use look_ups::{Declared, Need, Sight, beside_others, class_need, signature_need};
use std::alloc::Global;
use std::collections::VecDeque;
use value_views::class_name;
use wire_core::{Blob, NoMemory, Text};

// A field's name with its class's behind it.
fn with_class(alloc: Global, name: &str, signature: &[u8]) -> Result<Text, NoMemory>
    ensures { IfOk result (λ text. text ≡ with_class name.now signature.now) }
{
    let class = class_name(alloc, signature)?;
    let mut text = String::from_str(alloc, name)?;
    text.push_str("@")?;
    text.push_str(class.as_str())?;
    Ok(Text::from_string(text))
}

// A field's name with its class's behind it.
#[tactic(auto, using(machine_model::proofs::PlanIds::need_made))]
fn name_with_class(
    alloc: Global,
    sight: Sight<'_>,
    class: ClassId,
    name: Text,
) -> Result<Need<Text>, NoMemory>
    ensures { IfOk result (λ found. need_of found ≡ need (seen_by sight.entry) (name_plan class.0 name true)) }
{
    match signature_need(alloc, sight, class)? {
        Need::Has(signature) => Ok(Need::Has(with_class(
            alloc,
            name.as_str(),
            signature.as_slice(),
        )?)),
        Need::Fails { place, code } => Ok(Need::Fails { place, code }),
        Need::Lacks { first, others } => Ok(Need::Lacks { first, others }),
    }
}

// A field's name; where it was met before its class's stands behind it.
#[tactic(auto, unfolding(machine_model::specs::Plans::need))]
fn name_need(
    alloc: Global,
    sight: Sight<'_>,
    class: ClassId,
    name: Text,
    is_met: bool,
) -> Result<Need<Text>, NoMemory>
    ensures { IfOk result (λ found. need_of found ≡ need (seen_by sight.entry) (name_plan class.0 name is_met)) }
{
    if is_met {
        name_with_class(alloc, sight, class, name)
    } else {
        Ok(Need::Has(name))
    }
}

fn of_field(alloc: Global, field: &Field, name: Text) -> Result<Child, NoMemory>
    ensures { IfOk result (λ child. child ≡ of_field field.now name) }
{
    Ok(Child {
        name,
        declared: Declared::Signature(Blob::from_slice(alloc, field.signature.as_slice())?),
        place: Place::Field(field.id),
    })
}

// A field with its name.
#[tactic(auto, using(machine_model::proofs::PlanIds::need_made))]
fn field_need(alloc: Global, sight: Sight<'_>, field: &FieldOf<'_>) -> Result<Need<Child>, NoMemory>
    ensures { IfOk result (λ found. need_of found ≡ need (seen_by sight.entry) (field_plan field.now)) }
{
    let name = lossy(alloc, field.field.name.as_slice())?;
    match name_need(alloc, sight, field.class, name, field.is_met)? {
        Need::Has(name) => Ok(Need::Has(of_field(alloc, field.field, name)?)),
        Need::Fails { place, code } => Ok(Need::Fails { place, code }),
        Need::Lacks { first, others } => Ok(Need::Lacks { first, others }),
    }
}

// Each of these fields with its name.
fn each_named(
    alloc: Global,
    sight: Sight<'_>,
    fields: &[FieldOf<'_>],
) -> Result<Need<VecDeque<Child>>, NoMemory>
    ensures { IfOk result (λ found. need_with (λ children. children.items) found
        ≡ need (seen_by sight.entry) (each field_plan fields.now)) }
{
    let mut found = Need::Has(VecDeque::new(alloc));
    let mut place = fields.len();
    while place > 0 {
        place -= 1;
        found = beside_others(field_need(alloc, sight, &fields[place])?, found)?;
    }
    Ok(found)
}

// The fields of these classes, each with its name.
fn named(
    alloc: Global,
    sight: Sight<'_>,
    classes: &[ClassFields<'_>],
) -> Result<Need<VecDeque<Child>>, NoMemory>
    ensures { IfOk result (λ found. need_with (λ children. children.items) found
        ≡ need (seen_by sight.entry) (fields_named classes.now)) }
{
    let fields = Vec::from(of_classes(alloc, classes)?);
    each_named(alloc, sight, fields.as_slice())
}

// The fields of a class and of those above it, each with its name.
#[tactic(auto, using(machine_model::proofs::PlanIds::need_chained))]
fn class_children(
    alloc: Global,
    sight: Sight<'_>,
    class: ClassId,
) -> Result<Need<VecDeque<Child>>, NoMemory>
    ensures { IfOk result (λ found. need_with (λ children. children.items) found
        ≡ need (seen_by sight.entry) (chained (chain_fields class) fields_named)) }
{
    match chain_fields(alloc, sight, class)? {
        Need::Has(classes) => named(alloc, sight, Vec::from(classes).as_slice()),
        Need::Fails { place, code } => Ok(Need::Fails { place, code }),
        Need::Lacks { first, others } => Ok(Need::Lacks { first, others }),
    }
}

/// The fields of an object, each with its name.
#[tactic(auto, using(crate::proofs::ObjectLaws::object_need))]
pub(crate) fn object_fields(
    alloc: Global,
    sight: Sight<'_>,
    id: u64,
) -> Result<Need<VecDeque<Child>>, NoMemory>
    ensures { IfOk result (λ found. need_with (λ children. children.items) found
        ≡ need (seen_by sight.entry) (object_fields id)) }
{
    match class_need(alloc, sight, id)? {
        Need::Has(class) => class_children(alloc, sight, class),
        Need::Fails { place, code } => Ok(Need::Fails { place, code }),
        Need::Lacks { first, others } => Ok(Need::Lacks { first, others }),
    }
}
