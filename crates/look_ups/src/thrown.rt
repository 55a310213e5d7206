//! The type of what a thread threw (DAP specification, Events, Stopped, text; ExceptionInfo request; JDWP,
//! ObjectReference command set, ReferenceType; JDWP, ReferenceType command set, Signature).
ghost use Rattle.std.specs.Prelude.{◌≡◌, None, IfOk, codes};
ghost use Rattle.machine_model.specs.Exceptions.{name_by, named_plan, text_by};
ghost use Rattle.machine_model.specs.Frames.{signature_plan};
ghost use Rattle.machine_model.specs.Plans.{answer_in, gives, made_with, need};
ghost use Rattle.machine_model.specs.Values.{by_id, type_plan};
ghost use Rattle.value_views.specs.Names.{class_name};
ghost use Rattle.look_ups.specs.Needs.{need_of, seen_by};

use crate::need::Need;
use crate::objects::{signature_need, type_need};
use crate::sight::{Sight, may_replied};
use jdwp_commands::{Answer, Question, Replied};
use jdwp_values::{ClassId, ObjectId};
use std::alloc::Global;
use value_views::class_name;
use wire_core::{NoMemory, Text};

// The name of a class.
#[tactic(auto, using(machine_model::proofs::PlanIds::need_made))]
fn class_named(
    alloc: Global,
    sight: Sight<'_>,
    class: ClassId,
) -> Result<Need<Option<Text>>, NoMemory>
    ensures { IfOk result (λ found. need_of found
        ≡ need (seen_by sight.entry) (made_with name_by (signature_plan class))) }
{
    match signature_need(alloc, sight, class)? {
        Need::Has(signature) => Ok(Need::Has(Some(class_name(alloc, signature.as_slice())?))),
        Need::Fails { place, code } => Ok(Need::Fails { place, code }),
        Need::Lacks { first, others } => Ok(Need::Lacks { first, others }),
    }
}

// The name of the class in a reply, where it says one.
#[tactic(auto, unfolding(machine_model::specs::Plans::need))]
fn reply_named(
    alloc: Global,
    sight: Sight<'_>,
    replied: &Replied,
) -> Result<Need<Option<Text>>, NoMemory>
    ensures { IfOk result (λ found. need_of found
        ≡ need (seen_by sight.entry) (text_by (answer_in replied.now))) }
{
    match replied {
        Replied::Answer(Answer::ObjectType { class, .. }) => class_named(alloc, sight, *class),
        _ => Ok(Need::Has(None)),
    }
}

// The name of an object's type, unless the target refuses to say its class.
#[tactic(auto, unfolding(machine_model::specs::Plans::need, machine_model::specs::Plans::chained))]
fn type_name_of(alloc: Global, sight: Sight<'_>, id: u64) -> Result<Need<Option<Text>>, NoMemory>
    ensures { IfOk result (λ found. need_of found ≡ need (seen_by sight.entry) (named_plan id)) }
{
    match may_replied(alloc, sight.asked, Question::ObjectType(ObjectId(id)))? {
        Need::Has(replied) => reply_named(alloc, sight, replied),
        Need::Fails { place, code } => Ok(Need::Fails { place, code }),
        Need::Lacks { first, others } => Ok(Need::Lacks { first, others }),
    }
}

/// The name of an object's type, for an event: none of null, and none where the target refuses to say the object's class.
/// `NoMemory` comes where memory is refused (DAP specification, Events, Stopped, text).
#[tactic(auto, unfolding(machine_model::specs::Plans::need))]
pub fn thrown_text(
    alloc: Global,
    sight: Sight<'_>,
    object: ObjectId,
) -> Result<Need<Option<Text>>, NoMemory>
    ensures { IfOk result (λ found. need_of found
        ≡ need (seen_by sight.entry) (by_id object.0 (gives None) named_plan)) }
{
    if object.0 == 0 {
        Ok(Need::Has(None))
    } else {
        type_name_of(alloc, sight, object.0)
    }
}

// The name of an object's type.
#[tactic(auto, using(machine_model::proofs::PlanIds::need_made))]
fn type_named(alloc: Global, sight: Sight<'_>, id: u64) -> Result<Need<Text>, NoMemory>
    ensures { IfOk result (λ found. need_of found
        ≡ need (seen_by sight.entry) (made_with class_name (type_plan id))) }
{
    match type_need(alloc, sight, id)? {
        Need::Has(signature) => Ok(Need::Has(class_name(alloc, signature.as_slice())?)),
        Need::Fails { place, code } => Ok(Need::Fails { place, code }),
        Need::Lacks { first, others } => Ok(Need::Lacks { first, others }),
    }
}

/// The name of an object's type, for a response; that of null is `null`. `NoMemory` comes where memory is refused (DAP
/// specification, ExceptionInfo request).
#[tactic(auto, unfolding(machine_model::specs::Plans::need))]
pub fn thrown_name(
    alloc: Global,
    sight: Sight<'_>,
    object: ObjectId,
) -> Result<Need<Text>, NoMemory>
    ensures { IfOk result (λ found. need_of found ≡ need (seen_by sight.entry)
        (by_id object.0 (gives (codes "null")) (λ id. made_with class_name (type_plan id)))) }
{
    if object.0 == 0 {
        Ok(Need::Has(Text::from_str(alloc, "null")?))
    } else {
        type_named(alloc, sight, object.0)
    }
}
