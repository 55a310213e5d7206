//! What `variables` shows of a container.
ghost use Rattle.std.specs.Prelude.{◌≡◌, ◌≤◌, [], IfOk};
ghost use Rattle.machine_model.specs.Plans.{chained, gives, has, need};
ghost use Rattle.machine_model.specs.Values.{by_id};
ghost use Rattle.machine_model.specs.Variables.{elements_page, elements_valued, fields_page, fields_valued};
ghost use Rattle.machine_model.specs.Variables.{locals_page, locals_valued, page_plan, shown_plan};
ghost use Rattle.look_ups.specs.Needs.{need_of, seen_by};

use crate::children::Child;
use crate::fields::object_fields;
use crate::locals::locals_need;
use crate::paired::{count_from, elements_of, fields_of, page, slots_of, with_known, zipped};
use crate::shown::shown_need;
use dap_messages::Filter;
use jdwp_values::Value;
use look_ups::{Need, Sight, elements_heard, fields_heard, length_need, slots_heard};
use machine_model::ShownVariable;
use std::alloc::Global;
use std::collections::VecDeque;
use stop_refs::{FrameThing, Thing};
use wire_core::{List, NoMemory};

// The variables of a frame, each with its value.
#[tactic(auto, using(machine_model::proofs::PlanIds::need_made))]
fn locals_valued(
    alloc: Global,
    sight: Sight<'_>,
    frame: FrameThing,
    children: Vec<Child>,
) -> Result<Need<List<(Child, Value)>>, NoMemory>
    ensures { IfOk result (λ found. need_of found
        ≡ need (seen_by sight.entry) (locals_valued frame children.items)) }
{
    let slots = slots_of(alloc, children.as_slice())?;
    match slots_heard(alloc, sight, frame, slots)? {
        Need::Has(found) => Ok(Need::Has(with_known(alloc, children, found)?)),
        Need::Fails { place, code } => Ok(Need::Fails { place, code }),
        Need::Lacks { first, others } => Ok(Need::Lacks { first, others }),
    }
}

// A page of the variables of a frame.
#[tactic(auto, using(machine_model::proofs::PlanIds::need_chained))]
fn locals_page(
    alloc: Global,
    sight: Sight<'_>,
    frame: FrameThing,
    start: u32,
    count: u32,
) -> Result<Need<List<(Child, Value)>>, NoMemory>
    ensures { IfOk result (λ found. need_of found
        ≡ need (seen_by sight.entry) (locals_page frame start count)) }
{
    match locals_need(alloc, sight, frame)? {
        Need::Has(children) => locals_valued(alloc, sight, frame, page(children, start, count)?),
        Need::Fails { place, code } => Ok(Need::Fails { place, code }),
        Need::Lacks { first, others } => Ok(Need::Lacks { first, others }),
    }
}

// The fields of an object, each with its value.
#[tactic(auto, using(machine_model::proofs::PlanIds::need_made))]
fn fields_valued(
    alloc: Global,
    sight: Sight<'_>,
    object: u64,
    children: Vec<Child>,
) -> Result<Need<List<(Child, Value)>>, NoMemory>
    ensures { IfOk result (λ found. need_of found
        ≡ need (seen_by sight.entry) (fields_valued object children.items)) }
{
    let fields = fields_of(alloc, children.as_slice())?;
    match fields_heard(alloc, sight, object, fields)? {
        Need::Has(found) => Ok(Need::Has(zipped(alloc, VecDeque::from(children), found)?)),
        Need::Fails { place, code } => Ok(Need::Fails { place, code }),
        Need::Lacks { first, others } => Ok(Need::Lacks { first, others }),
    }
}

// A page of the fields of an object.
#[tactic(auto, using(machine_model::proofs::PlanIds::need_chained))]
fn fields_page(
    alloc: Global,
    sight: Sight<'_>,
    object: u64,
    start: u32,
    count: u32,
) -> Result<Need<List<(Child, Value)>>, NoMemory>
    ensures { IfOk result (λ found. need_of found
        ≡ need (seen_by sight.entry) (fields_page start count object)) }
{
    match object_fields(alloc, sight, object)? {
        Need::Has(children) => fields_valued(alloc, sight, object, page(children, start, count)?),
        Need::Fails { place, code } => Ok(Need::Fails { place, code }),
        Need::Lacks { first, others } => Ok(Need::Lacks { first, others }),
    }
}

// Elements of an array from a place on, each with its value; where none is shown nothing is asked.
#[tactic(auto, using(machine_model::proofs::PlanIds::need_made))]
fn elements_valued(
    alloc: Global,
    sight: Sight<'_>,
    array: u64,
    start: u32,
    count: u32,
) -> Result<Need<List<(Child, Value)>>, NoMemory>
    requires { count ≤ 10000 }
    ensures { IfOk result (λ found. need_of found
        ≡ need (seen_by sight.entry) (elements_valued array start count)) }
{
    match elements_heard(alloc, sight, array, start, count)? {
        Need::Has(found) => {
            let children = elements_of(alloc, array, start, count)?;
            Ok(Need::Has(zipped(alloc, children, found)?))
        }
        Need::Fails { place, code } => Ok(Need::Fails { place, code }),
        Need::Lacks { first, others } => Ok(Need::Lacks { first, others }),
    }
}

// A page of the elements of an array.
#[tactic(auto, using(machine_model::proofs::PlanIds::need_chained))]
fn elements_page(
    alloc: Global,
    sight: Sight<'_>,
    array: u64,
    start: u32,
    count: u32,
) -> Result<Need<List<(Child, Value)>>, NoMemory>
    ensures { IfOk result (λ found. need_of found
        ≡ need (seen_by sight.entry) (elements_page start count array)) }
{
    match length_need(alloc, sight, array)? {
        Need::Has(total) => {
            let shown = count_from(total as usize, start, count);
            elements_valued(alloc, sight, array, start, shown)
        }
        Need::Fails { place, code } => Ok(Need::Fails { place, code }),
        Need::Lacks { first, others } => Ok(Need::Lacks { first, others }),
    }
}

fn none(alloc: Global) -> Need<List<(Child, Value)>>
    ensures { need_of result ≡ has [] }
{
    Need::Has(List::new(alloc))
}

// A page of an object's fields; null has none.
#[tactic(auto, unfolding(machine_model::specs::Plans::need))]
fn object_page(
    alloc: Global,
    sight: Sight<'_>,
    object: u64,
    start: u32,
    count: u32,
) -> Result<Need<List<(Child, Value)>>, NoMemory>
    ensures { IfOk result (λ found. need_of found
        ≡ need (seen_by sight.entry) (by_id object (gives []) (fields_page start count))) }
{
    if object == 0 {
        return Ok(none(alloc));
    }
    fields_page(alloc, sight, object, start, count)
}

// A page of an array's elements; null has none.
#[tactic(auto, unfolding(machine_model::specs::Plans::need))]
fn array_page(
    alloc: Global,
    sight: Sight<'_>,
    array: u64,
    start: u32,
    count: u32,
) -> Result<Need<List<(Child, Value)>>, NoMemory>
    ensures { IfOk result (λ found. need_of found
        ≡ need (seen_by sight.entry) (by_id array (gives []) (elements_page start count))) }
{
    if array == 0 {
        return Ok(none(alloc));
    }
    elements_page(alloc, sight, array, start, count)
}

// A page of a container's children, each with its value. Elements are indexed, all else is named.
#[tactic(auto, unfolding(machine_model::specs::Plans::need))]
fn page_need(
    alloc: Global,
    sight: Sight<'_>,
    thing: Thing,
    filter: Filter,
    start: u32,
    count: u32,
) -> Result<Need<List<(Child, Value)>>, NoMemory>
    ensures { IfOk result (λ found. need_of found
        ≡ need (seen_by sight.entry) (page_plan thing filter start count)) }
{
    match thing {
        Thing::Frame(_) => Ok(none(alloc)),
        Thing::Locals(frame) => match filter {
            Filter::Indexed => Ok(none(alloc)),
            Filter::Both => locals_page(alloc, sight, frame, start, count),
            Filter::Named => locals_page(alloc, sight, frame, start, count),
        },
        Thing::Object(object) => match filter {
            Filter::Indexed => Ok(none(alloc)),
            Filter::Both => object_page(alloc, sight, object.0, start, count),
            Filter::Named => object_page(alloc, sight, object.0, start, count),
        },
        Thing::Array(array) => match filter {
            Filter::Named => Ok(none(alloc)),
            Filter::Both => array_page(alloc, sight, array.0, start, count),
            Filter::Indexed => array_page(alloc, sight, array.0, start, count),
        },
    }
}

/// The children of a frame's scope, an object or an array, from this one on, and so many at most, where 0 is all: what
/// they come to by what was learnt and replied. The types of values are found where `types` holds. The time is that of the
/// children, and of all fields of an object. `NoMemory` comes where memory is refused, and where an element would be asked
/// for past 2^31 - 1 (DAP specification, Variables request; JDWP, StackFrame, ObjectReference and ArrayReference command
/// sets, GetValues).
#[tactic(auto, using(machine_model::proofs::PlanIds::need_chained))]
pub fn variables_need(
    alloc: Global,
    sight: Sight<'_>,
    types: bool,
    thing: Thing,
    filter: Filter,
    start: u32,
    count: u32,
) -> Result<Need<List<ShownVariable>>, NoMemory>
    ensures { IfOk result (λ found. need_of found
        ≡ need (seen_by sight.entry) (chained (page_plan thing filter start count) (shown_plan types))) }
{
    match page_need(alloc, sight, thing, filter, start, count)? {
        Need::Has(children) => shown_need(alloc, sight, types, children.as_slice()),
        Need::Fails { place, code } => Ok(Need::Fails { place, code }),
        Need::Lacks { first, others } => Ok(Need::Lacks { first, others }),
    }
}
