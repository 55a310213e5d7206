//! The variables of a frame, and the receiver before them (JDWP, StackFrame command set, ThisObject; JDWP, Method
//! command set, VariableTable).
ghost use Rattle.std.specs.Prelude.{◌≡◌, IfOk};
ghost use Rattle.machine_model.specs.Children.{locals_plan, of_variable, visible_at, visible_plan, with_this};
ghost use Rattle.machine_model.specs.Plans.{need};
ghost use Rattle.machine_model.specs.Writing.{is_this, sought_in};
ghost use Rattle.look_ups.specs.Needs.{need_of, need_with, seen_by};

use crate::children::{Child, Place};
use jdwp_commands::Slot;
use jdwp_values::{Value, Variable, lossy};
use look_ups::{
    Declared, Need, Sight, both, by_slot, first_byte, method_variables, object_named, this_need,
};
use std::alloc::Global;
use std::collections::VecDeque;
use stop_refs::FrameThing;
use wire_core::{Blob, NoMemory, Text};

fn of_variable(alloc: Global, variable: &Variable) -> Result<Child, NoMemory>
    ensures { IfOk result (λ child. child ≡ of_variable variable.now) }
{
    let signature = variable.signature.as_slice();
    Ok(Child {
        name: lossy(alloc, variable.name.as_slice())?,
        declared: Declared::Signature(Blob::from_slice(alloc, signature)?),
        place: Place::Slot(Slot {
            slot: variable.slot,
            tag: first_byte(signature),
        }),
    })
}

// The variables that are visible at a code index, in order of their slots.
fn visible_at(
    alloc: Global,
    index: u64,
    variables: &[Variable],
) -> Result<VecDeque<Child>, NoMemory>
    ensures { IfOk result (λ children. children.items ≡ visible_at index variables.now) }
{
    let sorted = by_slot(alloc, index, variables)?;
    let mut children = VecDeque::new(alloc);
    for variable in sorted.as_slice() {
        children.push_back(of_variable(alloc, variable)?)?;
    }
    Ok(children)
}

// The variables of a frame that are visible where it stands.
#[tactic(auto, using(machine_model::proofs::PlanIds::need_made))]
fn visible_need(
    alloc: Global,
    sight: Sight<'_>,
    frame: FrameThing,
) -> Result<Need<VecDeque<Child>>, NoMemory>
    ensures { IfOk result (λ found. need_with (λ children. children.items) found
        ≡ need (seen_by sight.entry) (visible_plan frame)) }
{
    match method_variables(alloc, sight, frame.at.class, frame.at.method)? {
        Need::Has(variables) => Ok(Need::Has(visible_at(alloc, frame.at.index, variables)?)),
        Need::Fails { place, code } => Ok(Need::Fails { place, code }),
        Need::Lacks { first, others } => Ok(Need::Lacks { first, others }),
    }
}

// The receiver stands before the variables, unless it is null.
fn with_this(
    alloc: Global,
    value: Value,
    mut children: VecDeque<Child>,
) -> Result<VecDeque<Child>, NoMemory>
    ensures { IfOk result (λ all. all.items ≡ with_this (value, children.items)) }
{
    if object_named(value) != 0 {
        children.push_front(Child {
            name: Text::from_str(alloc, "this")?,
            declared: Declared::Signature(Blob::new(alloc)),
            place: Place::Known(value),
        })?;
    }
    Ok(children)
}

/// The variables of a frame that are visible where it stands, behind the receiver of its method.
#[tactic(auto, using(crate::proofs::NeedLaws::beside_with, machine_model::proofs::PlanIds::need_made), unfolding(machine_model::specs::Plans::need))]
pub(crate) fn locals_need(
    alloc: Global,
    sight: Sight<'_>,
    frame: FrameThing,
) -> Result<Need<VecDeque<Child>>, NoMemory>
    ensures { IfOk result (λ found. need_with (λ children. children.items) found
        ≡ need (seen_by sight.entry) (locals_plan frame)) }
{
    let this = this_need(alloc, sight, frame)?;
    match both(this, visible_need(alloc, sight, frame)?)? {
        Need::Has((value, children)) => Ok(Need::Has(with_this(alloc, value, children)?)),
        Need::Fails { place, code } => Ok(Need::Fails { place, code }),
        Need::Lacks { first, others } => Ok(Need::Lacks { first, others }),
    }
}

/// The children of a frame among which a name is sought: the receiver of its method is asked for only where that is
/// `this`.
pub(crate) fn sought_need(
    alloc: Global,
    sight: Sight<'_>,
    frame: FrameThing,
    name: &Text,
) -> Result<Need<VecDeque<Child>>, NoMemory>
    ensures { IfOk result (λ found. need_with (λ children. children.items) found
        ≡ need (seen_by sight.entry) (sought_in frame (is_this name.now))) }
{
    if "this".as_bytes() == name.as_bytes() {
        locals_need(alloc, sight, frame)
    } else {
        visible_need(alloc, sight, frame)
    }
}
