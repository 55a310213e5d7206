//! Children of a container, each with its value, as they are shown.
ghost use Rattle.std.specs.Prelude.{◌≡◌, ◌≤◌, IfOk};
ghost use Rattle.machine_model.specs.Plans.{need};
ghost use Rattle.machine_model.specs.Variables.{child_plan, shown_plan};
ghost use Rattle.look_ups.specs.Needs.{need_of, seen_by};

use crate::children::Child;
use jdwp_values::Value;
use look_ups::{Need, Sight, beside_others, listed, seen_need};
use machine_model::{Seen, ShownVariable};
use std::alloc::Global;
use std::collections::VecDeque;
use wire_core::{List, NoMemory, Text};

fn shown_as(alloc: Global, child: &Child, seen: Seen) -> Result<ShownVariable, NoMemory>
    ensures { IfOk result (λ shown. shown ≡ record { name = child.now.name; seen = seen }) }
{
    Ok(ShownVariable {
        name: Text::from_str(alloc, child.name.as_str())?,
        seen,
    })
}

// A child with its value, as it is shown.
#[tactic(auto, using(machine_model::proofs::PlanIds::need_made))]
fn child_need(
    alloc: Global,
    sight: Sight<'_>,
    types: bool,
    child: &(Child, Value),
) -> Result<Need<ShownVariable>, NoMemory>
    ensures { IfOk result (λ found. need_of found ≡ need (seen_by sight.entry) (child_plan types child.now)) }
{
    match seen_need(alloc, sight, types, child.1, &child.0.declared)? {
        Need::Has(seen) => Ok(Need::Has(shown_as(alloc, &child.0, seen)?)),
        Need::Fails { place, code } => Ok(Need::Fails { place, code }),
        Need::Lacks { first, others } => Ok(Need::Lacks { first, others }),
    }
}

/// Children with their values, as they are shown, all side by side. The time is that of the children.
#[tactic(auto, unfolding(machine_model::specs::Plans::need, machine_model::specs::Plans::each))]
pub(crate) fn shown_need(
    alloc: Global,
    sight: Sight<'_>,
    types: bool,
    children: &[(Child, Value)],
) -> Result<Need<List<ShownVariable>>, NoMemory>
    ensures { IfOk result (λ found. need_of found ≡ need (seen_by sight.entry) (shown_plan types children.now)) }
{
    let mut found = Need::Has(VecDeque::new(alloc));
    let mut place = children.len();
    while place > 0 {
        place -= 1;
        let child = child_need(alloc, sight, types, &children[place])?;
        found = beside_others(child, found)?;
    }
    Ok(listed(found))
}
