//! A page of children, and their values beside them.
ghost use Rattle.std.specs.Prelude.{◌≡◌, ◌≤◌, ◌+◌, ◌<◌, ◌++◌, zip, IfOk, OnOk};
ghost use Rattle.machine_model.specs.Children.{elements_of, of_index};
ghost use Rattle.machine_model.specs.Frames.{count_from};
ghost use Rattle.machine_model.specs.Variables.{fields_of, page, slots_of, values_known, with_known};

use crate::children::{Child, Place};
use jdwp_commands::Slot;
use jdwp_values::{FieldId, Value};
use look_ups::Declared;
use std::alloc::Global;
use std::collections::VecDeque;
use wire_core::{List, NoMemory, Text};

// So many children are shown at most.
const MOST_CHILDREN: u32 = 10_000;

/// The slots of children that stand in one.
pub(crate) fn slots_of(alloc: Global, children: &[Child]) -> Result<List<Slot>, NoMemory>
    ensures { IfOk result (λ slots. slots ≡ slots_of children.now) }
{
    let mut slots = List::new(alloc);
    for child in children {
        if let Place::Slot(slot) = child.place {
            slots.push(slot)?;
        }
    }
    Ok(slots)
}

/// The fields of children that stand in one.
pub(crate) fn fields_of(alloc: Global, children: &[Child]) -> Result<List<FieldId>, NoMemory>
    ensures { IfOk result (λ fields. fields ≡ fields_of children.now) }
{
    let mut fields = List::new(alloc);
    for child in children {
        if let Place::Field(field) = child.place {
            fields.push(field)?;
        }
    }
    Ok(fields)
}

// The values of children that are known.
fn values_known(alloc: Global, children: &[Child]) -> Result<List<Value>, NoMemory>
    ensures { IfOk result (λ values. values ≡ values_known children.now) }
{
    let mut values = List::new(alloc);
    for child in children {
        if let Place::Known(value) = child.place {
            values.push(value)?;
        }
    }
    Ok(values)
}

fn add_values(values: &mut List<Value>, found: &[Value]) -> Result<(), NoMemory>
    ensures { OnOk result (values.new ≡ values.old ++ found.now) }
{
    for value in found {
        values.push(*value)?;
    }
    Ok(())
}

/// Children, each with its value, as many as there are of both.
pub(crate) fn zipped(
    alloc: Global,
    mut children: VecDeque<Child>,
    values: &[Value],
) -> Result<List<(Child, Value)>, NoMemory>
    ensures { IfOk result (λ pairs. pairs ≡ zip children.items values.now) }
{
    let mut pairs = List::new(alloc);
    let mut place = 0;
    while let Some(child) = children.pop_front() {
        if place == values.len() {
            return Ok(pairs);
        }
        pairs.push((child, values[place]))?;
        place += 1;
    }
    Ok(pairs)
}

/// The receiver, whose value is known, stands before the others.
pub(crate) fn with_known(
    alloc: Global,
    children: Vec<Child>,
    found: &[Value],
) -> Result<List<(Child, Value)>, NoMemory>
    ensures { IfOk result (λ pairs. pairs ≡ with_known children.items found.now) }
{
    let mut values = values_known(alloc, children.as_slice())?;
    add_values(&mut values, found)?;
    zipped(alloc, VecDeque::from(children), values.as_slice())
}

/// So many are shown from a place on: as many as are asked for, where 0 is all.
pub(crate) fn count_from(total: usize, start: u32, count: u32) -> u32
    ensures shown { result ≡ count_from total start count }
    ensures few { result ≤ 10000 }
{
    let left = total
        .saturating_sub(start as usize)
        .min(MOST_CHILDREN as usize) as u32;
    if count == 0 { left } else { count.min(left) }
}

/// A page of children.
pub(crate) fn page(
    mut children: VecDeque<Child>,
    start: u32,
    count: u32,
) -> Result<Vec<Child>, NoMemory>
    ensures { IfOk result (λ shown. shown.items ≡ page start count children.items) }
{
    let total = children.len();
    let mut shown = children.split_off(total.min(start as usize))?;
    shown.truncate(count_from(total, start, count) as usize);
    Ok(Vec::from(shown))
}

pub(crate) fn of_index(alloc: Global, array: u64, index: u32) -> Result<Child, NoMemory>
    ensures { IfOk result (λ child. child ≡ of_index array index) }
{
    Ok(Child {
        name: Text::from_string(format!(in alloc; "[{index}]")?),
        declared: Declared::ElementOf(array),
        place: Place::Index(index),
    })
}

/// The elements of an array from a place on, so many of them.
#[tactic(auto, using(crate::proofs::PageLaws::one_element))]
pub(crate) fn elements_of(
    alloc: Global,
    array: u64,
    start: u32,
    count: u32,
) -> Result<VecDeque<Child>, NoMemory>
    requires { start + count < 4294967296 }
    ensures { IfOk result (λ children. children.items ≡ elements_of array start count) }
{
    let mut children = VecDeque::new(alloc);
    for place in 0..count {
        children.push_back(of_index(alloc, array, start + place)?)?;
    }
    Ok(children)
}
