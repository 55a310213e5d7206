//! What `setVariable` writes to the child of a container that has a name (DAP specification, SetVariable request).
ghost use Rattle.std.specs.Prelude.{◌≡◌, ◌≢◌, ◌≤◌, ◌<◌, ◌^◌, ◌++◌, ℕ, List, true, false, IfOk, MatchOption, bytes_eq, codes};
ghost use Rattle.std.specs.Prelude.{length, nat_lt, option_map};
ghost use Rattle.std.specs.Char.{is_ascii_digit};
ghost use Rattle.std.specs.List.{list_all};
ghost use Rattle.std.specs.Str.Parse.{digits_value};
ghost use Rattle.machine_model.specs.Children.{index_name};
ghost use Rattle.machine_model.specs.declared.parts.Finding.TheVariants.{NoValue as no_value};
ghost use Rattle.machine_model.specs.Plans.{gives, has, need};
ghost use Rattle.machine_model.specs.Values.{by_id};
ghost use Rattle.machine_model.specs.Writing.{child_named, child_written, digits_of, element_by};
ghost use Rattle.machine_model.specs.Writing.{element_written, field_store, field_written, index_written, is_index_name};
ghost use Rattle.machine_model.specs.Writing.{local_written, slot_store, write_by};
ghost use Rattle.dap_messages.specs.Telling.{no_such_name};
ghost use Rattle.look_ups.specs.Needs.{need_with, seen_by};
ghost use Rattle.child_pages.specs.Shown.{write_said, writing_of};

use crate::children::Child;
use crate::fields::object_fields;
use crate::locals::sought_need;
use crate::paired::of_index;
use crate::writing::{Writing, Written, element_store, field_store, place_written, slot_store};
use dap_messages::Failure;
use look_ups::{Need, Sight, length_need};
use machine_model::{Seen, Write};
use std::alloc::Global;
use stop_refs::{FrameThing, Thing};
use wire_core::{NoMemory, Text};

// No child has this name.
fn no_child() -> Need<Written>
    ensures { need_with write_said result ≡ has (no_value no_such_name) }
{
    Need::Has(Err(Failure::no_such_name()))
}

// The first child of a name.
fn child_named<'a>(name: &[u8], children: &'a [Child]) -> Option<&'a Child>
    ensures { option_map (λ child. child.now) result ≡ child_named name.now children.now }
{
    for child in children {
        if child.name.as_bytes() == name {
            return Some(child);
        }
    }
    None
}

// Variables of a frame --------------------------------------------------------------------------------------------------

#[tactic(auto, unfolding(machine_model::specs::Plans::need))]
fn written_local(
    alloc: Global,
    sight: Sight<'_>,
    writing: Writing<'_>,
    frame: FrameThing,
    child: Option<&Child>,
) -> Result<Need<Written>, NoMemory>
    ensures { IfOk result (λ found. need_with write_said found ≡ need (seen_by sight.entry)
        (child_written (writing_of writing.entry) (slot_store frame) (option_map (λ one. one.now) child.entry))) }
{
    match child {
        None => Ok(no_child()),
        Some(child) => {
            let store = slot_store(frame, child.place);
            place_written(alloc, sight, writing, store, &child.declared)
        }
    }
}

#[tactic(auto, using(machine_model::proofs::PlanIds::need_chained))]
fn local_written(
    alloc: Global,
    sight: Sight<'_>,
    writing: Writing<'_>,
    frame: FrameThing,
    name: &Text,
) -> Result<Need<Written>, NoMemory>
    ensures { IfOk result (λ found. need_with write_said found
        ≡ need (seen_by sight.entry) (local_written (writing_of writing.entry) frame name.now)) }
{
    match sought_need(alloc, sight, frame, name)? {
        Need::Has(children) => {
            let children = Vec::from(children);
            let child = child_named(name.as_bytes(), children.as_slice());
            written_local(alloc, sight, writing, frame, child)
        }
        Need::Fails { place, code } => Ok(Need::Fails { place, code }),
        Need::Lacks { first, others } => Ok(Need::Lacks { first, others }),
    }
}

// Fields of an object ---------------------------------------------------------------------------------------------------

#[tactic(auto, unfolding(machine_model::specs::Plans::need))]
fn written_field(
    alloc: Global,
    sight: Sight<'_>,
    writing: Writing<'_>,
    object: u64,
    child: Option<&Child>,
) -> Result<Need<Written>, NoMemory>
    ensures { IfOk result (λ found. need_with write_said found ≡ need (seen_by sight.entry)
        (child_written (writing_of writing.entry) (field_store object) (option_map (λ one. one.now) child.entry))) }
{
    match child {
        None => Ok(no_child()),
        Some(child) => {
            let store = field_store(object, child.place);
            place_written(alloc, sight, writing, store, &child.declared)
        }
    }
}

#[tactic(auto, using(machine_model::proofs::PlanIds::need_chained))]
fn field_written(
    alloc: Global,
    sight: Sight<'_>,
    writing: Writing<'_>,
    name: &Text,
    object: u64,
) -> Result<Need<Written>, NoMemory>
    ensures { IfOk result (λ found. need_with write_said found
        ≡ need (seen_by sight.entry) (field_written (writing_of writing.entry) name.now object)) }
{
    match object_fields(alloc, sight, object)? {
        Need::Has(children) => {
            let children = Vec::from(children);
            let child = child_named(name.as_bytes(), children.as_slice());
            written_field(alloc, sight, writing, object, child)
        }
        Need::Fails { place, code } => Ok(Need::Fails { place, code }),
        Need::Lacks { first, others } => Ok(Need::Lacks { first, others }),
    }
}

// Elements of an array --------------------------------------------------------------------------------------------------

fn are_digits(bytes: &[u8]) -> bool
    ensures { result ≡ list_all is_ascii_digit bytes.now }
{
    bytes.iter().all(|byte| byte.is_ascii_digit())
}

// What stands between the brackets of a name.
fn between_brackets(name: &str) -> Option<&str>
    ensures { MatchOption result ((inside : List ℕ) → name.now ≢ codes "[" ++ inside ++ codes "]")
        (λ inside. name.now ≡ codes "[" ++ inside.now ++ codes "]") }
{
    let Some(rest) = name.strip_prefix('[') else {
        return None;
    };
    rest.strip_suffix(']')
}

// The digits of a name that is digits between brackets.
#[tactic(auto, using(crate::proofs::WriteLaws::index_some, crate::proofs::WriteLaws::index_none))]
fn index_digits(name: &str) -> Option<&str>
    ensures { MatchOption result (is_index_name name.now ≡ false)
        (λ digits. (is_index_name name.now ≡ true) × (digits.now ≡ digits_of name.now)) }
{
    match between_brackets(name) {
        None => None,
        Some(digits) => {
            if digits.is_empty() {
                None
            } else if are_digits(digits.as_bytes()) {
                Some(digits)
            } else {
                None
            }
        }
    }
}

// The number that digits write, where an array may have as many elements.
fn index_of(digits: &str) -> Option<u32>
    requires { (0 < length digits.now) × (list_all is_ascii_digit digits.now ≡ true) }
    ensures { MatchOption result (2 ^ 32 ≤ digits_value 10 digits.now) (λ index. index ≡ digits_value 10 digits.now) }
{
    digits.parse().ok()
}

// An element is written where its name is that of its index.
#[tactic(auto, unfolding(machine_model::specs::Plans::need))]
fn inside_written(
    alloc: Global,
    sight: Sight<'_>,
    writing: Writing<'_>,
    name: &Text,
    array: u64,
    index: u32,
) -> Result<Need<Written>, NoMemory>
    ensures { IfOk result (λ found. need_with write_said found ≡ need (seen_by sight.entry)
        (element_by (writing_of writing.entry) true (bytes_eq name.now (index_name index)) array index)) }
{
    let child = of_index(alloc, array, index)?;
    if name.as_bytes() == child.name.as_bytes() {
        let store = element_store(array, child.place)?;
        place_written(alloc, sight, writing, store, &child.declared)
    } else {
        Ok(no_child())
    }
}

// An element is written; an index outside the array is a bad one.
#[tactic(auto, unfolding(machine_model::specs::Plans::need))]
fn element_by(
    alloc: Global,
    sight: Sight<'_>,
    writing: Writing<'_>,
    name: &Text,
    array: u64,
    index: Option<u32>,
    total: u32,
) -> Result<Need<Written>, NoMemory>
    ensures { (i : ℕ) → MatchOption index (2 ^ 32 ≤ i) (λ one. one ≡ i) → IfOk result (λ found. need_with write_said found
        ≡ need (seen_by sight.entry)
        (element_by (writing_of writing.entry) (nat_lt i total) (bytes_eq name.now (index_name i)) array i)) }
{
    match index {
        None => Ok(Need::Has(Err(Failure::bad_index()))),
        Some(index) => {
            if index < total {
                inside_written(alloc, sight, writing, name, array, index)
            } else {
                Ok(Need::Has(Err(Failure::bad_index())))
            }
        }
    }
}

#[tactic(auto, using(machine_model::proofs::PlanIds::need_chained))]
fn element_written(
    alloc: Global,
    sight: Sight<'_>,
    writing: Writing<'_>,
    name: &Text,
    array: u64,
    index: Option<u32>,
) -> Result<Need<Written>, NoMemory>
    ensures { (i : ℕ) → MatchOption index (2 ^ 32 ≤ i) (λ one. one ≡ i) → IfOk result (λ found. need_with write_said found
        ≡ need (seen_by sight.entry) (element_written (writing_of writing.entry) name.now i array)) }
{
    match length_need(alloc, sight, array)? {
        Need::Has(total) => element_by(alloc, sight, writing, name, array, index, total),
        Need::Fails { place, code } => Ok(Need::Fails { place, code }),
        Need::Lacks { first, others } => Ok(Need::Lacks { first, others }),
    }
}

// What is written to an array's element of this name.
#[tactic(auto, unfolding(machine_model::specs::Plans::need))]
fn index_written(
    alloc: Global,
    sight: Sight<'_>,
    writing: Writing<'_>,
    name: &Text,
    array: u64,
) -> Result<Need<Written>, NoMemory>
    ensures { IfOk result (λ found. need_with write_said found
        ≡ need (seen_by sight.entry) (index_written (writing_of writing.entry) name.now (is_index_name name.now) array)) }
{
    match index_digits(name.as_str()) {
        None => Ok(no_child()),
        Some(digits) => element_written(alloc, sight, writing, name, array, index_of(digits)),
    }
}

// The containers ----------------------------------------------------------------------------------------------------------

#[tactic(auto, unfolding(machine_model::specs::Plans::need))]
fn object_written(
    alloc: Global,
    sight: Sight<'_>,
    writing: Writing<'_>,
    object: u64,
    name: &Text,
) -> Result<Need<Written>, NoMemory>
    ensures { IfOk result (λ found. need_with write_said found ≡ need (seen_by sight.entry)
        (by_id object (gives (no_value no_such_name)) (field_written (writing_of writing.entry) name.now))) }
{
    if object == 0 {
        Ok(no_child())
    } else {
        field_written(alloc, sight, writing, name, object)
    }
}

#[tactic(auto, unfolding(machine_model::specs::Plans::need))]
fn array_written(
    alloc: Global,
    sight: Sight<'_>,
    writing: Writing<'_>,
    array: u64,
    name: &Text,
) -> Result<Need<Written>, NoMemory>
    ensures { IfOk result (λ found. need_with write_said found ≡ need (seen_by sight.entry)
        (by_id array (gives (no_value no_such_name)) (index_written (writing_of writing.entry) name.now (is_index_name name.now)))) }
{
    if array == 0 {
        Ok(no_child())
    } else {
        index_written(alloc, sight, writing, name, array)
    }
}

/// What is written to the child of a container that has a name, and how it is shown; or why nothing is. Types are shown where
/// `types` holds, and an object's id takes `size` bytes. `NoMemory` comes where memory is refused, and for an index above
/// 2^31 - 1 (DAP specification, SetVariable request).
#[tactic(auto, unfolding(machine_model::specs::Plans::need))]
pub fn write_need(
    alloc: Global,
    sight: Sight<'_>,
    types: bool,
    size: u32,
    thing: Thing,
    name: &Text,
    text: &Text,
) -> Result<Need<Result<(Write, Seen), Failure>>, NoMemory>
    ensures { IfOk result (λ found. need_with write_said found ≡ need (seen_by sight.entry)
        (write_by (record { types = types; size = size; text = text.now }) thing name.now)) }
{
    let writing = Writing { types, size, text };
    match thing {
        Thing::Frame(_) => Ok(no_child()),
        Thing::Locals(frame) => local_written(alloc, sight, writing, frame, name),
        Thing::Object(object) => object_written(alloc, sight, writing, object.0, name),
        Thing::Array(array) => array_written(alloc, sight, writing, array.0, name),
    }
}
