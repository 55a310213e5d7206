//! What `evaluate` shows: the value of an expression in a frame (DAP specification, Evaluate request; Java Language
//! Specification, Expressions).
ghost use Rattle.std.specs.Prelude.{◌≡◌, None, Some, Ok, IfOk, option_copied};
ghost use Rattle.field_exprs.specs.declared.expr.Head.TheVariants as heads;
ghost use Rattle.machine_model.specs.Children.{this_plan};
ghost use Rattle.machine_model.specs.Expressions.{as_this, head_in, hops_on, named_head, named_in, on_value, one_of};
ghost use Rattle.machine_model.specs.Expressions.{shown_value, value_plan, variable_named};
ghost use Rattle.machine_model.specs.Plans.{made_with, need};
ghost use Rattle.machine_model.specs.Values.{is_signature};
ghost use Rattle.machine_model.specs.Variables.{slots_plan};
ghost use Rattle.look_ups.specs.Needs.{need_of, need_with, seen_by};
ghost use Rattle.expression_values.specs.Shown.{value_said};

use crate::sought::{Sought, Valued, missing, one_of};
use crate::steps::{hops_on, name_on};
use dap_messages::Failure;
use field_exprs::{Expr, Head, Hop};
use jdwp_commands::Slot;
use jdwp_values::{Value, Variable};
use look_ups::{
    Declared, Need, Sight, by_slot, first_byte, method_variables, object_named, seen_need,
    slots_heard, this_need,
};
use machine_model::Seen;
use std::alloc::Global;
use stop_refs::FrameThing;
use wire_core::{Blob, List, NoMemory};

// The receiver, which a static method has none of.
fn as_this(alloc: Global, value: Value) -> Sought
    ensures { result ≡ as_this value }
{
    if object_named(value) == 0 {
        Err(Failure::no_such_name())
    } else {
        Ok(Valued {
            value,
            declared: Declared::Signature(Blob::new(alloc)),
        })
    }
}

// The receiver as the head of an expression.
#[tactic(auto, using(machine_model::proofs::PlanIds::need_made))]
fn this_head(alloc: Global, sight: Sight<'_>, frame: FrameThing) -> Result<Need<Sought>, NoMemory>
    ensures { IfOk result (λ found. need_of found
        ≡ need (seen_by sight.entry) (made_with as_this (this_plan frame))) }
{
    match this_need(alloc, sight, frame)? {
        Need::Has(value) => Ok(Need::Has(as_this(alloc, value))),
        Need::Fails { place, code } => Ok(Need::Fails { place, code }),
        Need::Lacks { first, others } => Ok(Need::Lacks { first, others }),
    }
}

// The first variable of a name, of those that are visible at a code index.
fn variable_named<'a>(
    alloc: Global,
    name: &[u8],
    index: u64,
    variables: &'a [Variable],
) -> Result<Option<&'a Variable>, NoMemory>
    ensures { IfOk result (λ found. option_copied found ≡ variable_named name.now index variables.now) }
{
    let sorted = by_slot(alloc, index, variables)?;
    for variable in sorted.as_slice() {
        if variable.name.as_slice() == name {
            return Ok(Some(*variable));
        }
    }
    Ok(None)
}

// The value that was asked for of slots, by its variable's signature (JDWP, StackFrame command set, GetValues).
#[tactic(auto, using(machine_model::proofs::PlanIds::need_made))]
fn slot_value(
    alloc: Global,
    sight: Sight<'_>,
    frame: FrameThing,
    slots: List<Slot>,
    signature: &[u8],
) -> Result<Need<Sought>, NoMemory>
    ensures { IfOk result (λ found. need_of found ≡ need (seen_by sight.entry)
        (made_with (one_of (is_signature signature.now)) (slots_plan frame slots))) }
{
    match slots_heard(alloc, sight, frame, slots)? {
        Need::Has(values) => {
            let declared = Declared::Signature(Blob::from_slice(alloc, signature)?);
            Ok(Need::Has(one_of(declared, values)))
        }
        Need::Fails { place, code } => Ok(Need::Fails { place, code }),
        Need::Lacks { first, others } => Ok(Need::Lacks { first, others }),
    }
}

// The value of a variable.
fn variable_head(
    alloc: Global,
    sight: Sight<'_>,
    frame: FrameThing,
    name: &[u8],
    variable: &Variable,
) -> Result<Need<Sought>, NoMemory>
    ensures { IfOk result (λ found. need_of found
        ≡ need (seen_by sight.entry) (named_head frame name.now (Some variable.now))) }
{
    let signature = variable.signature.as_slice();
    let mut slots = List::new(alloc);
    slots.push(Slot {
        slot: variable.slot,
        tag: first_byte(signature),
    })?;
    slot_value(alloc, sight, frame, slots, signature)
}

// A field of the receiver (Java Language Specification, Names, Simple Expression Names).
#[tactic(auto, using(machine_model::proofs::PlanIds::need_chained))]
fn field_head(
    alloc: Global,
    sight: Sight<'_>,
    frame: FrameThing,
    name: &[u8],
) -> Result<Need<Sought>, NoMemory>
    ensures { IfOk result (λ found. need_of found
        ≡ need (seen_by sight.entry) (named_head frame name.now None)) }
{
    match this_need(alloc, sight, frame)? {
        Need::Has(value) => name_on(alloc, sight, name, value),
        Need::Fails { place, code } => Ok(Need::Fails { place, code }),
        Need::Lacks { first, others } => Ok(Need::Lacks { first, others }),
    }
}

// A variable, else a field of the receiver.
fn named_head(
    alloc: Global,
    sight: Sight<'_>,
    frame: FrameThing,
    name: &[u8],
    variable: Option<&Variable>,
) -> Result<Need<Sought>, NoMemory>
    ensures { IfOk result (λ found. need_of found
        ≡ need (seen_by sight.entry) (named_head frame name.now (option_copied variable.entry))) }
{
    match variable {
        None => field_head(alloc, sight, frame, name),
        Some(variable) => variable_head(alloc, sight, frame, name, variable),
    }
}

// A name as the head of an expression.
#[tactic(auto, using(machine_model::proofs::PlanIds::need_chained))]
fn name_head(
    alloc: Global,
    sight: Sight<'_>,
    frame: FrameThing,
    name: &[u8],
) -> Result<Need<Sought>, NoMemory>
    ensures { IfOk result (λ found. need_of found
        ≡ need (seen_by sight.entry) (head_in frame (heads.Name name.now))) }
{
    match method_variables(alloc, sight, frame.at.class, frame.at.method)? {
        Need::Has(variables) => {
            let variable = variable_named(alloc, name, frame.at.index, variables)?;
            named_head(alloc, sight, frame, name, variable)
        }
        Need::Fails { place, code } => Ok(Need::Fails { place, code }),
        Need::Lacks { first, others } => Ok(Need::Lacks { first, others }),
    }
}

// Where an expression begins.
fn head_in(
    alloc: Global,
    sight: Sight<'_>,
    frame: FrameThing,
    head: &Head,
) -> Result<Need<Sought>, NoMemory>
    ensures { IfOk result (λ found. need_of found ≡ need (seen_by sight.entry) (head_in frame head.now)) }
{
    match head {
        Head::This => this_head(alloc, sight, frame),
        Head::Name(name) => name_head(alloc, sight, frame, name.as_bytes()),
    }
}

// The steps from where an expression begins, if there is a value.
#[tactic(auto, unfolding(machine_model::specs::Plans::need))]
fn steps_from(
    alloc: Global,
    sight: Sight<'_>,
    steps: &[Hop],
    head: Sought,
) -> Result<Need<Sought>, NoMemory>
    ensures { IfOk result (λ found. need_of found
        ≡ need (seen_by sight.entry) (on_value (hops_on steps.now) head)) }
{
    match head {
        Ok(head) => hops_on(alloc, sight, steps, head),
        Err(failure) => Ok(missing(failure)),
    }
}

/// What an expression names in a frame, with the place that it stands in, or why there is no value, by what was learnt
/// and replied. A name is that of the first visible variable, else of a field of the receiver; an array has the field
/// `length` alone. The time is that of the method's variables in order of their slots, and of the fields of the classes
/// that are searched. `NoMemory` comes where memory is refused, and where an array's length would be 2^31 or more (Java
/// Language Specification, Expressions, Field Access Expressions and Array Access Expressions).
#[tactic(auto, using(machine_model::proofs::PlanIds::need_chained))]
pub fn sought_need(
    alloc: Global,
    sight: Sight<'_>,
    frame: FrameThing,
    expression: &Expr,
) -> Result<Need<Sought>, NoMemory>
    ensures { IfOk result (λ found. need_of found ≡ need (seen_by sight.entry) (named_in frame expression.now)) }
{
    match head_in(alloc, sight, frame, &expression.head)? {
        Need::Has(head) => steps_from(alloc, sight, expression.steps.as_slice(), head),
        Need::Fails { place, code } => Ok(Need::Fails { place, code }),
        Need::Lacks { first, others } => Ok(Need::Lacks { first, others }),
    }
}

// A value as variables are shown.
#[tactic(auto, using(machine_model::proofs::PlanIds::need_made))]
fn value_shown(
    alloc: Global,
    sight: Sight<'_>,
    types: bool,
    found: &Valued,
) -> Result<Need<Result<Seen, Failure>>, NoMemory>
    ensures { IfOk result (λ shown. need_with value_said shown
        ≡ need (seen_by sight.entry) (shown_value types (Ok found.now))) }
{
    match seen_need(alloc, sight, types, found.value, &found.declared)? {
        Need::Has(seen) => Ok(Need::Has(Ok(seen))),
        Need::Fails { place, code } => Ok(Need::Fails { place, code }),
        Need::Lacks { first, others } => Ok(Need::Lacks { first, others }),
    }
}

// What was sought, as it is shown.
#[tactic(auto, unfolding(machine_model::specs::Plans::need))]
fn sought_shown(
    alloc: Global,
    sight: Sight<'_>,
    types: bool,
    sought: Sought,
) -> Result<Need<Result<Seen, Failure>>, NoMemory>
    ensures { IfOk result (λ shown. need_with value_said shown
        ≡ need (seen_by sight.entry) (shown_value types sought)) }
{
    match sought {
        Ok(found) => value_shown(alloc, sight, types, &found),
        Err(failure) => Ok(Need::Has(Err(failure))),
    }
}

/// The value of an expression in a frame as it is shown, or why there is none, by what was learnt and replied: what
/// `sought_need` comes to, and what is heard of it. Its type is found where `types` holds. `NoMemory` comes where memory
/// is refused, and where an array's length would be 2^31 or more (DAP specification, Evaluate request).
#[tactic(auto, using(machine_model::proofs::PlanIds::need_chained))]
pub fn value_need(
    alloc: Global,
    sight: Sight<'_>,
    types: bool,
    frame: FrameThing,
    expression: &Expr,
) -> Result<Need<Result<Seen, Failure>>, NoMemory>
    ensures { IfOk result (λ found. need_with value_said found
        ≡ need (seen_by sight.entry) (value_plan types frame expression.now)) }
{
    match sought_need(alloc, sight, frame, expression)? {
        Need::Has(sought) => sought_shown(alloc, sight, types, sought),
        Need::Fails { place, code } => Ok(Need::Fails { place, code }),
        Need::Lacks { first, others } => Ok(Need::Lacks { first, others }),
    }
}
