//! How the variables of a frame and the children of a container are told, each under its number.
ghost use Rattle.std.specs.Prelude.{◌≡◌, filter_map, map, option_to_list, IfOk, OnOk};
ghost use Rattle.machine_model.specs.References.{with_things};
ghost use Rattle.machine_model.specs.Variables.{reference_of, value_told, variable_told};
ghost use Rattle.machine_model.specs.declared.parts.ShownVariable.{ShownVariable as AVariable};
ghost use Rattle.stop_refs.specs.Numbers.{number_of, with_thing};
ghost use Rattle.stop_refs.specs.declared.thing.Thing.TheVariants.{Locals as some_locals};
ghost use Rattle.session_facts.specs.Numbering.{has_stop, stop_of};

use crate::numbers::Numbers;
use crate::references::{number_things, value_things, variable_things};
use dap_messages::{Evaluated, Variable, Written};
use machine_model::{Seen, ShownVariable};
use std::alloc::Global;
use stop_refs::{FrameThing, Stop, Thing};
use wire_core::{List, NoMemory, Text};

// The number of a thing that was told.
fn number_of(numbers: &Numbers, thing: &Thing) -> Result<u32, NoMemory>
    ensures { IfOk result (λ number. number ≡ number_of thing.now (stop_of numbers.now)) }
{
    match numbers {
        Numbers::Running(_) => Err(NoMemory),
        Numbers::Stopped(stop) => stop.number_told(thing).ok_or(NoMemory),
    }
}

/// The number of a frame's variables, once they have one. `NoMemory` comes where memory is refused, where the number has
/// no room, and where no stop is in hand (DAP specification, Types, Scope, variablesReference).
pub fn scope_told(numbers: &mut Numbers, frame: FrameThing) -> Result<u32, NoMemory>
    ensures told { IfOk result (λ number. number
        ≡ number_of (some_locals frame) (with_thing (some_locals frame) (stop_of numbers.old))) }
    ensures numbers { OnOk result (stop_of numbers.new ≡ with_thing (some_locals frame) (stop_of numbers.old)) }
    ensures stopped { OnOk result (has_stop numbers.new ≡ has_stop numbers.old) }
{
    let locals = Thing::Locals(frame);
    number_things(numbers, &[locals])?;
    number_of(numbers, &locals)
}

// The number of a container that was told, 0 of a value that is none (DAP specification, Types, Variable,
// variablesReference).
fn reference_of(stop: &Stop, thing: &Option<Thing>) -> Result<u32, NoMemory>
    ensures { IfOk result (λ number. number ≡ reference_of stop.now thing.now) }
{
    match thing {
        None => Ok(0),
        Some(thing) => stop.number_told(thing).ok_or(NoMemory),
    }
}

fn kind_copy(alloc: Global, kind: &Option<Text>) -> Result<Option<Text>, NoMemory>
    ensures { IfOk result (λ copy. copy ≡ kind.now) }
{
    match kind {
        None => Ok(None),
        Some(kind) => Ok(Some(Text::from_str(alloc, kind.as_str())?)),
    }
}

// A child as it is told, which has its number where it is a container.
fn variable_told(alloc: Global, stop: &Stop, shown: &ShownVariable) -> Result<Variable, NoMemory>
    ensures { IfOk result (λ told. told ≡ variable_told stop.now shown.now) }
{
    Ok(Variable {
        name: Text::from_str(alloc, shown.name.as_str())?,
        value: Text::from_str(alloc, shown.seen.text.as_str())?,
        kind: kind_copy(alloc, &shown.seen.kind)?,
        indexed: shown.seen.indexed,
        reference: reference_of(stop, &shown.seen.thing)?,
    })
}

// The value of an expression as it is told, which has its number where it is a container.
fn value_of(alloc: Global, numbers: &Numbers, seen: &Seen) -> Result<Evaluated, NoMemory>
    ensures { IfOk result (λ told. told ≡ value_told (stop_of numbers.now) seen.now) }
{
    let Numbers::Stopped(stop) = numbers else {
        return Err(NoMemory);
    };
    Ok(Evaluated {
        result: Text::from_str(alloc, seen.text.as_str())?,
        kind: kind_copy(alloc, &seen.kind)?,
        indexed: seen.indexed,
        reference: reference_of(stop, &seen.thing)?,
    })
}

/// The value of an expression as it is told, once it has its number where it is a container. `NoMemory` comes where memory is
/// refused, where the number has no room, and where no stop is in hand (DAP specification, Evaluate request).
pub fn value_told(alloc: Global, numbers: &mut Numbers, seen: &Seen) -> Result<Evaluated, NoMemory>
    ensures told { IfOk result (λ told. told
        ≡ value_told (with_things (option_to_list seen.now.thing) (stop_of numbers.old)) seen.now) }
    ensures numbers { OnOk result (stop_of numbers.new
        ≡ with_things (option_to_list seen.now.thing) (stop_of numbers.old)) }
    ensures stopped { OnOk result (has_stop numbers.new ≡ has_stop numbers.old) }
{
    let things = value_things(alloc, seen.thing)?;
    number_things(numbers, things.as_slice())?;
    value_of(alloc, numbers, seen)
}

/// A value that was written, as it is told. `NoMemory` comes where memory is refused (DAP specification, SetVariable
/// request).
pub fn written_told(alloc: Global, seen: &Seen) -> Result<Written, NoMemory>
    ensures { IfOk result (λ told. told ≡ record { value = seen.now.text; kind = seen.now.kind }) }
{
    Ok(Written {
        value: Text::from_str(alloc, seen.text.as_str())?,
        kind: kind_copy(alloc, &seen.kind)?,
    })
}

fn each_told(
    alloc: Global,
    stop: &Stop,
    variables: &[ShownVariable],
) -> Result<List<Variable>, NoMemory>
    ensures { IfOk result (λ told. told ≡ map (variable_told stop.now) variables.now) }
{
    let mut told = List::new(alloc);
    for shown in variables {
        told.push(variable_told(alloc, stop, shown)?)?;
    }
    Ok(told)
}

// Children as they are told, which have their numbers.
fn numbered_told(
    alloc: Global,
    numbers: &Numbers,
    variables: &[ShownVariable],
) -> Result<List<Variable>, NoMemory>
    ensures { IfOk result (λ told. told ≡ map (variable_told (stop_of numbers.now)) variables.now) }
{
    match numbers {
        Numbers::Running(_) => Err(NoMemory),
        Numbers::Stopped(stop) => each_told(alloc, stop, variables),
    }
}

/// Children of a container as they are told, once all containers among them have their numbers. `NoMemory` comes where
/// memory is refused, where a number has no room, and where no stop is in hand (DAP specification, Types, Variable).
pub fn variables_told(
    alloc: Global,
    numbers: &mut Numbers,
    variables: &[ShownVariable],
) -> Result<List<Variable>, NoMemory>
    ensures told { IfOk result (λ told. told ≡ map (variable_told (with_things
        (filter_map (λ (one : AVariable). one.seen.thing) variables.now) (stop_of numbers.old))) variables.now) }
    ensures numbers { OnOk result (stop_of numbers.new
        ≡ with_things (filter_map (λ (one : AVariable). one.seen.thing) variables.now) (stop_of numbers.old)) }
    ensures stopped { OnOk result (has_stop numbers.new ≡ has_stop numbers.old) }
{
    let things = variable_things(alloc, variables)?;
    number_things(numbers, things.as_slice())?;
    numbered_told(alloc, numbers, variables)
}
