//! What the look-ups of `evaluate` and `setVariable` come to by what was replied so far.
ghost use Rattle.std.specs.Prelude.{◌≡◌, IfOk};
ghost use Rattle.look_ups.specs.Needs.{need_with as found_with};
ghost use Rattle.child_pages.specs.Shown.{write_said};
ghost use Rattle.expression_values.specs.Shown.{value_said};
ghost use Rattle.machine_model.specs.Expressions.{value_plan};
ghost use Rattle.machine_model.specs.Plans.{need};
ghost use Rattle.machine_model.specs.Writing.{object_size, write_plan};
ghost use Rattle.talk_look_ups.specs.Planning.{need_of, sight_in};

use dap_messages::Failure;
use field_exprs::Expr;
use look_ups::{Asked, Sight};
use machine_model::{Finding, Seen, Write};
use std::alloc::Global;
use stop_refs::{FrameThing, Thing};
use talk_look_ups::Need;
use talk_state::State;
use wire_core::{NoMemory, Text};

// So many bytes does an object's id take where the target didn't say it.
const USUAL_SIZE: u32 = 8;

fn value_found(found: look_ups::Need<Result<Seen, Failure>>) -> Need
    ensures { need_of result ≡ found_with value_said found }
{
    match found {
        look_ups::Need::Has(Ok(seen)) => Need::Has(Finding::Value(seen)),
        look_ups::Need::Has(Err(failure)) => Need::Has(Finding::NoValue(failure)),
        look_ups::Need::Fails { place, code } => Need::Fails { place, code },
        look_ups::Need::Lacks { first, others } => Need::Lacks { first, others },
    }
}

/// The value of an expression (DAP specification, Evaluate request).
pub(crate) fn value_need(
    alloc: Global,
    state: &State,
    asked: &Asked,
    frame: FrameThing,
    expression: &Expr,
) -> Result<Need, NoMemory>
    ensures { IfOk result (λ found. need_of found ≡ need (sight_in state.now asked.now)
        (value_plan state.now.options.shows_types frame expression.now)) }
{
    let sight = Sight {
        classes: &state.classes,
        asked,
    };
    let types = state.options.shows_types;
    Ok(value_found(expression_values::value_need(alloc, sight, types, frame, expression)?))
}

fn write_found(found: look_ups::Need<Result<(Write, Seen), Failure>>) -> Need
    ensures { need_of result ≡ found_with write_said found }
{
    match found {
        look_ups::Need::Has(Ok((write, seen))) => Need::Has(Finding::Write { write, seen }),
        look_ups::Need::Has(Err(failure)) => Need::Has(Finding::NoValue(failure)),
        look_ups::Need::Fails { place, code } => Need::Fails { place, code },
        look_ups::Need::Lacks { first, others } => Need::Lacks { first, others },
    }
}

// How many bytes an object's id takes (JDWP, VirtualMachine command set, IDSizes).
fn object_size(state: &State) -> u32
    ensures { result ≡ object_size state.now.sizes }
{
    match state.sizes {
        None => USUAL_SIZE,
        Some(sizes) => sizes.object,
    }
}

/// What is written to a child of a container (DAP specification, SetVariable request).
pub(crate) fn write_need(
    alloc: Global,
    state: &State,
    asked: &Asked,
    thing: Thing,
    name: &Text,
    text: &Text,
) -> Result<Need, NoMemory>
    ensures { IfOk result (λ found. need_of found ≡ need (sight_in state.now asked.now)
        (write_plan state.now.options.shows_types state.now.sizes thing name.now text.now)) }
{
    let sight = Sight {
        classes: &state.classes,
        asked,
    };
    let types = state.options.shows_types;
    let size = object_size(state);
    Ok(write_found(child_pages::write_need(alloc, sight, types, size, thing, name, text)?))
}
