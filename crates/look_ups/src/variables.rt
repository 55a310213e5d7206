//! What is heard of a frame's method: its receiver and its variables (JDWP, StackFrame command set, ThisObject; JDWP,
//! Method command set, VariableTable).
ghost use Rattle.std.specs.Prelude.{◌≡◌, [], Some, IfOk, option_copied, option_map, unwrap_or};
ghost use Rattle.class_tables.specs.Lookups.{found_in};
ghost use Rattle.machine_model.specs.Children.{object_named, this_in, this_plan, variables_plan};
ghost use Rattle.machine_model.specs.Facts.{variables_in};
ghost use Rattle.machine_model.specs.Plans.{answer_in, need};
ghost use Rattle.look_ups.specs.Needs.{need_of, need_with, seen_by};

use crate::need::Need;
use crate::sight::{Sight, fact_replied, must_hear};
use class_tables::Classes;
use jdwp_commands::{Answer, Question, Replied};
use jdwp_values::{ClassId, MethodId, Value, Variable};
use std::alloc::Global;
use stop_refs::FrameThing;
use wire_core::NoMemory;

/// The object that a value names, 0 where it names none (JDWP, Detailed Command Information, tagged-objectID).
pub fn object_named(value: Value) -> u64
    ensures { result ≡ object_named value }
{
    match value {
        Value::Object(o) => o.0,
        Value::Array(o) => o.0,
        Value::String(o) => o.0,
        Value::Thread(o) => o.0,
        Value::ThreadGroup(o) => o.0,
        Value::ClassLoader(o) => o.0,
        Value::ClassObject(o) => o.0,
        _ => 0,
    }
}

// The receiver in an answer.
fn this_in(answer: &Answer) -> Value
    ensures { result ≡ this_in (Some answer.now) }
{
    match answer {
        Answer::ThisObject(value) => *value,
        _ => Value::Void,
    }
}

/// The receiver of a frame's method, by what was replied: null where it has none. `NoMemory` comes where memory is
/// refused (JDWP, StackFrame command set, ThisObject).
#[tactic(auto, unfolding(machine_model::specs::Plans::need))]
pub fn this_need(
    alloc: Global,
    sight: Sight<'_>,
    frame: FrameThing,
) -> Result<Need<Value>, NoMemory>
    ensures { IfOk result (λ found. need_of found ≡ need (seen_by sight.entry) (this_plan frame)) }
{
    let question = Question::ThisObject {
        thread: frame.thread,
        frame: frame.frame,
    };
    match must_hear(alloc, sight.asked, question)? {
        Need::Has(answer) => Ok(Need::Has(this_in(answer))),
        Need::Fails { place, code } => Ok(Need::Fails { place, code }),
        Need::Lacks { first, others } => Ok(Need::Lacks { first, others }),
    }
}

// The variables in a reply; none where they are absent.
fn variables_in(replied: &Replied) -> &[Variable]
    ensures { result.now ≡ unwrap_or (variables_in (answer_in replied.now)) [] }
{
    match replied {
        Replied::Answer(Answer::VariableTable { variables, .. }) => variables.as_slice(),
        _ => &[],
    }
}

// The variables of a method, where they were learnt; none where they are absent.
fn known_variables(classes: &Classes, class: ClassId, method: MethodId) -> Option<&[Variable]>
    ensures { option_copied result
        ≡ option_map (λ variables. unwrap_or variables []) ((found_in classes.now).variables class method) }
{
    match classes.variables(class, method)? {
        None => Some(&[]),
        Some(variables) => Some(variables.as_slice()),
    }
}

/// The variables of a method by what was learnt and replied, in the target's order; none where they are absent.
/// `NoMemory` comes where memory is refused (JDWP, Method command set, VariableTable).
#[tactic(auto, using(crate::proofs::ChildLaws::variables_learnt, crate::proofs::ChildLaws::variables_said), unfolding(machine_model::specs::Plans::need))]
pub fn method_variables<'a>(
    alloc: Global,
    sight: Sight<'a>,
    class: ClassId,
    method: MethodId,
) -> Result<Need<&'a [Variable]>, NoMemory>
    ensures { IfOk result (λ found. need_with (λ variables. variables.now) found
        ≡ need (seen_by sight.entry) (variables_plan class method)) }
{
    if let Some(variables) = known_variables(sight.classes, class, method) {
        return Ok(Need::Has(variables));
    }
    match fact_replied(
        alloc,
        sight.asked,
        Question::VariableTable { class, method },
    )? {
        Need::Has(replied) => Ok(Need::Has(variables_in(replied))),
        Need::Fails { place, code } => Ok(Need::Fails { place, code }),
        Need::Lacks { first, others } => Ok(Need::Lacks { first, others }),
    }
}
