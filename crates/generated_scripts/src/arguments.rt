//! The arguments of the client's requests.
ghost use Rattle.std.specs.Prelude.{◌≡◌, [], ◌∷◌, codes, map, IfOk, Some};
ghost use Rattle.line_elements.specs.Values.{arguments_of};
ghost use Rattle.serde_json.specs.View.{view};
ghost use Rattle.generated_scripts.specs.Numbers.{for_each_to};
ghost use Rattle.generated_scripts.specs.Turns.{attach_data, breakpoints_data, initialize_data, nothing, one_number};
ghost use Rattle.generated_scripts.specs.Turns.{stack_data};

use line_elements::Arguments;
use serde_json::{Map, Value, json};
use std::alloc::{AllocError, Global};
use wire_core::NoMemory;

/// The arguments that a value is, which are some.
pub(crate) fn arguments_of(value: Value) -> Result<Arguments, NoMemory>
    requires { arguments_of (view value) ≡ Some (view value) }
    ensures { IfOk result (λ arguments. arguments ≡ view value) }
{
    let arguments = Arguments::of(&value)?;
    Ok(arguments.unwrap())
}

/// No arguments.
pub(crate) fn nothing(alloc: Global) -> Value
    ensures { view result ≡ nothing }
{
    Value::Object(Map::new(alloc))
}

/// One argument, a number.
pub(crate) fn one_number(alloc: Global, name: &str, number: u32) -> Result<Value, AllocError>
    ensures { IfOk result (λ value. view value ≡ one_number name.now number) }
{
    json!(in alloc; { (name): number })
}

pub(crate) fn initialize_value(alloc: Global) -> Result<Value, AllocError>
    ensures { IfOk result (λ value. view value ≡ initialize_data) }
{
    json!(in alloc; { "adapterID": "gen" })
}

pub(crate) fn attach_value(alloc: Global) -> Result<Value, AllocError>
    ensures { IfOk result (λ value. view value ≡ attach_data) }
{
    json!(in alloc; { "sourceRoots": ["/gen"] })
}

/// The arguments of a request for breakpoints on as many lines as the number says.
pub(crate) fn breakpoints_value(alloc: Global, number: u32) -> Result<Value, AllocError>
    ensures { IfOk result (λ value. view value ≡ breakpoints_data number) }
{
    let lines = Value::Array(lines_to(alloc, number)?);
    json!(in alloc; {
        "breakpoints": lines,
        "source": { "path": "/gen/gen/Main.java" }
    })
}

fn lines_to(alloc: Global, number: u32) -> Result<Vec<Value>, AllocError>
    ensures { IfOk result (λ lines. map view lines.items
        ≡ for_each_to (λ i. one_number (codes "line") i ∷ []) number) }
{
    let mut lines = Vec::new(alloc);
    for i in 0..number {
        lines.push(one_number(alloc, "line", i + 1)?)?;
    }
    Ok(lines)
}

pub(crate) fn stack_value(alloc: Global) -> Result<Value, AllocError>
    ensures { IfOk result (λ value. view value ≡ stack_data) }
{
    json!(in alloc; { "levels": 20, "threadId": 1 })
}
