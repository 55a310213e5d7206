ghost use Rattle.std.specs.Prelude.{◌≡◌, IfOk};
ghost use Rattle.serde_json.specs.View.{view};
ghost use Rattle.dap_messages.specs.Bodies.{variable_data, variables_data};

use crate::objects::{Member, object};
use crate::told::Variable;
use serde_json::Value;
use std::alloc::{AllocError, Global};

/// Variables in the order in which they are shown.
pub(crate) fn variables_value(alloc: Global, variables: &[Variable]) -> Result<Value, AllocError>
    ensures { IfOk result (λ value. view value ≡ variables_data variables.now) }
{
    let mut items = Vec::new(alloc);
    for variable in variables {
        items.push(variable_value(alloc, variable)?)?;
    }
    let members = vec![in alloc; ("variables", Member::Items(items))]?;
    object(alloc, members)
}

fn variable_value(alloc: Global, variable: &Variable) -> Result<Value, AllocError>
    ensures { IfOk result (λ value. view value ≡ variable_data variable.now) }
{
    let members = vec![in alloc;
        ("indexedVariables", Member::MaybeCount(variable.indexed)),
        ("name", Member::Words(variable.name.as_str())),
        ("type", Member::MaybeText(&variable.kind)),
        ("value", Member::Words(variable.value.as_str())),
        (
            "variablesReference",
            Member::Count(u64::from(variable.reference))
        ),
    ]?;
    object(alloc, members)
}
