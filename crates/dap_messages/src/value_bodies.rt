ghost use Rattle.std.specs.Prelude.{◌≡◌, IfOk};
ghost use Rattle.serde_json.specs.View.{view};
ghost use Rattle.dap_messages.specs.Bodies.{evaluated_data, written_data};

use crate::objects::{Member, object};
use crate::told::{Evaluated, Written};
use serde_json::Value;
use std::alloc::{AllocError, Global};

/// What a variable was set to.
pub(crate) fn written_value(alloc: Global, written: &Written) -> Result<Value, AllocError>
    ensures { IfOk result (λ value. view value ≡ written_data written.now) }
{
    let members = vec![in alloc;
        ("type", Member::MaybeText(&written.kind)),
        ("value", Member::Words(written.value.as_str())),
        ("variablesReference", Member::Count(0)),
    ]?;
    object(alloc, members)
}

/// What an expression stands for.
pub(crate) fn evaluated_value(alloc: Global, evaluated: &Evaluated) -> Result<Value, AllocError>
    ensures { IfOk result (λ value. view value ≡ evaluated_data evaluated.now) }
{
    let members = vec![in alloc;
        ("indexedVariables", Member::MaybeCount(evaluated.indexed)),
        ("result", Member::Words(evaluated.result.as_str())),
        ("type", Member::MaybeText(&evaluated.kind)),
        (
            "variablesReference",
            Member::Count(u64::from(evaluated.reference))
        ),
    ]?;
    object(alloc, members)
}
