//! A value that is sought, and where it stands.
ghost use Rattle.std.specs.Prelude.{◌≡◌, Err};
ghost use Rattle.machine_model.specs.Expressions.{one_of};
ghost use Rattle.machine_model.specs.Plans.{has};
ghost use Rattle.look_ups.specs.Needs.{need_of};
ghost use Rattle.look_ups.specs.Shown.{declared_of};

use dap_messages::Failure;
use jdwp_values::Value;
use look_ups::{Declared, Need};
use std::marker::Model;

/// A value, and the signature of the place that it stands in. Contracts see it as the definitions do.
#[derive(Drop)]
pub struct Valued {
    pub value: Value,
    pub declared: Declared,
}

impl Model for Valued {
    ghost use Rattle.machine_model.specs.Values as values;
    ghost use Rattle.look_ups.specs.Shown.{declared_of};

    ghost Value = { values.Valued };

    ghost view = { λ v. record { value = v.value; declared = declared_of v.declared } };
}

/// What comes of a search for a value: the value, or why there is none.
pub type Sought = Result<Valued, Failure>;

/// There is no value, and nothing more is asked.
pub(crate) fn missing(failure: Failure) -> Need<Sought>
    ensures { need_of result ≡ has (Err failure) }
{
    Need::Has(Err(failure))
}

/// The one value that was asked for.
pub(crate) fn one_of(declared: Declared, values: &[Value]) -> Sought
    ensures { result ≡ one_of (declared_of declared) values.now }
{
    match values {
        [] => Err(Failure::no_such_name()),
        [value, ..] => Ok(Valued {
            value: *value,
            declared,
        }),
    }
}
