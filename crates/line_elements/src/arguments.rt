ghost use Rattle.std.specs.Prelude.{◌≡◌, false, IfOk};
ghost use Rattle.serde_json.specs.View.{view, items_view, members_view};
ghost use Rattle.serde_json.specs.Written.{has_float, items_have_float, members_have_float};
ghost use Rattle.line_elements.specs.Values.{arguments_of};

use serde_json::{Map, Value};
use std::marker::Model;
use wire_core::NoMemory;

/// The arguments of a client's request: a JSON object in which no number is a float. Contracts see its JSON data.
#[derive(Drop)]
pub struct Arguments {
    value: Value,
}

impl Model for Arguments {
    ghost use Rattle.std.specs.Prelude.{◌≡◌, false};
    ghost use Rattle.serde_json.specs.Data.{Data};
    ghost use Rattle.serde_json.specs.View.{view as seen};
    ghost use Rattle.serde_json.specs.Written.{has_float};
    ghost use Rattle.line_elements.specs.Codes.{coded_data};

    ghost Value = { Data };

    ghost coded = { coded_data };

    ghost view = { λ a. seen a.value };

    ghost invariant = { λ a. has_float (seen a.value) ≡ false };
}

impl Arguments {
    /// A copy of a value, where it is an object in which no number is a float. `NoMemory` comes where memory is
    /// refused.
    pub fn of(value: &Value) -> Result<Option<Arguments>, NoMemory>
        ensures { IfOk result (λ arguments. arguments ≡ arguments_of (view value.now)) }
    {
        if value.is_object() && !has_float(value) {
            let value = value.clone()?;
            Ok(Some(Arguments { value }))
        } else {
            Ok(None)
        }
    }

    /// The object itself, in which no number is a float.
    pub fn value(&self) -> &Value
        ensures value { view result.now ≡ self.now }
        ensures plain { has_float self.now ≡ false }
    {
        &self.value
    }
}

#[cycle(floats)]
fn has_float(value: &Value) -> bool
    ensures { result ≡ has_float (view value.now) }
{
    match value {
        Value::Null => false,
        Value::Bool(_) => false,
        Value::Number(number) => number.is_f64(),
        Value::String(_) => false,
        Value::Array(items) => any_has_float(items),
        Value::Object(members) => any_member_has_float(members),
    }
}

#[cycle(floats)]
fn any_has_float(items: &Vec<Value>) -> bool
    ensures { result ≡ items_have_float (items_view items.now.items) }
{
    for item in items {
        if has_float(item) {
            return true;
        }
    }
    false
}

#[cycle(floats)]
fn any_member_has_float(members: &Map<String, Value>) -> bool
    ensures { result ≡ members_have_float (members_view members.now.entries) }
{
    for (_key, member) in members.iter() {
        if has_float(member) {
            return true;
        }
    }
    false
}
