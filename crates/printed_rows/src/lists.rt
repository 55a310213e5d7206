//! Lists of a line, and the elements that they have.
ghost use Rattle.std.specs.Prelude.{◌≡◌, IfOk};
ghost use Rattle.serde_json.specs.View.{view};
ghost use Rattle.line_elements.specs.Values.{list_data, lines_data};

use jdwp_values::{Line, Value};
use line_elements::value_json;
use serde_json::{Value as Json, json};
use slot_values::SlotValue;
use std::alloc::Global;
use wire_core::{List, NoMemory};

/// What a list of a line is made of.
pub(crate) trait Element {
    ghost use Rattle.std.specs.Prelude.{◌≡◌, IfOk};
    ghost use Rattle.serde_json.specs.Data.{Data};
    ghost use Rattle.serde_json.specs.View.{view};

    ghost data_of: { Self → Data };

    /// The JSON value of this one.
    fn value(&self, alloc: Global) -> Result<Json, NoMemory>
        ensures { IfOk result (λ value. view value ≡ data_of self.now) };
}

impl Element for Value {
    ghost use Rattle.line_elements.specs.Values.{value_data};

    ghost data_of = { value_data };

    fn value(&self, alloc: Global) -> Result<Json, NoMemory> {
        value_json(alloc, self)
    }
}

impl Element for SlotValue {
    ghost use Rattle.line_elements.specs.Values.{slot_data};

    ghost data_of = { slot_data };

    fn value(&self, alloc: Global) -> Result<Json, NoMemory> {
        let slot = self.slot;
        let value = value_json(alloc, &self.value)?;
        Ok(json!(in alloc; [slot, value])?)
    }
}

impl Element for Line {
    ghost use Rattle.line_elements.specs.Values.{line_data};

    ghost data_of = { line_data };

    fn value(&self, alloc: Global) -> Result<Json, NoMemory> {
        let index = self.index;
        let line = self.line;
        Ok(json!(in alloc; [index, line])?)
    }
}

/// A list of elements.
pub(crate) fn list_value<T: Element>(alloc: Global, elements: &[T]) -> Result<Json, NoMemory>
    ensures { IfOk result (λ value. view value ≡ list_data T.data_of elements.now) }
{
    let mut values = Vec::new(alloc);
    for element in elements {
        values.push(element.value(alloc)?)?;
    }
    Ok(Json::Array(values))
}

/// A method's lines, or null where they are not known.
pub(crate) fn lines_value(alloc: Global, lines: &Option<List<Line>>) -> Result<Json, NoMemory>
    ensures { IfOk result (λ value. view value ≡ lines_data lines.now) }
{
    match lines {
        Some(lines) => list_value(alloc, lines.as_slice()),
        None => Ok(Json::Null),
    }
}
