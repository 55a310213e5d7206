//! The elements of a line's array.
ghost use Rattle.std.specs.Prelude.{◌≡◌, ◌++◌, ◌∷◌, [], false, OnOk};
ghost use Rattle.serde_json.specs.Data.{boolean, string};
ghost use Rattle.serde_json.specs.View.{view};
ghost use Rattle.serde_json.specs.Written.{has_float};
ghost use Rattle.line_elements.specs.Numbers.{natural_data, signed_data, text_data, text_or_null_data};
ghost use Rattle.line_elements.specs.Values.{array_of, list_data, slot_data, value_data, lines_data};

use crate::lists::{lines_value, list_value};
use crate::parts::{text_or_null_value, text_value};
use jdwp_values::{Line, Value};
use line_elements::{Arguments, value_json};
use serde_json::{Value as Json, json};
use slot_values::SlotValue;
use std::alloc::Global;
use std::marker::Model;
use wire_core::{Blob, List, NoMemory};

/// The elements of a line's array so far. Contracts see their JSON data. Each call adds one; where memory is refused,
/// `NoMemory` comes, and nothing is said of them any more.
#[derive(Drop)]
pub struct Elements {
    alloc: Global,
    values: Vec<Json>,
}

impl Model for Elements {
    ghost use Rattle.std.specs.Prelude.{List, map};
    ghost use Rattle.std.specs.Coded.{coded_list};
    ghost use Rattle.serde_json.specs.Data.{Data};
    ghost use Rattle.serde_json.specs.View.{view as seen};
    ghost use Rattle.line_elements.specs.Codes.{coded_data};

    ghost Value = { List Data };

    ghost coded = { coded_list coded_data };

    ghost view = { λ e. map seen e.values.items };
}

impl Elements {
    /// No element.
    pub(crate) fn new(alloc: Global) -> Elements
        ensures { result ≡ [] }
    {
        Elements {
            alloc,
            values: Vec::new(alloc),
        }
    }

    /// The array.
    pub(crate) fn array(self) -> Json
        ensures { view result ≡ array_of self }
    {
        let Elements { alloc: _, values } = self;
        Json::Array(values)
    }

    fn push(&mut self, value: Json) -> Result<(), NoMemory>
        ensures { OnOk result (self.new ≡ self.old ++ view value ∷ []) }
    {
        self.values.push(value)?;
        Ok(())
    }

    /// A word.
    pub(crate) fn word(&mut self, word: &str) -> Result<(), NoMemory>
        ensures { OnOk result (self.new ≡ self.old ++ string word.now ∷ []) }
    {
        let value = json!(in self.alloc; word)?;
        self.push(value)
    }

    /// A number without a sign.
    pub(crate) fn natural(&mut self, number: u64) -> Result<(), NoMemory>
        ensures { OnOk result (self.new ≡ self.old ++ natural_data number ∷ []) }
    {
        self.push(Json::from(number))
    }

    /// A number with a sign.
    pub(crate) fn signed(&mut self, number: i64) -> Result<(), NoMemory>
        ensures { OnOk result (self.new ≡ self.old ++ signed_data number ∷ []) }
    {
        self.push(Json::from(number))
    }

    /// A truth value.
    pub(crate) fn truth(&mut self, truth: bool) -> Result<(), NoMemory>
        ensures { OnOk result (self.new ≡ self.old ++ boolean truth ∷ []) }
    {
        self.push(Json::Bool(truth))
    }

    /// Bytes as a text.
    pub(crate) fn text(&mut self, bytes: &Blob) -> Result<(), NoMemory>
        ensures { OnOk result (self.new ≡ self.old ++ text_data bytes.now ∷ []) }
    {
        let value = text_value(self.alloc, bytes.as_slice())?;
        self.push(value)
    }

    /// Bytes as a text, or null where there are none.
    pub(crate) fn text_or_null(&mut self, bytes: &Option<Blob>) -> Result<(), NoMemory>
        ensures { OnOk result (self.new ≡ self.old ++ text_or_null_data bytes.now ∷ []) }
    {
        let value = text_or_null_value(self.alloc, bytes)?;
        self.push(value)
    }

    /// A value of the target's program.
    pub(crate) fn value(&mut self, value: &Value) -> Result<(), NoMemory>
        ensures { OnOk result (self.new ≡ self.old ++ value_data value.now ∷ []) }
    {
        let value = value_json(self.alloc, value)?;
        self.push(value)
    }

    /// The values of an array.
    pub(crate) fn values(&mut self, values: &List<Value>) -> Result<(), NoMemory>
        ensures { OnOk result (self.new ≡ self.old ++ list_data value_data values.now ∷ []) }
    {
        let value = list_value(self.alloc, values.as_slice())?;
        self.push(value)
    }

    /// The slots of a frame.
    pub(crate) fn slots(&mut self, slots: &List<SlotValue>) -> Result<(), NoMemory>
        ensures { OnOk result (self.new ≡ self.old ++ list_data slot_data slots.now ∷ []) }
    {
        let value = list_value(self.alloc, slots.as_slice())?;
        self.push(value)
    }

    /// The lines of a method, or null where they are not known.
    pub(crate) fn lines(&mut self, lines: &Option<List<Line>>) -> Result<(), NoMemory>
        ensures { OnOk result (self.new ≡ self.old ++ lines_data lines.now ∷ []) }
    {
        let value = lines_value(self.alloc, lines)?;
        self.push(value)
    }

    /// The arguments of a request, in which no number is a float.
    pub(crate) fn arguments(&mut self, arguments: &Arguments) -> Result<(), NoMemory>
        ensures value { OnOk result (self.new ≡ self.old ++ arguments.now ∷ []) }
        ensures plain { OnOk result (has_float arguments.now ≡ false) }
    {
        let value = arguments.value().clone()?;
        self.push(value)
    }
}
