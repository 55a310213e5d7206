//! The elements of an array, one behind the other.
ghost use Rattle.std.specs.Prelude.{◌≡◌, ◌++◌, ◌∷◌, [], OnOk};
ghost use Rattle.line_elements.specs.Numbers.{natural_data, signed_data};
ghost use Rattle.line_elements.specs.Values.{array_of};
ghost use Rattle.serde_json.specs.View.{view};
ghost use Rattle.ask_texts.specs.Forms.{bytes_data};

use crate::forms::bytes_json;
use serde_json::Value as Json;
use std::alloc::Global;
use std::marker::Model;
use wire_core::NoMemory;

/// The elements of an array so far. Contracts see their JSON data. Each call adds one; where memory is refused,
/// `NoMemory` comes, and nothing is said of them any more.
#[derive(Drop)]
pub(crate) struct Elements {
    alloc: Global,
    values: Vec<Json>,
}

impl Model for Elements {
    ghost use Rattle.std.specs.Prelude.{List, map};
    ghost use Rattle.std.specs.Coded.{coded_list};
    ghost use Rattle.line_elements.specs.Codes.{coded_data};
    ghost use Rattle.serde_json.specs.Data.{Data};
    ghost use Rattle.serde_json.specs.View.{view as seen};

    ghost Value = { List Data };

    ghost coded = { coded_list coded_data };

    ghost view = { λ e. map seen e.values.items };
}

impl Elements {
    /// No element.
    pub(crate) fn new(alloc: Global) -> Elements
        ensures { result ≡ [] }
    {
        Elements {
            alloc,
            values: Vec::new(alloc),
        }
    }

    /// The array.
    pub(crate) fn array(self) -> Json
        ensures { view result ≡ array_of self }
    {
        let Elements { alloc: _, values } = self;
        Json::Array(values)
    }

    fn push(&mut self, value: Json) -> Result<(), NoMemory>
        ensures { OnOk result (self.new ≡ self.old ++ view value ∷ []) }
    {
        self.values.push(value)?;
        Ok(())
    }

    /// A number without a sign.
    pub(crate) fn natural(&mut self, number: u64) -> Result<(), NoMemory>
        ensures { OnOk result (self.new ≡ self.old ++ natural_data number ∷ []) }
    {
        self.push(Json::from(number))
    }

    /// A number with a sign.
    pub(crate) fn signed(&mut self, number: i64) -> Result<(), NoMemory>
        ensures { OnOk result (self.new ≡ self.old ++ signed_data number ∷ []) }
    {
        self.push(Json::from(number))
    }

    /// Bytes as lower-case hexadecimal.
    pub(crate) fn bytes(&mut self, bytes: &[u8]) -> Result<(), NoMemory>
        ensures { OnOk result (self.new ≡ self.old ++ bytes_data bytes.now ∷ []) }
    {
        let value = bytes_json(self.alloc, bytes)?;
        self.push(value)
    }
}
