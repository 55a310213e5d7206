//! The text form of what answers say, as JSON values.
ghost use Rattle.std.specs.Prelude.{◌≡◌, ◌∷◌, [], IfOk, OnOk};
ghost use Rattle.line_elements.specs.Numbers.{natural_data, signed_data};
ghost use Rattle.line_elements.specs.Values.{list_data};
ghost use Rattle.serde_json.specs.View.{view};
ghost use Rattle.ask_texts.specs.Forms.{bytes_data, id_in, location_data, reference_data, region_data};

use crate::elements::Elements;
use jdwp_commands::{ClassStatus, Frame, LoadedClass, Region};
use jdwp_values::{Field, Line, Location, Method, ThreadId, Value, Variable};
use line_elements::value_json;
use serde_json::{Value as Json, json};
use std::alloc::Global;
use wire_core::NoMemory;

/// Bytes as lower-case hexadecimal. `NoMemory` comes where memory is refused.
pub(crate) fn bytes_json(alloc: Global, bytes: &[u8]) -> Result<Json, NoMemory>
    ensures { IfOk result (λ shown. view shown ≡ bytes_data bytes.now) }
{
    let digits = hex::encode(alloc, bytes)?;
    Ok(Json::String(digits))
}

// The id of an object, and 0 of a value that is none.
fn id_in(value: &Value) -> u64
    ensures { result ≡ id_in value.now }
{
    match value {
        Value::Object(id) => id.0,
        Value::Array(id) => id.0,
        Value::String(id) => id.0,
        Value::Thread(id) => id.0,
        Value::ThreadGroup(id) => id.0,
        Value::ClassLoader(id) => id.0,
        Value::ClassObject(id) => id.0,
        _ => 0,
    }
}

/// An object with its tag. `NoMemory` comes where memory is refused.
pub(crate) fn reference_json(alloc: Global, value: &Value) -> Result<Json, NoMemory>
    ensures { IfOk result (λ shown. view shown ≡ reference_data value.now) }
{
    let tag = value.tag().byte();
    let id = id_in(value);
    Ok(json!(in alloc; [tag, id])?)
}

fn location_json(alloc: Global, location: &Location) -> Result<Json, NoMemory>
    ensures { IfOk result (λ shown. view shown ≡ location_data location.now) }
{
    let tag = location.tag.byte();
    let class = location.class.0;
    let method = location.method.0;
    let index = location.index;
    Ok(json!(in alloc; [tag, class, method, index])?)
}

/// Elements of an array, behind the byte of their tag. `NoMemory` comes where memory is refused.
pub(crate) fn region_json(alloc: Global, region: &Region) -> Result<Json, NoMemory>
    ensures { IfOk result (λ shown. view shown ≡ region_data region.now) }
{
    let tag = region.tag.byte();
    let values = list_json(alloc, region.values.as_slice())?;
    Ok(json!(in alloc; [tag, values])?)
}

// A field or a method: its id, its name and its signature, and the bits of its modifiers.
fn say_member(
    line: &mut Elements,
    id: u64,
    name: &[u8],
    signature: &[u8],
    bits: i32,
) -> Result<(), NoMemory>
    requires { line.old ≡ [] }
    ensures { OnOk result (line.new
        ≡ natural_data id ∷ bytes_data name.now ∷ bytes_data signature.now ∷ signed_data bits ∷ []) }
{
    line.natural(id)?;
    line.bytes(name)?;
    line.bytes(signature)?;
    line.signed(i64::from(bits))
}

// A variable: where it begins, its name and its signature, how far it goes, and its slot.
fn say_variable(line: &mut Elements, variable: &Variable) -> Result<(), NoMemory>
    requires { line.old ≡ [] }
    ensures { OnOk result (line.new ≡ natural_data variable.now.index ∷ bytes_data variable.now.name
        ∷ bytes_data variable.now.signature ∷ natural_data variable.now.length ∷ signed_data variable.now.slot ∷ []) }
{
    line.natural(variable.index)?;
    line.bytes(variable.name.as_slice())?;
    line.bytes(variable.signature.as_slice())?;
    line.natural(u64::from(variable.length))?;
    line.signed(i64::from(variable.slot))
}

/// What a list of an answer is made of.
pub(crate) trait Element {
    ghost use Rattle.std.specs.Prelude.{◌≡◌, IfOk};
    ghost use Rattle.serde_json.specs.Data.{Data};
    ghost use Rattle.serde_json.specs.View.{view};

    ghost data_of: { Self → Data };

    /// The JSON value of this one.
    fn json(&self, alloc: Global) -> Result<Json, NoMemory>
        ensures { IfOk result (λ shown. view shown ≡ data_of self.now) };
}

impl Element for Value {
    ghost use Rattle.line_elements.specs.Values.{value_data};

    ghost data_of = { value_data };

    fn json(&self, alloc: Global) -> Result<Json, NoMemory> {
        value_json(alloc, self)
    }
}

impl Element for ThreadId {
    ghost use Rattle.jdwp_commands.specs.Items.{threads};
    ghost use Rattle.ask_texts.specs.Forms.{listed_data};

    ghost data_of = { listed_data threads };

    fn json(&self, _alloc: Global) -> Result<Json, NoMemory> {
        Ok(Json::from(self.0))
    }
}

impl Element for ClassStatus {
    ghost use Rattle.jdwp_commands.specs.Items.{class_statuses};
    ghost use Rattle.ask_texts.specs.Forms.{listed_data};

    ghost data_of = { listed_data class_statuses };

    fn json(&self, alloc: Global) -> Result<Json, NoMemory> {
        let tag = self.tag.byte();
        let class = self.class.0;
        let status = self.status;
        Ok(json!(in alloc; [tag, class, status])?)
    }
}

impl Element for LoadedClass {
    ghost use Rattle.jdwp_commands.specs.Items.{loaded_classes};
    ghost use Rattle.ask_texts.specs.Forms.{listed_data};

    ghost data_of = { listed_data loaded_classes };

    fn json(&self, alloc: Global) -> Result<Json, NoMemory> {
        let tag = self.tag.byte();
        let class = self.class.0;
        let signature = bytes_json(alloc, self.signature.as_slice())?;
        let status = self.status;
        Ok(json!(in alloc; [tag, class, signature, status])?)
    }
}

impl Element for Field {
    ghost use Rattle.jdwp_commands.specs.Items.{fields};
    ghost use Rattle.ask_texts.specs.Forms.{listed_data};

    ghost data_of = { listed_data fields };

    fn json(&self, alloc: Global) -> Result<Json, NoMemory> {
        let mut line = Elements::new(alloc);
        let name = self.name.as_slice();
        let signature = self.signature.as_slice();
        say_member(&mut line, self.id.0, name, signature, self.bits)?;
        Ok(line.array())
    }
}

impl Element for Method {
    ghost use Rattle.jdwp_commands.specs.Items.{methods};
    ghost use Rattle.ask_texts.specs.Forms.{listed_data};

    ghost data_of = { listed_data methods };

    fn json(&self, alloc: Global) -> Result<Json, NoMemory> {
        let mut line = Elements::new(alloc);
        let name = self.name.as_slice();
        let signature = self.signature.as_slice();
        say_member(&mut line, self.id.0, name, signature, self.bits)?;
        Ok(line.array())
    }
}

impl Element for Line {
    ghost use Rattle.jdwp_commands.specs.Items.{lines};
    ghost use Rattle.ask_texts.specs.Forms.{listed_data};

    ghost data_of = { listed_data lines };

    fn json(&self, alloc: Global) -> Result<Json, NoMemory> {
        let index = self.index;
        let line = self.line;
        Ok(json!(in alloc; [index, line])?)
    }
}

impl Element for Variable {
    ghost use Rattle.jdwp_commands.specs.Items.{variables};
    ghost use Rattle.ask_texts.specs.Forms.{listed_data};

    ghost data_of = { listed_data variables };

    fn json(&self, alloc: Global) -> Result<Json, NoMemory> {
        let mut line = Elements::new(alloc);
        say_variable(&mut line, self)?;
        Ok(line.array())
    }
}

impl Element for Frame {
    ghost use Rattle.jdwp_commands.specs.Items.{frames};
    ghost use Rattle.ask_texts.specs.Forms.{listed_data};

    ghost data_of = { listed_data frames };

    fn json(&self, alloc: Global) -> Result<Json, NoMemory> {
        let id = self.id.0;
        let location = location_json(alloc, &self.at)?;
        Ok(json!(in alloc; [id, location])?)
    }
}

/// A list of elements. `NoMemory` comes where memory is refused.
pub(crate) fn list_json<T: Element>(alloc: Global, elements: &[T]) -> Result<Json, NoMemory>
    ensures { IfOk result (λ shown. view shown ≡ list_data T.data_of elements.now) }
{
    let mut values = Vec::new(alloc);
    for element in elements {
        values.push(element.json(alloc)?)?;
    }
    Ok(Json::Array(values))
}
