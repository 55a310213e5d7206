//! Values of the target's program, as JSON values.
ghost use Rattle.std.specs.Prelude.{◌≡◌, ◌∷◌, [], IfOk};
ghost use Rattle.serde_json.specs.View.{view};
ghost use Rattle.jdwp_values.specs.Tags.{byte_of_tag};
ghost use Rattle.line_elements.specs.Values.{bits_data, told_data, value_data};

use crate::bits::bits_text;
use jdwp_values::{Tag, Value};
use serde_json::{Value as Json, json};
use std::alloc::Global;
use wire_core::NoMemory;

/// A tag's character.
pub fn tag_name(tag: Tag) -> &'static str
    ensures { result.now ≡ byte_of_tag tag ∷ [] }
{
    match tag {
        Tag::Byte => "B",
        Tag::Char => "C",
        Tag::Double => "D",
        Tag::Float => "F",
        Tag::Int => "I",
        Tag::Long => "J",
        Tag::Short => "S",
        Tag::Boolean => "Z",
        Tag::Void => "V",
        Tag::Object => "L",
        Tag::Array => "[",
        Tag::String => "s",
        Tag::Thread => "t",
        Tag::ThreadGroup => "g",
        Tag::ClassLoader => "l",
        Tag::ClassObject => "c",
    }
}

fn bits_json(alloc: Global, bits: u64) -> Result<Json, NoMemory>
    ensures { IfOk result (λ shown. view shown ≡ bits_data bits) }
{
    let text = bits_text(alloc, bits)?;
    Ok(json!(in alloc; text.as_str())?)
}

// What stands behind the tag: a number with its sign, or bits.
fn told_json(alloc: Global, value: &Value) -> Result<Json, NoMemory>
    ensures { IfOk result (λ shown. view shown ≡ told_data value.now) }
{
    match value {
        Value::Byte(number) => Ok(Json::from(*number)),
        Value::Char(bits) => bits_json(alloc, u64::from(*bits)),
        Value::Double(bits) => bits_json(alloc, *bits),
        Value::Float(bits) => bits_json(alloc, u64::from(*bits)),
        Value::Int(number) => Ok(Json::from(*number)),
        Value::Long(number) => Ok(Json::from(*number)),
        Value::Short(number) => Ok(Json::from(*number)),
        Value::Boolean(bits) => bits_json(alloc, u64::from(*bits)),
        Value::Void => bits_json(alloc, 0),
        Value::Object(id) => bits_json(alloc, id.0),
        Value::Array(id) => bits_json(alloc, id.0),
        Value::String(id) => bits_json(alloc, id.0),
        Value::Thread(id) => bits_json(alloc, id.0),
        Value::ThreadGroup(id) => bits_json(alloc, id.0),
        Value::ClassLoader(id) => bits_json(alloc, id.0),
        Value::ClassObject(id) => bits_json(alloc, id.0),
    }
}

/// The JSON value of a value: its tag, and a number with its sign, or bits as text. `NoMemory` comes where memory is
/// refused.
pub fn value_json(alloc: Global, value: &Value) -> Result<Json, NoMemory>
    ensures { IfOk result (λ shown. view shown ≡ value_data value.now) }
{
    let tag = tag_name(value.tag());
    let told = told_json(alloc, value)?;
    Ok(json!(in alloc; [tag, told])?)
}
