//! Values of the target as texts.
ghost use Rattle.std.specs.Prelude.{◌≡◌, ◌++◌, decimal, codes, string_bytes, IfOk, OnOk, false};
ghost use Rattle.std.specs.Fmt.{digits, signed_decimal};
ghost use Rattle.value_views.specs.Names.{class_name};
ghost use Rattle.value_views.specs.Quotes.{char_inside, char_text, hexadecimal};
ghost use Rattle.value_views.specs.Texts.{truth_text, with_length, known_text, reference_text, value_text};

use crate::known::Known;
use crate::names::class_name;
use crate::quotes::{escaped, quote};
use jdwp_values::{ObjectId, Value};
use std::alloc::Global;
use wire_core::{NoMemory, Text};

// A whole number in decimal.
fn number_text(alloc: Global, number: i64) -> Result<Text, NoMemory>
    ensures { IfOk result (λ text. text ≡ signed_decimal number) }
{
    Ok(Text::from_string(format!(in alloc; "{number}")?))
}

// The bits of a float.
fn float_text(alloc: Global, bits: u32) -> Result<Text, NoMemory>
    ensures { IfOk result (λ text. text ≡ codes "float:0x" ++ hexadecimal 8 bits) }
{
    Ok(Text::from_string(format!(in alloc; "float:0x{bits:08x}")?))
}

// The bits of a double.
fn double_text(alloc: Global, bits: u64) -> Result<Text, NoMemory>
    ensures { IfOk result (λ text. text ≡ codes "double:0x" ++ hexadecimal 16 bits) }
{
    Ok(Text::from_string(format!(in alloc; "double:0x{bits:016x}")?))
}

// A truth value, by its byte.
fn truth_text(alloc: Global, byte: u8) -> Result<Text, NoMemory>
    ensures { IfOk result (λ text. text ≡ truth_text byte) }
{
    Text::from_str(alloc, if byte == 0 { "false" } else { "true" })
}

// Adds a char without its quotes.
fn push_char_inside(alloc: Global, shown: &mut String, char: u16) -> Result<(), NoMemory>
    ensures { OnOk result (string_bytes shown.new ≡ string_bytes shown.old ++ char_inside char) }
{
    match char {
        39 => shown.push_str("\\'")?,
        92 => shown.push_str("\\\\")?,
        32..=126 => shown.push(char::from(char as u8))?,
        _ => shown.push_str(escaped(alloc, u32::from(char))?.as_str())?,
    }
    Ok(())
}

// A char in its quotes.
fn char_text(alloc: Global, char: u16) -> Result<Text, NoMemory>
    ensures { IfOk result (λ text. text ≡ char_text char) }
{
    let mut shown = String::from_str(alloc, "'")?;
    push_char_inside(alloc, &mut shown, char)?;
    shown.push('\'')?;
    Ok(Text::from_string(shown))
}

// A length in brackets between two texts.
fn bracketed(alloc: Global, front: &str, length: u32, back: &str) -> Result<Text, NoMemory>
    ensures { IfOk result (λ text.
        text ≡ front.now ++ (codes "[" ++ (decimal length ++ (codes "]" ++ back.now)))) }
{
    Ok(Text::from_string(format!(in alloc; "{front}[{length}]{back}")?))
}

// A length inside the first brackets of a type's name.
fn with_length(alloc: Global, length: u32, name: &str) -> Result<Text, NoMemory>
    ensures { IfOk result (λ text. text ≡ with_length length name.now) }
{
    match name.split_once("[]") {
        Some((front, back)) => bracketed(alloc, front, length, back),
        None => bracketed(alloc, name, length, ""),
    }
}

// An object, by the signature of its class.
fn object_text(alloc: Global, id: u64, signature: &[u8]) -> Result<Text, NoMemory>
    ensures { IfOk result (λ text. text ≡ class_name signature.now ++ codes "@" ++ digits 16 false id) }
{
    let class = class_name(alloc, signature)?;
    let name = class.as_str();
    Ok(Text::from_string(format!(in alloc; "{name}@{id:x}")?))
}

// An array, by the signature of its class.
fn array_text(alloc: Global, length: u32, signature: &[u8]) -> Result<Text, NoMemory>
    ensures { IfOk result (λ text. text ≡ with_length length (class_name signature.now)) }
{
    let class = class_name(alloc, signature)?;
    with_length(alloc, length, class.as_str())
}

// An object of which its id alone is known.
fn id_text(alloc: Global, id: u64) -> Result<Text, NoMemory>
    ensures { IfOk result (λ text. text ≡ codes "@" ++ digits 16 false id) }
{
    Ok(Text::from_string(format!(in alloc; "@{id:x}")?))
}

// A reference, by its id and what is known of it.
fn reference_text(alloc: Global, object: ObjectId, known: &Known) -> Result<Text, NoMemory>
    ensures { IfOk result (λ text. text ≡ reference_text object.0 known.now) }
{
    let id = object.0;
    if id == 0 {
        return Text::from_str(alloc, "null");
    }
    match known {
        Known::Plain => id_text(alloc, id),
        Known::Object { signature } => object_text(alloc, id, signature.as_slice()),
        Known::Array { signature, length } => array_text(alloc, *length, signature.as_slice()),
        Known::Text(bytes) => quote(alloc, bytes.as_slice()),
    }
}

/// A value as text: a whole number in decimal, a truth value by its word, a char in quotes, the bits of a floating
/// number in hexadecimal, `void`, `null`; a string that isn't null in quotes, an array that isn't null by its type with
/// its length in the brackets, another reference by its class and its id in hexadecimal.
///
/// `known` is `Text` for a string that isn't null, `Array` for such an array, `Object` for another such reference, else
/// `Plain`; no id or kind is held against it. `NoMemory` comes where memory is refused (JDWP, Detailed Command
/// Information, common data types, value).
pub fn value_text(alloc: Global, value: &Value, known: &Known) -> Result<Text, NoMemory>
    ensures { IfOk result (λ text. text ≡ value_text value.now known.now) }
{
    match value {
        Value::Byte(number) => number_text(alloc, i64::from(*number)),
        Value::Char(char) => char_text(alloc, *char),
        Value::Double(bits) => double_text(alloc, *bits),
        Value::Float(bits) => float_text(alloc, *bits),
        Value::Int(number) => number_text(alloc, i64::from(*number)),
        Value::Long(number) => number_text(alloc, *number),
        Value::Short(number) => number_text(alloc, i64::from(*number)),
        Value::Boolean(byte) => truth_text(alloc, *byte),
        Value::Void => Text::from_str(alloc, "void"),
        Value::Object(object) => reference_text(alloc, *object, known),
        Value::Array(object) => reference_text(alloc, *object, known),
        Value::String(object) => reference_text(alloc, *object, known),
        Value::Thread(object) => reference_text(alloc, *object, known),
        Value::ThreadGroup(object) => reference_text(alloc, *object, known),
        Value::ClassLoader(object) => reference_text(alloc, *object, known),
        Value::ClassObject(object) => reference_text(alloc, *object, known),
    }
}
