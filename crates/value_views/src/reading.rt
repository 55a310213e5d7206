//! Values that a client writes as texts.
ghost use Rattle.std.specs.Prelude.{◌≡◌, ◌≤◌, ◌^◌, option_and_then};
ghost use Rattle.std.specs.Char.{is_ascii_digit};
ghost use Rattle.std.specs.List.{list_all};
ghost use Rattle.value_views.specs.Reads.{is_number, number_in, positive, negative, whole_in, truth_in, null_in};
ghost use Rattle.value_views.specs.Reads.{is_writable, value_in, write_value};

use crate::chars::char_in;
use crate::fault::WriteFault;
use jdwp_values::{ObjectId, Tag, Value};
use wire_core::Text;

// Whether each byte is a decimal digit.
fn are_digits(bytes: &[u8]) -> bool
    ensures { result ≡ list_all is_ascii_digit bytes.now }
{
    bytes.iter().all(|byte| byte.is_ascii_digit())
}

// Whether a text is 1 to 20 decimal digits.
fn is_number(text: &str) -> bool
    ensures { result ≡ is_number text.now }
{
    !text.is_empty() && text.len() <= 20 && are_digits(text.as_bytes())
}

// The number that they write.
fn number_in(text: &str) -> Option<u128>
    ensures { result ≡ number_in text.now }
{
    if is_number(text) {
        text.parse().ok()
    } else {
        None
    }
}

// The number that is written without a sign, below the half of a range.
fn positive_in(digits: &str, half: u64) -> Option<i64>
    requires { half ≤ 2 ^ 63 }
    ensures { result ≡ option_and_then (positive half) (number_in digits.now) }
{
    let number = number_in(digits)?;
    if number < u128::from(half) {
        Some(number as i64)
    } else {
        None
    }
}

// The negative number that is written behind `-`, at most the half of a range below zero.
fn negative_in(digits: &str, half: u64) -> Option<i64>
    requires { half ≤ 2 ^ 63 }
    ensures { result ≡ option_and_then (negative half) (number_in digits.now) }
{
    let number = number_in(digits)?;
    if number <= u128::from(half) {
        Some((-(number as i128)) as i64)
    } else {
        None
    }
}

// A whole number of a range, by half the range.
fn whole_in(text: &str, half: u64) -> Option<i64>
    requires { half ≤ 2 ^ 63 }
    ensures { result ≡ whole_in half text.now }
{
    match text.strip_prefix('-') {
        Some(digits) => negative_in(digits, half),
        None => positive_in(text, half),
    }
}

fn byte_in(text: &str) -> Option<i8>
    ensures { result ≡ whole_in (2 ^ 7) text.now }
{
    Some(whole_in(text, 1 << 7)? as i8)
}

fn short_in(text: &str) -> Option<i16>
    ensures { result ≡ whole_in (2 ^ 15) text.now }
{
    Some(whole_in(text, 1 << 15)? as i16)
}

fn int_in(text: &str) -> Option<i32>
    ensures { result ≡ whole_in (2 ^ 31) text.now }
{
    Some(whole_in(text, 1 << 31)? as i32)
}

// The byte of a truth value.
fn truth_in(text: &str) -> Option<u8>
    ensures { result ≡ truth_in text.now }
{
    match text {
        "true" => Some(1),
        "false" => Some(0),
        _ => None,
    }
}

// The id of no object.
fn null_in(text: &str) -> Option<ObjectId>
    ensures { result ≡ null_in text.now }
{
    if text == "null" {
        Some(ObjectId(0))
    } else {
        None
    }
}

// The value of a kind that a text is.
fn value_in(tag: Tag, text: &str) -> Option<Value>
    ensures { result ≡ value_in tag text.now }
{
    match tag {
        Tag::Byte => byte_in(text).map(Value::Byte),
        Tag::Char => char_in(text).map(Value::Char),
        Tag::Double => None,
        Tag::Float => None,
        Tag::Int => int_in(text).map(Value::Int),
        Tag::Long => whole_in(text, 1 << 63).map(Value::Long),
        Tag::Short => short_in(text).map(Value::Short),
        Tag::Boolean => truth_in(text).map(Value::Boolean),
        Tag::Void => None,
        Tag::Object => null_in(text).map(Value::Object),
        Tag::Array => null_in(text).map(Value::Array),
        Tag::String => null_in(text).map(Value::String),
        Tag::Thread => null_in(text).map(Value::Thread),
        Tag::ThreadGroup => null_in(text).map(Value::ThreadGroup),
        Tag::ClassLoader => null_in(text).map(Value::ClassLoader),
        Tag::ClassObject => null_in(text).map(Value::ClassObject),
    }
}

// Whether values of a kind are read from texts.
fn is_writable(tag: Tag) -> bool
    ensures { result ≡ is_writable tag }
{
    match tag {
        Tag::Double => false,
        Tag::Float => false,
        Tag::Void => false,
        _ => true,
    }
}

/// The value that a text is, by the byte of its kind: of `B`, `S`, `I` and `J` 1 to 20 decimal digits in the kind's
/// range, with `-` before them where it is negative; of `Z` `true` or `false`; of `C` what `value_text` shows of the
/// char; of a reference `null`. `NotWritable` comes exactly where the byte is `F`, `D`, `V` or no tag, `BadText`
/// exactly where the text is no such value of another kind (JDWP, Constants, Tag).
#[tactic(auto, unfolding(crate::specs::Reads::write_value))]
pub fn write_value(kind: u8, text: &Text) -> Result<Value, WriteFault>
    ensures { result ≡ write_value kind text.now }
{
    let Some(tag) = Tag::from_byte(kind) else {
        return Err(WriteFault::NotWritable);
    };
    if !is_writable(tag) {
        return Err(WriteFault::NotWritable);
    }
    value_in(tag, text.as_str()).ok_or(WriteFault::BadText)
}
