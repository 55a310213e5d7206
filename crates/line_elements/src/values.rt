//! Values of the target's program, tags and lists of a line.
ghost use Rattle.std.specs.Prelude.{◌≡◌, ◌≤◌, ◌-◌, ◌^◌, option_map, IfSome};
ghost use Rattle.serde_json.specs.View.{view, items_view};
ghost use Rattle.line_elements.specs.Values.{tag_of_text, tag_in, is_object_tag, object_tag_of, class_tag_of};
ghost use Rattle.line_elements.specs.Values.{policy_of};
ghost use Rattle.line_elements.specs.Values.{side_at, side_of, two_of, pair_of, plain_bits, bits_in};
ghost use Rattle.line_elements.specs.Values.{reference_of, tagged_of, value_in, value_of, slot_in, slot_of, line_of};

use crate::bits::bits_of;
use crate::numbers::{int, long, natural, signed};
use crate::version::Version;
use jdwp_events::Policy;
use jdwp_values::{Line, ObjectId, Tag, TypeTag, Value};
use serde_json::Value as Json;
use slot_values::SlotValue;
use wire_core::Side;

fn tag_of_text(text: &[u8]) -> Option<Tag>
    ensures { result ≡ tag_of_text text.now }
{
    match text {
        [] => None,
        [byte] => Tag::from_byte(*byte),
        _ => None,
    }
}

fn tag(value: &Json) -> Option<Tag>
    ensures { result ≡ tag_in (view value.now) }
{
    tag_of_text(value.as_str()?.as_bytes())
}

fn is_object_tag(tag: Tag) -> bool
    ensures { result ≡ is_object_tag tag }
{
    match tag {
        Tag::Object => true,
        Tag::Thread => true,
        Tag::ThreadGroup => true,
        Tag::ClassLoader => true,
        Tag::ClassObject => true,
        _ => false,
    }
}

/// What an object is that is no array and no string.
pub(crate) fn object_tag(value: &Json) -> Option<Tag>
    ensures { result ≡ object_tag_of (view value.now) }
{
    let tag = tag(value)?;
    if is_object_tag(tag) { Some(tag) } else { None }
}

/// What a class is: 1 a class, 2 an interface, 3 an array type.
pub(crate) fn class_tag(value: &Json) -> Option<TypeTag>
    ensures { result ≡ class_tag_of (view value.now) }
{
    match value.as_u64()? {
        1 => Some(TypeTag::Class),
        2 => Some(TypeTag::Interface),
        3 => Some(TypeTag::Array),
        _ => None,
    }
}

/// Whether no thread, 0, or all threads, 2, are suspended.
pub(crate) fn policy(value: &Json) -> Option<Policy>
    ensures { result ≡ policy_of (view value.now) }
{
    match value.as_u64()? {
        0 => Some(Policy::NoThread),
        2 => Some(Policy::All),
        _ => None,
    }
}

fn side_at(name: &str) -> Option<Side>
    ensures { result ≡ side_at name.now }
{
    if name == "client" {
        Some(Side::Client)
    } else if name == "target" {
        Some(Side::Target)
    } else {
        None
    }
}

/// A side, by its name.
pub(crate) fn side(value: &Json) -> Option<Side>
    ensures { result ≡ side_of (view value.now) }
{
    side_at(value.as_str()?)
}

#[tactic(auto, using(crate::proofs::PartLaws::two_of_one, crate::proofs::PartLaws::two_of_many))]
fn two(elements: &[Json]) -> Option<(&Json, &Json)>
    ensures { option_map (λ pair. (view pair.0.now, view pair.1.now)) result
        ≡ two_of (items_view elements.now) }
{
    match elements {
        [] => None,
        [_first] => None,
        [first, second] => Some((first, second)),
        _ => None,
    }
}

fn pair(value: &Json) -> Option<(&Json, &Json)>
    ensures { option_map (λ pair. (view pair.0.now, view pair.1.now)) result
        ≡ pair_of (view value.now) }
{
    two(value.as_array()?.as_slice())
}

fn plain_bits(version: Version, value: &Json) -> Option<u64>
    ensures { result ≡ plain_bits version (view value.now) }
{
    match version {
        Version::First => natural(value, 0, 1 << 63),
        Version::Second => bits_of(value.as_str()?),
    }
}

// Bits, so many at most, by the version that they are spelled in.
fn bits(version: Version, most: u64, value: &Json) -> Option<u64>
    ensures value { result ≡ bits_in version most (view value.now) }
    ensures most { IfSome result (λ n. n ≤ most) }
{
    let bits = plain_bits(version, value)?;
    if bits <= most { Some(bits) } else { None }
}

fn object(version: Version, value: &Json) -> Option<ObjectId>
    ensures { result ≡ option_map (λ n. record { 0 = n }) (bits_in version (2 ^ 64 - 1) (view value.now)) }
{
    Some(ObjectId(bits(version, u64::MAX, value)?))
}

fn tagged(version: Version, tag: Tag, value: &Json) -> Option<Value>
    ensures { result ≡ tagged_of version tag (view value.now) }
{
    match tag {
        Tag::Byte => Some(Value::Byte(signed(value, -128, 127)? as i8)),
        Tag::Char => Some(Value::Char(bits(version, 65_535, value)? as u16)),
        Tag::Double => Some(Value::Double(bits(version, u64::MAX, value)?)),
        Tag::Float => Some(Value::Float(bits(version, 4_294_967_295, value)? as u32)),
        Tag::Int => Some(Value::Int(int(value)?)),
        Tag::Long => Some(Value::Long(long(value)?)),
        Tag::Short => Some(Value::Short(signed(value, -32_768, 32_767)? as i16)),
        Tag::Boolean => Some(Value::Boolean(bits(version, 255, value)? as u8)),
        Tag::Void => None,
        Tag::Object => Some(Value::Object(object(version, value)?)),
        Tag::Array => Some(Value::Array(object(version, value)?)),
        Tag::String => Some(Value::String(object(version, value)?)),
        Tag::Thread => Some(Value::Thread(object(version, value)?)),
        Tag::ThreadGroup => Some(Value::ThreadGroup(object(version, value)?)),
        Tag::ClassLoader => Some(Value::ClassLoader(object(version, value)?)),
        Tag::ClassObject => Some(Value::ClassObject(object(version, value)?)),
    }
}

/// A value behind its tag.
pub(crate) fn value(version: Version, value: &Json) -> Option<Value>
    ensures { result ≡ value_of version (view value.now) }
{
    let (first, second) = pair(value)?;
    tagged(version, tag(first)?, second)
}

/// A slot, and its value.
pub(crate) fn slot(version: Version, pair_value: &Json) -> Option<SlotValue>
    ensures { result ≡ slot_of version (view pair_value.now) }
{
    let (first, second) = pair(pair_value)?;
    Some(SlotValue {
        slot: int(first)?,
        value: value(version, second)?,
    })
}

/// An index of a method's code, and its line.
pub(crate) fn line(value: &Json) -> Option<Line>
    ensures { result ≡ line_of (view value.now) }
{
    let (first, second) = pair(value)?;
    Some(Line {
        index: natural(first, 0, 1 << 63)?,
        line: int(second)?,
    })
}
