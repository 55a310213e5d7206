//! The kinds of values, and the values that nothing was put to.
ghost use Rattle.std.specs.Prelude.{◌≡◌, option_copied};
ghost use Rattle.world_model.specs.Kinds.{same_kind, is_of_byte, kind_in, element_in, element_kind, reference_of, null};
ghost use Rattle.world_model.specs.Kinds.{zero_of, zero_in, is_static};

use jdwp_values::{ObjectId, Tag, Value};

/// Whether values of two tags can lie in one place: of references all can.
pub(crate) fn same_kind(a: Tag, b: Tag) -> bool
    ensures { result ≡ same_kind a b }
{
    if a.is_reference() {
        b.is_reference()
    } else {
        a.byte() == b.byte()
    }
}

/// Whether a value can lie where the byte of a tag says what lies there.
pub(crate) fn is_of_byte(byte: u8, value: &Value) -> bool
    ensures { result ≡ is_of_byte byte value.now }
{
    match Tag::from_byte(byte) {
        Some(tag) => same_kind(tag, value.tag()),
        None => false,
    }
}

/// The kind of the values of a type, by its signature.
pub(crate) fn kind_in(signature: &[u8]) -> Option<Tag>
    ensures { result ≡ kind_in signature.now }
{
    match signature {
        [byte, ..] => Tag::from_byte(*byte),
        [] => None,
    }
}

// The signature of an array's elements.
fn element_in(signature: &[u8]) -> Option<&[u8]>
    ensures { option_copied result ≡ element_in signature.now }
{
    match signature {
        [b'[', element @ ..] => Some(element),
        _ => None,
    }
}

/// The kind of an array's elements, by the signature of its class.
pub(crate) fn element_kind(signature: &[u8]) -> Option<Tag>
    ensures { result ≡ element_kind signature.now }
{
    kind_in(element_in(signature)?)
}

/// An object's id, behind the tag of what it is.
pub(crate) fn reference_of(tag: Tag, id: ObjectId) -> Value
    ensures { result ≡ reference_of tag id }
{
    match tag {
        Tag::Array => Value::Array(id),
        Tag::String => Value::String(id),
        Tag::Thread => Value::Thread(id),
        Tag::ThreadGroup => Value::ThreadGroup(id),
        Tag::ClassLoader => Value::ClassLoader(id),
        Tag::ClassObject => Value::ClassObject(id),
        _ => Value::Object(id),
    }
}

/// Null.
pub(crate) fn null() -> Value
    ensures { result ≡ null }
{
    Value::Object(ObjectId(0))
}

// The value of a kind that has all bits 0.
fn zero_of(tag: Tag) -> Value
    ensures { result ≡ zero_of tag }
{
    match tag {
        Tag::Byte => Value::Byte(0),
        Tag::Char => Value::Char(0),
        Tag::Double => Value::Double(0),
        Tag::Float => Value::Float(0),
        Tag::Int => Value::Int(0),
        Tag::Long => Value::Long(0),
        Tag::Short => Value::Short(0),
        Tag::Boolean => Value::Boolean(0),
        Tag::Void => Value::Void,
        _ => null(),
    }
}

/// The value of a field that nothing was put to.
pub(crate) fn zero_in(signature: &[u8]) -> Value
    ensures { result ≡ zero_in signature.now }
{
    match kind_in(signature) {
        Some(tag) => zero_of(tag),
        None => Value::Void,
    }
}

/// Whether a field is static.
pub(crate) fn is_static(bits: i32) -> bool
    ensures { result ≡ is_static bits }
{
    bits.cast_unsigned() & 8 != 0
}
