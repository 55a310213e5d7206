//! The kinds of values.
ghost use Rattle.std.specs.Prelude.{◌≡◌, option_copied};
ghost use Rattle.world_model.specs.Kinds.{same_kind, kind_in, element_in, element_kind, is_static};
ghost use Rattle.world_model.specs.Storing.{referred};

use jdwp_values::{ObjectId, Tag, Value};

/// Whether values of two tags can lie in one place: of references all can.
pub(crate) fn same_kind(a: Tag, b: Tag) -> bool
    ensures { result ≡ same_kind a b }
{
    if a.is_reference() {
        b.is_reference()
    } else {
        a.byte() == b.byte()
    }
}

/// The kind of the values of a type, by its signature.
pub(crate) fn kind_in(signature: &[u8]) -> Option<Tag>
    ensures { result ≡ kind_in signature.now }
{
    match signature {
        [byte, ..] => Tag::from_byte(*byte),
        [] => None,
    }
}

// The signature of an array's elements.
fn element_in(signature: &[u8]) -> Option<&[u8]>
    ensures { option_copied result ≡ element_in signature.now }
{
    match signature {
        [b'[', element @ ..] => Some(element),
        _ => None,
    }
}

/// The kind of an array's elements, by the signature of its class.
pub(crate) fn element_kind(signature: &[u8]) -> Option<Tag>
    ensures { result ≡ element_kind signature.now }
{
    kind_in(element_in(signature)?)
}

/// Whether a field is static.
pub(crate) fn is_static(bits: i32) -> bool
    ensures { result ≡ is_static bits }
{
    bits.cast_unsigned() & 8 != 0
}

/// The object that a value refers to.
pub(crate) fn referred(value: &Value) -> Option<ObjectId>
    ensures { result ≡ referred value.now }
{
    match value {
        Value::Object(id) => Some(*id),
        Value::Array(id) => Some(*id),
        Value::String(id) => Some(*id),
        Value::Thread(id) => Some(*id),
        Value::ThreadGroup(id) => Some(*id),
        Value::ClassLoader(id) => Some(*id),
        Value::ClassObject(id) => Some(*id),
        _ => None,
    }
}
