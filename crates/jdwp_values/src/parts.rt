//! Parts at the front of some bytes: each function gives the part and the bytes behind it.

ghost use Rattle.std.specs.Prelude.{◌≡◌, ◌<◌, ◌≤◌, ◌^◌, true, false, length, IfOk};
ghost use Rattle.std.specs.Int.{w8, w16, w32, w64};
ghost use Rattle.std.specs.Int.Digits.{number_from_digits};
ghost use Rattle.jdwp_values.specs.Parts.{object_id, thread_id, class_id, method_id, field_id, frame_id};
ghost use Rattle.jdwp_values.specs.Reading.{Gives, bytes_at, unsigned_at, signed_at, type_tag_at, simple_at, count_at};
ghost use Rattle.jdwp_values.specs.Reading.{text_at, location_at, of_tag_at, untagged_at, value_at, reference_at};
ghost use Rattle.jdwp_values.specs.Reading.{tail_at};
ghost use Rattle.jdwp_values.specs.Tags.{is_reference};

use crate::fault::ValueFault;
use crate::id::{ClassId, FieldId, FrameId, MethodId, ObjectId, ThreadId};
use crate::limit::Limit;
use crate::location::Location;
use crate::sizes::IdSizes;
use crate::tag::{Tag, TypeTag};
use crate::value::Value;

fn front(size: usize, bytes: &[u8]) -> Result<(&[u8], &[u8]), ValueFault>
    ensures { Gives (λ x. (x.0.now, x.1.now)) result (bytes_at size bytes.now) }
{
    if bytes.len() < size {
        return Err(ValueFault::Short);
    }
    Ok(bytes.split_at(size))
}

/// The big-endian number of at most eight bytes.
fn big_endian(bytes: &[u8]) -> u64
    requires { length bytes.now ≤ 8 }
    ensures value { result ≡ number_from_digits 256 bytes.now }
    ensures below { result < 256 ^ length bytes.now }
{
    let mut number = 0;
    for byte in bytes {
        number = number * 256 + u64::from(*byte);
    }
    number
}

#[tactic(auto, unfolding(crate::specs::Reading::unsigned_at))]
fn unsigned(size: usize, bytes: &[u8]) -> Result<(u64, &[u8]), ValueFault>
    requires { size ≤ 8 }
    ensures value { Gives (λ x. (x.0, x.1.now)) result (unsigned_at size bytes.now) }
    ensures below { IfOk result (λ x. x.0 < 256 ^ size) }
{
    let (front, rest) = front(size, bytes)?;
    Ok((big_endian(front), rest))
}

#[tactic(auto, unfolding(crate::specs::Reading::signed_at))]
fn signed_byte(bytes: &[u8]) -> Result<(i8, &[u8]), ValueFault>
    ensures { Gives (λ x. (x.0, x.1.now)) result (signed_at w8 bytes.now) }
{
    let (number, rest) = unsigned(1, bytes)?;
    Ok(((number as u8).cast_signed(), rest))
}

#[tactic(auto, unfolding(crate::specs::Reading::signed_at))]
fn short(bytes: &[u8]) -> Result<(i16, &[u8]), ValueFault>
    ensures { Gives (λ x. (x.0, x.1.now)) result (signed_at w16 bytes.now) }
{
    let (number, rest) = unsigned(2, bytes)?;
    Ok(((number as u16).cast_signed(), rest))
}

/// A signed number of four bytes.
#[tactic(auto, unfolding(crate::specs::Reading::signed_at))]
pub(crate) fn int(bytes: &[u8]) -> Result<(i32, &[u8]), ValueFault>
    ensures { Gives (λ x. (x.0, x.1.now)) result (signed_at w32 bytes.now) }
{
    let (number, rest) = unsigned(4, bytes)?;
    Ok(((number as u32).cast_signed(), rest))
}

/// A signed number of eight bytes.
#[tactic(auto, unfolding(crate::specs::Reading::signed_at))]
pub(crate) fn long(bytes: &[u8]) -> Result<(i64, &[u8]), ValueFault>
    ensures { Gives (λ x. (x.0, x.1.now)) result (signed_at w64 bytes.now) }
{
    let (number, rest) = unsigned(8, bytes)?;
    Ok((number.cast_signed(), rest))
}

/// An object's id.
#[tactic(auto, unfolding(crate::specs::Reading::simple_at))]
pub(crate) fn object(sizes: IdSizes, bytes: &[u8]) -> Result<(ObjectId, &[u8]), ValueFault>
    ensures { Gives (λ x. (x.0, x.1.now)) result (simple_at sizes object_id bytes.now) }
{
    let (number, rest) = unsigned(sizes.object as usize, bytes)?;
    Ok((ObjectId(number), rest))
}

/// A thread's id, of an object's size.
#[tactic(auto, unfolding(crate::specs::Reading::simple_at))]
pub(crate) fn thread(sizes: IdSizes, bytes: &[u8]) -> Result<(ThreadId, &[u8]), ValueFault>
    ensures { Gives (λ x. (x.0, x.1.now)) result (simple_at sizes thread_id bytes.now) }
{
    let (number, rest) = unsigned(sizes.object as usize, bytes)?;
    Ok((ThreadId(number), rest))
}

/// A reference type's id.
#[tactic(auto, unfolding(crate::specs::Reading::simple_at))]
pub(crate) fn class(sizes: IdSizes, bytes: &[u8]) -> Result<(ClassId, &[u8]), ValueFault>
    ensures { Gives (λ x. (x.0, x.1.now)) result (simple_at sizes class_id bytes.now) }
{
    let (number, rest) = unsigned(sizes.class as usize, bytes)?;
    Ok((ClassId(number), rest))
}

/// A method's id.
#[tactic(auto, unfolding(crate::specs::Reading::simple_at))]
pub(crate) fn method(sizes: IdSizes, bytes: &[u8]) -> Result<(MethodId, &[u8]), ValueFault>
    ensures { Gives (λ x. (x.0, x.1.now)) result (simple_at sizes method_id bytes.now) }
{
    let (number, rest) = unsigned(sizes.method as usize, bytes)?;
    Ok((MethodId(number), rest))
}

/// A field's id.
#[tactic(auto, unfolding(crate::specs::Reading::simple_at))]
pub(crate) fn field(sizes: IdSizes, bytes: &[u8]) -> Result<(FieldId, &[u8]), ValueFault>
    ensures { Gives (λ x. (x.0, x.1.now)) result (simple_at sizes field_id bytes.now) }
{
    let (number, rest) = unsigned(sizes.field as usize, bytes)?;
    Ok((FieldId(number), rest))
}

/// A frame's id.
#[tactic(auto, unfolding(crate::specs::Reading::simple_at))]
pub(crate) fn frame(sizes: IdSizes, bytes: &[u8]) -> Result<(FrameId, &[u8]), ValueFault>
    ensures { Gives (λ x. (x.0, x.1.now)) result (simple_at sizes frame_id bytes.now) }
{
    let (number, rest) = unsigned(sizes.frame as usize, bytes)?;
    Ok((FrameId(number), rest))
}

/// A type tag: `BadTag` above 3.
#[tactic(auto, unfolding(crate::specs::Reading::type_tag_at))]
pub(crate) fn type_tag(bytes: &[u8]) -> Result<(TypeTag, &[u8]), ValueFault>
    ensures { Gives (λ x. (x.0, x.1.now)) result (type_tag_at bytes.now) }
{
    let (number, rest) = unsigned(1, bytes)?;
    match TypeTag::from_byte(number as u8) {
        Some(tag) => Ok((tag, rest)),
        None => Err(ValueFault::BadTag),
    }
}

/// A count: `BadCount` where it is negative or the limit doesn't allow it.
#[tactic(auto, unfolding(crate::specs::Reading::count_at))]
pub(crate) fn count(limit: Limit, bytes: &[u8]) -> Result<(u32, &[u8]), ValueFault>
    ensures { Gives (λ x. (x.0, x.1.now)) result (count_at limit bytes.now) }
{
    let (number, rest) = unsigned(4, bytes)?;
    let count = number as u32;
    if count < 1 << 31 && limit.allows(count) {
        return Ok((count, rest));
    }
    Err(ValueFault::BadCount)
}

/// A text's bytes: `BadCount` where its length is negative.
#[tactic(auto, unfolding(crate::specs::Reading::text_at))]
pub(crate) fn text(bytes: &[u8]) -> Result<(&[u8], &[u8]), ValueFault>
    ensures { Gives (λ x. (x.0.now, x.1.now)) result (text_at bytes.now) }
{
    let (len, rest) = count(Limit::Any, bytes)?;
    front(len as usize, rest)
}

/// A type tag, a class, a method and an index.
#[tactic(auto, unfolding(crate::specs::Reading::location_at))]
pub(crate) fn location(sizes: IdSizes, bytes: &[u8]) -> Result<(Location, &[u8]), ValueFault>
    ensures { Gives (λ x. (x.0, x.1.now)) result (location_at sizes bytes.now) }
{
    let (tag, rest) = type_tag(bytes)?;
    let (class, rest) = class(sizes, rest)?;
    let (method, rest) = method(sizes, rest)?;
    let (index, rest) = unsigned(8, rest)?;
    let location = Location {
        tag,
        class,
        method,
        index,
    };
    Ok((location, rest))
}

/// A value that is no reference, without its tag.
#[tactic(auto, unfolding(crate::specs::Reading::of_tag_at))]
fn primitive(sizes: IdSizes, tag: Tag, bytes: &[u8]) -> Result<(Value, &[u8]), ValueFault>
    requires { is_reference tag ≡ false }
    ensures { Gives (λ x. (x.0, x.1.now)) result (of_tag_at sizes tag bytes.now) }
{
    match tag {
        Tag::Byte => {
            let (number, rest) = signed_byte(bytes)?;
            Ok((Value::Byte(number), rest))
        }
        Tag::Char => {
            let (number, rest) = unsigned(2, bytes)?;
            Ok((Value::Char(number as u16), rest))
        }
        Tag::Double => {
            let (number, rest) = unsigned(8, bytes)?;
            Ok((Value::Double(number), rest))
        }
        Tag::Float => {
            let (number, rest) = unsigned(4, bytes)?;
            Ok((Value::Float(number as u32), rest))
        }
        Tag::Int => {
            let (number, rest) = int(bytes)?;
            Ok((Value::Int(number), rest))
        }
        Tag::Long => {
            let (number, rest) = long(bytes)?;
            Ok((Value::Long(number), rest))
        }
        Tag::Short => {
            let (number, rest) = short(bytes)?;
            Ok((Value::Short(number), rest))
        }
        Tag::Boolean => {
            let (number, rest) = unsigned(1, bytes)?;
            Ok((Value::Boolean(number as u8), rest))
        }
        Tag::Void => Ok((Value::Void, bytes)),
        _ => unreachable!(),
    }
}

/// A value that is a reference, without its tag.
#[tactic(auto, unfolding(crate::specs::Reading::of_tag_at))]
fn referred(sizes: IdSizes, tag: Tag, bytes: &[u8]) -> Result<(Value, &[u8]), ValueFault>
    requires { is_reference tag ≡ true }
    ensures { Gives (λ x. (x.0, x.1.now)) result (of_tag_at sizes tag bytes.now) }
{
    let (object, rest) = object(sizes, bytes)?;
    match tag {
        Tag::Object => Ok((Value::Object(object), rest)),
        Tag::Array => Ok((Value::Array(object), rest)),
        Tag::String => Ok((Value::String(object), rest)),
        Tag::Thread => Ok((Value::Thread(object), rest)),
        Tag::ThreadGroup => Ok((Value::ThreadGroup(object), rest)),
        Tag::ClassLoader => Ok((Value::ClassLoader(object), rest)),
        Tag::ClassObject => Ok((Value::ClassObject(object), rest)),
        _ => unreachable!(),
    }
}

/// The value behind a tag.
fn of_tag(sizes: IdSizes, tag: Tag, bytes: &[u8]) -> Result<(Value, &[u8]), ValueFault>
    ensures { Gives (λ x. (x.0, x.1.now)) result (of_tag_at sizes tag bytes.now) }
{
    if tag.is_reference() {
        return referred(sizes, tag, bytes);
    }
    primitive(sizes, tag, bytes)
}

/// The value behind a tag byte that has been read.
#[tactic(auto, unfolding(crate::specs::Reading::untagged_at))]
pub(crate) fn untagged(sizes: IdSizes, byte: u8, bytes: &[u8]) -> Result<(Value, &[u8]), ValueFault>
    ensures { Gives (λ x. (x.0, x.1.now)) result (untagged_at sizes byte bytes.now) }
{
    match Tag::from_byte(byte) {
        Some(tag) => of_tag(sizes, tag, bytes),
        None => Err(ValueFault::BadTag),
    }
}

/// An unsigned byte.
pub(crate) fn byte(bytes: &[u8]) -> Result<(u8, &[u8]), ValueFault>
    ensures { Gives (λ x. (x.0, x.1.now)) result (unsigned_at 1 bytes.now) }
{
    let (number, rest) = unsigned(1, bytes)?;
    Ok((number as u8, rest))
}

/// An unsigned number of four bytes.
pub(crate) fn number(bytes: &[u8]) -> Result<(u32, &[u8]), ValueFault>
    ensures { Gives (λ x. (x.0, x.1.now)) result (unsigned_at 4 bytes.now) }
{
    let (number, rest) = unsigned(4, bytes)?;
    Ok((number as u32, rest))
}

/// An unsigned number of eight bytes: a place in a method's code.
pub(crate) fn index(bytes: &[u8]) -> Result<(u64, &[u8]), ValueFault>
    ensures { Gives (λ x. (x.0, x.1.now)) result (unsigned_at 8 bytes.now) }
{
    unsigned(8, bytes)
}

/// A tag and its value: `BadTag` where the byte is no tag's.
#[tactic(auto, unfolding(crate::specs::Reading::value_at))]
pub(crate) fn value(sizes: IdSizes, bytes: &[u8]) -> Result<(Value, &[u8]), ValueFault>
    ensures { Gives (λ x. (x.0, x.1.now)) result (value_at sizes bytes.now) }
{
    let (tag, rest) = byte(bytes)?;
    untagged(sizes, tag, rest)
}

/// A reference's tag and its object: `BadTag` where the byte is no reference's tag.
#[tactic(auto, unfolding(crate::specs::Reading::reference_at))]
pub(crate) fn reference(sizes: IdSizes, bytes: &[u8]) -> Result<(Value, &[u8]), ValueFault>
    ensures { Gives (λ x. (x.0, x.1.now)) result (reference_at sizes bytes.now) }
{
    let (byte, rest) = byte(bytes)?;
    match Tag::from_byte(byte) {
        Some(tag) if tag.is_reference() => of_tag(sizes, tag, rest),
        _ => Err(ValueFault::BadTag),
    }
}

/// The bytes that are left, at least one and at most eight of them.
#[tactic(auto, unfolding(crate::specs::Reading::tail_at))]
pub(crate) fn tail(bytes: &[u8]) -> Result<(&[u8], &[u8]), ValueFault>
    ensures { Gives (λ x. (x.0.now, x.1.now)) result (tail_at bytes.now) }
{
    if bytes.is_empty() {
        return Err(ValueFault::Short);
    }
    Ok(bytes.split_at(bytes.len().min(8)))
}
