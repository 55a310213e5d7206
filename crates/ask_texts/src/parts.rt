//! The parts of a question's line: ids, numbers, bytes, and lists.
ghost use Rattle.std.specs.Prelude.{◌≡◌, ◌<◌, ◌≤ℤ◌, IfOk, IfSome, option_map};
ghost use Rattle.std.specs.List.{list_all};
ghost use Rattle.line_elements.specs.Numbers.{int_of, natural_of, signed_of};
ghost use Rattle.line_elements.specs.Values.{each_of, list_of, pair_of, two_of};
ghost use Rattle.script_text.specs.Rows.{is_lower_digit};
ghost use Rattle.serde_json.specs.View.{view, items_view};
ghost use Rattle.ask_texts.specs.Parts.{bytes_in, bytes_of, field_in, id_of, only_of, slot_in, slot_of, three_of};

use hex::FromHexError;
use jdwp_commands::Slot;
use jdwp_values::FieldId;
use serde_json::Value as Json;
use std::alloc::Global;
use wire_core::{Blob, List, NoMemory};

/// An id: an integer of 64 bits.
pub(crate) fn id(value: &Json) -> Option<u64>
    ensures { result ≡ id_of (view value.now) }
{
    value.as_u64()
}

// A number with a sign, from the least to the most.
fn signed(value: &Json, least: i64, most: i64) -> Option<i64>
    ensures value { result ≡ signed_of least most (view value.now) }
    ensures range { IfSome result (λ z. (least ≤ℤ z) × (z ≤ℤ most)) }
{
    let number = value.as_i64()?;
    if least <= number && number <= most {
        Some(number)
    } else {
        None
    }
}

/// A number of 32 bits.
pub(crate) fn int(value: &Json) -> Option<i32>
    ensures { result ≡ int_of (view value.now) }
{
    let number = signed(value, -2_147_483_648, 2_147_483_647)?;
    Some(number as i32)
}

// A byte.
fn byte(value: &Json) -> Option<u8>
    ensures { result ≡ natural_of 0 256 (view value.now) }
{
    u8::try_from(value.as_u64()?).ok()
}

fn is_lower_digit(byte: u8) -> bool
    ensures { result ≡ is_lower_digit byte }
{
    byte.is_ascii_digit() || (b'a' <= byte && byte <= b'f')
}

fn are_lower_digits(bytes: &[u8]) -> bool
    ensures { result ≡ list_all is_lower_digit bytes.now }
{
    bytes.iter().all(|byte| is_lower_digit(*byte))
}

fn bytes_of(alloc: Global, text: &str) -> Result<Option<Blob>, NoMemory>
    ensures { IfOk result (λ bytes. bytes ≡ bytes_of text.now) }
{
    if !are_lower_digits(text.as_bytes()) {
        return Ok(None);
    }
    match hex::decode(alloc, text) {
        Ok(bytes) => Ok(Some(Blob::from_vec(bytes))),
        Err(FromHexError::OutOfMemory) => Err(NoMemory),
        Err(_) => Ok(None),
    }
}

/// The bytes that a text is the lower-case hexadecimal of. `NoMemory` comes where memory is refused.
pub(crate) fn bytes(alloc: Global, value: &Json) -> Result<Option<Blob>, NoMemory>
    ensures { IfOk result (λ bytes. bytes ≡ bytes_in (view value.now)) }
{
    match value.as_str() {
        Some(text) => bytes_of(alloc, text),
        None => Ok(None),
    }
}

/// The only element.
#[tactic(auto, using(crate::proofs::PartLaws::only_of_many))]
pub(crate) fn only(elements: &[Json]) -> Option<&Json>
    ensures { option_map (λ only. view only.now) result ≡ only_of (items_view elements.now) }
{
    match elements {
        [] => None,
        [only] => Some(only),
        _ => None,
    }
}

/// Two elements.
#[tactic(auto, using(crate::proofs::PartLaws::two_of_one, crate::proofs::PartLaws::two_of_many))]
pub(crate) fn two(elements: &[Json]) -> Option<(&Json, &Json)>
    ensures { option_map (λ pair. (view pair.0.now, view pair.1.now)) result
        ≡ two_of (items_view elements.now) }
{
    match elements {
        [] => None,
        [_first] => None,
        [first, second] => Some((first, second)),
        _ => None,
    }
}

/// Three elements.
#[tactic(auto, using(crate::proofs::PartLaws::three_of_one, crate::proofs::PartLaws::three_of_two, crate::proofs::PartLaws::three_of_many))]
pub(crate) fn three(elements: &[Json]) -> Option<(&Json, &Json, &Json)>
    ensures { option_map (λ three. (view three.0.now, (view three.1.now, view three.2.now))) result
        ≡ three_of (items_view elements.now) }
{
    match elements {
        [] => None,
        [_first] => None,
        [_first, _second] => None,
        [first, second, third] => Some((first, second, third)),
        _ => None,
    }
}

/// What a list of a line is made of.
pub(crate) trait Element: Drop {
    ghost use Rattle.std.specs.Prelude.{◌≡◌, Option};
    ghost use Rattle.serde_json.specs.Data.{Data};
    ghost use Rattle.serde_json.specs.View.{view};

    ghost read_of: { Data → Option Self };

    /// Reads one.
    fn read(value: &Json) -> Option<Self>
        ensures { result ≡ read_of (view value.now) };
}

impl Element for FieldId {
    ghost use Rattle.ask_texts.specs.Parts.{field_in};

    ghost read_of = { field_in };

    fn read(value: &Json) -> Option<FieldId> {
        Some(FieldId(id(value)?))
    }
}

impl Element for Slot {
    ghost use Rattle.ask_texts.specs.Parts.{slot_of};

    ghost read_of = { slot_of };

    fn read(value: &Json) -> Option<Slot> {
        let (slot, tag) = pair(value)?;
        slot_in(slot, tag)
    }
}

fn pair(value: &Json) -> Option<(&Json, &Json)>
    ensures { option_map (λ pair. (view pair.0.now, view pair.1.now)) result
        ≡ pair_of (view value.now) }
{
    two(value.as_array()?.as_slice())
}

fn slot_in(slot: &Json, tag: &Json) -> Option<Slot>
    ensures { result ≡ slot_in (view slot.now) (view tag.now) }
{
    Some(Slot {
        slot: int(slot)?,
        tag: byte(tag)?,
    })
}

fn each<T: Element>(alloc: Global, elements: &[Json]) -> Result<Option<List<T>>, NoMemory>
    ensures { IfOk result (λ list. list ≡ each_of T.read_of (items_view elements.now)) }
{
    let mut list = List::new(alloc);
    for element in elements {
        match T::read(element) {
            Some(item) => list.push(item)?,
            None => return Ok(None),
        }
    }
    Ok(Some(list))
}

/// A list, each of whose elements is of the kind. `NoMemory` comes where memory is refused.
pub(crate) fn list<T: Element>(alloc: Global, value: &Json) -> Result<Option<List<T>>, NoMemory>
    ensures { IfOk result (λ list. list ≡ list_of T.read_of (view value.now)) }
{
    match value.as_array() {
        Some(elements) => each(alloc, elements.as_slice()),
        None => Ok(None),
    }
}
