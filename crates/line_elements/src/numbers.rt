//! Numbers and texts of a line.
ghost use Rattle.std.specs.Prelude.{◌≡◌, ◌<◌, ◌≤◌, ◌≤ℤ◌, IfOk, IfSome};
ghost use Rattle.serde_json.specs.View.{view};
ghost use Rattle.line_elements.specs.Numbers.{natural_of, signed_of, int_of, long_of, index_of, text_of};
ghost use Rattle.line_elements.specs.Numbers.{text_or_null_of};
ghost use Rattle.line_elements.specs.Numbers.{version_at, version_of};

use crate::version::Version;
use serde_json::Value;
use std::alloc::Global;
use wire_core::{Blob, NoMemory};

/// A number without a sign, at least so much and below the bound.
pub(crate) fn natural(value: &Value, least: u64, bound: u64) -> Option<u64>
    ensures value { result ≡ natural_of least bound (view value.now) }
    ensures below { IfSome result (λ n. n < bound) }
{
    let number = value.as_u64()?;
    if least <= number && number < bound {
        Some(number)
    } else {
        None
    }
}

/// A number with a sign, from the least to the most.
pub(crate) fn signed(value: &Value, least: i64, most: i64) -> Option<i64>
    ensures value { result ≡ signed_of least most (view value.now) }
    ensures range { IfSome result (λ z. (least ≤ℤ z) × (z ≤ℤ most)) }
{
    let number = value.as_i64()?;
    if least <= number && number <= most {
        Some(number)
    } else {
        None
    }
}

/// A number of 32 bits.
pub(crate) fn int(value: &Value) -> Option<i32>
    ensures { result ≡ int_of (view value.now) }
{
    let number = signed(value, -2_147_483_648, 2_147_483_647)?;
    Some(number as i32)
}

/// A number of 64 bits.
pub(crate) fn long(value: &Value) -> Option<i64>
    ensures { result ≡ long_of (view value.now) }
{
    signed(value, -9_223_372_036_854_775_808, 9_223_372_036_854_775_807)
}

/// Where a frame stands in its method's code; -1 is kept as 2^64 - 1.
pub(crate) fn index(value: &Value) -> Option<u64>
    ensures { result ≡ index_of (view value.now) }
{
    let number = signed(value, -1, 9_223_372_036_854_775_807)?;
    Some(number.cast_unsigned())
}

/// A text's bytes.
#[tactic(auto, using(crate::proofs::NumberLaws::is_utf8_text))]
pub(crate) fn text(alloc: Global, value: &Value) -> Result<Option<Blob>, NoMemory>
    ensures { IfOk result (λ text. text ≡ text_of (view value.now)) }
{
    match value.as_str() {
        Some(text) => Ok(Some(Blob::from_slice(alloc, text.as_bytes())?)),
        None => Ok(None),
    }
}

/// A text's bytes, or null.
#[tactic(auto, using(crate::proofs::NumberLaws::is_utf8_text))]
pub(crate) fn text_or_null(alloc: Global, value: &Value) -> Result<Option<Option<Blob>>, NoMemory>
    ensures { IfOk result (λ text. text ≡ text_or_null_of (view value.now)) }
{
    if value.is_null() {
        return Ok(Some(None));
    }
    match value.as_str() {
        Some(text) => Ok(Some(Some(Blob::from_slice(alloc, text.as_bytes())?))),
        None => Ok(None),
    }
}

/// The version of a number, where it is known; nothing of what is no integer.
pub(crate) fn version(value: &Value) -> Option<Option<Version>>
    ensures { result ≡ version_of (view value.now) }
{
    match value.as_u64() {
        Some(number) => Some(version_at(number)),
        None => if value.is_i64() { Some(None) } else { None },
    }
}

fn version_at(number: u64) -> Option<Version>
    ensures { result ≡ version_at number }
{
    match number {
        1 => Some(Version::First),
        2 => Some(Version::Second),
        _ => None,
    }
}
