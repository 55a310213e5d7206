//! Lines of bytes that came or went out, in the spelling in which they are printed. Nearly all lines of a log are such:
//! they are read and printed as they stand, without a JSON value.
ghost use Rattle.std.specs.Prelude.{◌≡◌, ◌+◌, ◌*◌, ◌<◌, ◌++◌, [], ◌∷◌, codes, slice_index, IfOk, IfSome, OnOk, Ok};
ghost use Rattle.hex.specs.Hex.{encode_lower, lower_digits};
ghost use Rattle.script_text.specs.Orderly.{HasBytes};
ghost use Rattle.script_text.specs.Reading.{row_in};
ghost use Rattle.script_text.specs.Texts.{bytes_data, line_of};
ghost use Rattle.script_text.specs.Spelled.{way_name, start_of, entry_of};
ghost use Rattle.script_text.specs.declared.rows.Row.TheVariants.{Entry as entry_row};

use crate::rows::Row;
use std::alloc::Global;
use wire_core::{Blob, Entry, NoMemory, Side};

/// Which way bytes went.
#[derive(Clone, Copy, Drop)]
pub(crate) enum Way {
    Came,
    Went,
}

// What a line of bytes says, and where its digits stand.
#[derive(Clone, Copy, Drop)]
struct Parts<'a> {
    way: Way,
    side: Side,
    digits: &'a [u8],
}

/// Adds the line of bytes to a text.
pub(crate) fn add_bytes(
    alloc: Global,
    text: &mut Blob,
    way: Way,
    side: Side,
    bytes: &[u8],
) -> Result<(), NoMemory>
    ensures { OnOk result (text.new ≡ text.old ++ line_of (bytes_data (way_name way) side bytes.now)) }
{
    let digits = hex::encode(alloc, bytes)?;
    text.extend_from_slice(start_of(way, side).as_bytes())?;
    text.extend_from_slice(digits.as_bytes())?;
    text.extend_from_slice(b"\"]\n")?;
    Ok(())
}

/// The row of a line of bytes that is spelled as it is printed; `None` of another line, whatever it says.
pub(crate) fn spelled_row(alloc: Global, line: &[u8]) -> Result<Option<Row>, NoMemory>
    ensures { IfOk result (λ row. IfSome row (λ row. row_in line.now ≡ Ok row)) }
{
    let Some(parts) = spelled(line) else {
        return Ok(None);
    };
    match decoded(alloc, parts.digits)? {
        Some(bytes) => Ok(Some(Row::Entry(entry_of(parts.way, parts.side, bytes)))),
        None => Ok(None),
    }
}

// The parts of a line, where it is spelled so; its digits may be anything.
fn spelled(line: &[u8]) -> Option<Parts<'_>>
    ensures { IfSome result (λ s. line.now ≡ start_of s.way s.side ++ (s.digits.now ++ codes "\"]")) }
{
    let front = ahead(line)?;
    if let Some(digits) = behind(front, Way::Came, Side::Client) {
        return Some(Parts {
            way: Way::Came,
            side: Side::Client,
            digits,
        });
    }
    if let Some(digits) = behind(front, Way::Went, Side::Target) {
        return Some(Parts {
            way: Way::Went,
            side: Side::Target,
            digits,
        });
    }
    if let Some(digits) = behind(front, Way::Came, Side::Target) {
        return Some(Parts {
            way: Way::Came,
            side: Side::Target,
            digits,
        });
    }
    let digits = behind(front, Way::Went, Side::Client)?;
    Some(Parts {
        way: Way::Went,
        side: Side::Client,
        digits,
    })
}

// What stands before the end of such a line.
fn ahead(line: &[u8]) -> Option<&[u8]>
    ensures { IfSome result (λ front. line.now ≡ front.now ++ codes "\"]") }
{
    line.strip_suffix(b"\"]")
}

// What stands behind such a start.
fn behind(front: &[u8], way: Way, side: Side) -> Option<&[u8]>
    ensures { IfSome result (λ digits. front.now ≡ start_of way side ++ digits.now) }
{
    front.strip_prefix(start_of(way, side).as_bytes())
}

fn start_of(way: Way, side: Side) -> &'static str
    ensures { result.now ≡ start_of way side }
{
    match way {
        Way::Came => match side {
            Side::Client => r#"["in","client",""#,
            Side::Target => r#"["in","target",""#,
        },
        Way::Went => match side {
            Side::Client => r#"["out","client",""#,
            Side::Target => r#"["out","target",""#,
        },
    }
}

fn entry_of(way: Way, side: Side, bytes: Blob) -> Entry
    ensures { result ≡ entry_of way side bytes }
{
    match way {
        Way::Came => Entry::In(side, bytes),
        Way::Went => Entry::Out(side, bytes),
    }
}

// The bytes of one or more pairs of lower-case digits; `None` of another text.
fn decoded(alloc: Global, digits: &[u8]) -> Result<Option<Blob>, NoMemory>
    ensures { IfOk result (λ bytes. IfSome bytes (λ bytes. HasBytes bytes × (encode_lower bytes ≡ digits.now))) }
{
    if digits.is_empty() || digits.len() % 2 != 0 {
        return Ok(None);
    }
    let mut bytes = Vec::with_capacity(alloc, digits.len() / 2)?;
    for i in 0..digits.len() / 2 {
        match byte_of(digits[2 * i], digits[2 * i + 1]) {
            Some(byte) => bytes.push(byte)?,
            None => return Ok(None),
        }
    }
    Ok(Some(Blob::from_vec(bytes)))
}

fn byte_of(high: u8, low: u8) -> Option<u8>
    ensures { IfSome result (λ byte. (byte < 256) × (encode_lower (byte ∷ []) ≡ high ∷ low ∷ [])) }
{
    let high = value_of(high)?;
    let low = value_of(low)?;
    Some(16 * high + low)
}

fn value_of(digit: u8) -> Option<u8>
    ensures { IfSome result (λ value. (value < 16) × (slice_index lower_digits value ≡ digit)) }
{
    match digit {
        b'0'..=b'9' => Some(digit - b'0'),
        b'a'..=b'f' => Some(digit - b'a' + 10),
        _ => None,
    }
}
