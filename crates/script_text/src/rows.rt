//! What a line of a log says.
ghost use Rattle.std.specs.Prelude.{◌≡◌, IfOk, option_and_then};
ghost use Rattle.std.specs.List.{list_all};
ghost use Rattle.serde_json.specs.Find.{as_str};
ghost use Rattle.serde_json.specs.View.{view, items_view};
ghost use Rattle.script_text.specs.Rows.{is_lower_digit, is_hexadecimal, bytes_of, bytes_in, side_of, side_in};
ghost use Rattle.script_text.specs.Rows.{status_in, version_of, version_in, count_of, count_in, bare_row, single_row};
ghost use Rattle.script_text.specs.Rows.{bytes_row, triple_row, limits_row, row_of_items, row_of};

use hex::FromHexError;
use serde_json::Value;
use std::alloc::Global;
use wire_core::{Blob, Entry, NoMemory, Side};

/// The most waits in vain that a log has.
pub(crate) const MOST_QUIETS: u64 = 1 << 62;

// The highest limits.
const MOST_TURNS: u64 = 1 << 40;

const MOST_QUIET: u64 = (1 << 63) - 1;

/// Which lines a log has: in version 1 each wait in vain has a line, in version 2 those that follow each other have
/// one, and a line tells the limits.
#[derive(Clone, Copy, Debug, Drop, PartialEq, Eq)]
pub(crate) enum Version {
    First,
    Second,
}

/// A line of a log: the head, whose version is known or isn't; the limits; an entry that is no wait in vain; one such
/// wait, or so many; the status of the ending; or the end.
#[derive(Debug, Drop)]
pub(crate) enum Row {
    Head(Option<Version>),
    Limits {
        turns: u64,
        quiet: u64,
        waiting: u32,
    },
    Entry(Entry),
    Quiet,
    Quiets(u64),
    Ending(u8),
    End,
}

/// The row that a value is, where it is one.
pub(crate) fn row_of(alloc: Global, value: &Value) -> Result<Option<Row>, NoMemory>
    ensures { IfOk result (λ row. row ≡ row_of (view value.now)) }
{
    match value.as_array() {
        Some(items) => row_of_items(alloc, items.as_slice()),
        None => Ok(None),
    }
}

#[tactic(auto, using(crate::proofs::RowLaws::row_of_items_rules))]
fn row_of_items(alloc: Global, items: &[Value]) -> Result<Option<Row>, NoMemory>
    ensures { IfOk result (λ row. row ≡ row_of_items (items_view items.now)) }
{
    match items {
        [] => Ok(None),
        [name] => Ok(bare_row(name)),
        [name, one] => Ok(single_row(name, one)),
        [name, side, bytes] => triple_row(alloc, name, side, bytes),
        [name, turns, quiet, waiting] => Ok(limits_row(name, turns, quiet, waiting)),
        _ => Ok(None),
    }
}

fn bare_row(name: &Value) -> Option<Row>
    ensures { result ≡ option_and_then bare_row (as_str (view name.now)) }
{
    let name = name.as_str()?;
    if name == "quiet" {
        Some(Row::Quiet)
    } else if name == "end" {
        Some(Row::End)
    } else {
        None
    }
}

fn single_row(name: &Value, one: &Value) -> Option<Row>
    ensures { result ≡ option_and_then (single_row (view one.now)) (as_str (view name.now)) }
{
    let name = name.as_str()?;
    if name == "log" {
        Some(Row::Head(version_in(one)?))
    } else if name == "quiet" {
        Some(Row::Quiets(count_in(MOST_QUIETS, one)?))
    } else if name == "shut" {
        Some(Row::Entry(Entry::Shut(side_in(one)?)))
    } else if name == "failed" {
        Some(Row::Entry(Entry::Failed(side_in(one)?)))
    } else if name == "ending" {
        Some(Row::Ending(status_in(one)?))
    } else {
        None
    }
}

fn triple_row(
    alloc: Global,
    name: &Value,
    side: &Value,
    bytes: &Value,
) -> Result<Option<Row>, NoMemory>
    ensures { IfOk result (λ row. row
        ≡ option_and_then (triple_row (view side.now) (view bytes.now)) (as_str (view name.now))) }
{
    let Some(name) = name.as_str() else {
        return Ok(None);
    };
    let Some(side) = side_in(side) else {
        return Ok(None);
    };
    match bytes_in(alloc, bytes)? {
        Some(bytes) => Ok(bytes_row(name, side, bytes)),
        None => Ok(None),
    }
}

fn bytes_row(name: &str, side: Side, bytes: Blob) -> Option<Row>
    ensures { result ≡ bytes_row name.now side bytes }
{
    if name == "in" {
        Some(Row::Entry(Entry::In(side, bytes)))
    } else if name == "out" {
        Some(Row::Entry(Entry::Out(side, bytes)))
    } else {
        None
    }
}

fn limits_row(name: &Value, turns: &Value, quiet: &Value, waiting: &Value) -> Option<Row>
    ensures { result
        ≡ option_and_then (limits_row (view turns.now) (view quiet.now) (view waiting.now)) (as_str (view name.now)) }
{
    if name.as_str()? != "limits" {
        return None;
    }
    let turns = count_in(MOST_TURNS, turns)?;
    let quiet = count_in(MOST_QUIET, quiet)?;
    let waiting = count_in(u32::MAX as u64, waiting)?;
    Some(Row::Limits {
        turns,
        quiet,
        waiting: waiting as u32,
    })
}

fn side_in(value: &Value) -> Option<Side>
    ensures { result ≡ side_in (view value.now) }
{
    side_of(value.as_str()?)
}

fn side_of(name: &str) -> Option<Side>
    ensures { result ≡ side_of name.now }
{
    if name == "client" {
        Some(Side::Client)
    } else if name == "target" {
        Some(Side::Target)
    } else {
        None
    }
}

fn status_in(value: &Value) -> Option<u8>
    ensures { result ≡ status_in (view value.now) }
{
    u8::try_from(value.as_u64()?).ok()
}

fn version_in(value: &Value) -> Option<Option<Version>>
    ensures { result ≡ version_in (view value.now) }
{
    match value.as_u64() {
        Some(version) => Some(version_of(version)),
        None => if value.is_i64() { Some(None) } else { None },
    }
}

fn version_of(version: u64) -> Option<Version>
    ensures { result ≡ version_of version }
{
    match version {
        1 => Some(Version::First),
        2 => Some(Version::Second),
        _ => None,
    }
}

fn count_in(most: u64, value: &Value) -> Option<u64>
    ensures { result ≡ count_in most (view value.now) }
{
    count_of(most, value.as_u64()?)
}

fn count_of(most: u64, count: u64) -> Option<u64>
    ensures { result ≡ count_of most count }
{
    if 1 <= count && count <= most {
        Some(count)
    } else {
        None
    }
}

fn bytes_in(alloc: Global, value: &Value) -> Result<Option<Blob>, NoMemory>
    ensures { IfOk result (λ bytes. bytes ≡ bytes_in (view value.now)) }
{
    match value.as_str() {
        Some(text) => bytes_of(alloc, text),
        None => Ok(None),
    }
}

fn bytes_of(alloc: Global, text: &str) -> Result<Option<Blob>, NoMemory>
    ensures { IfOk result (λ bytes. bytes ≡ bytes_of text.now) }
{
    if !is_hexadecimal(text.as_bytes()) {
        return Ok(None);
    }
    match hex::decode(alloc, text) {
        Ok(bytes) => Ok(Some(Blob::from_vec(bytes))),
        Err(FromHexError::OutOfMemory) => Err(NoMemory),
        Err(_) => Ok(None),
    }
}

fn is_hexadecimal(text: &[u8]) -> bool
    ensures { result ≡ is_hexadecimal text.now }
{
    !text.is_empty() && are_lower_digits(text)
}

fn are_lower_digits(bytes: &[u8]) -> bool
    ensures { result ≡ list_all is_lower_digit bytes.now }
{
    bytes.iter().all(|byte| is_lower_digit(*byte))
}

fn is_lower_digit(byte: u8) -> bool
    ensures { result ≡ is_lower_digit byte }
{
    byte.is_ascii_digit() || (b'a' <= byte && byte <= b'f')
}
