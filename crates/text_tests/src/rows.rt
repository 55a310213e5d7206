use crate::exprs::{expr_told, fields_told};
use crate::frames::{frame_told, frames_told, frames_told_twice, long_header_told};
use crate::packets::{packets_told, packets_told_twice};
use crate::scripts::{fault_told, one_request_told, printed_again};
use std::alloc::Global;
use std::test::Fail;

/// Asks what each row of a text asks: an error names the first row that is told something else. A row is a word, what it
/// is about, and behind ` => ` what has to be told. Rows that are empty or begin with `#` ask nothing.
pub(crate) fn check(alloc: Global, rows: &str) -> Result<(), Fail> {
    for row in rows.split('\n') {
        if !row.is_empty() && !row.starts_with('#') {
            check_row(alloc, row)?;
        }
    }
    Ok(())
}

fn check_row(alloc: Global, row: &str) -> Result<(), Fail> {
    let (asked, want) = row.split_once(" => ").ok_or("a row without an answer")?;
    let (word, about) = match asked.split_once(' ') {
        Some((word, about)) => (word, bytes_of(alloc, about)?),
        None => (asked, Vec::new(alloc)),
    };
    let told = told(alloc, word, about.as_slice())?;
    if told.as_str() != want {
        return Err(format!(in alloc; "{asked} => {told}")?.into());
    }
    Ok(())
}

fn told(alloc: Global, word: &str, about: &[u8]) -> Result<String, Fail> {
    match word {
        "expr" => expr_told(alloc, about),
        "fields" => fields_told(alloc, about),
        "frame" => frame_told(alloc, about),
        "frames" => frames_told(alloc, about),
        "frames-twice" => frames_told_twice(alloc, about),
        "long-header" => long_header_told(alloc),
        "packets" => packets_told(alloc, about),
        "packets-twice" => packets_told_twice(alloc, about),
        "one-request" => one_request_told(alloc),
        "print" => printed_again(alloc, about),
        "read" => fault_told(alloc, about),
        _ => Err("a row that asks nothing".into()),
    }
}

// The bytes that a row stands for. Signs stand for a zero, a tabulator, the end of a line, a carriage return, a space, and
// for a byte that no text has.
fn bytes_of(alloc: Global, row: &str) -> Result<Vec<u8>, Fail> {
    let mut bytes = Vec::new(alloc);
    for sign in row.chars() {
        match sign {
            '␀' => bytes.push(0)?,
            '␉' => bytes.push(b'\t')?,
            '␊' => bytes.push(b'\n')?,
            '␍' => bytes.push(b'\r')?,
            '␠' => bytes.push(b' ')?,
            '⁇' => bytes.push(0xff)?,
            _ => push_sign(alloc, &mut bytes, sign)?,
        }
    }
    Ok(bytes)
}

fn push_sign(alloc: Global, bytes: &mut Vec<u8>, sign: char) -> Result<(), Fail> {
    let mut text = String::new(alloc);
    text.push(sign)?;
    Ok(bytes.extend_from_slice(text.as_bytes())?)
}

/// A text that a row can have, with such signs.
pub(crate) fn shown(alloc: Global, bytes: &[u8]) -> Result<String, Fail> {
    let mut text = String::new(alloc);
    for sign in str::from_utf8(bytes)?.chars() {
        match sign {
            '\0' => text.push('␀')?,
            '\n' => text.push('␊')?,
            '\r' => text.push('␍')?,
            _ => text.push(sign)?,
        }
    }
    Ok(text)
}
