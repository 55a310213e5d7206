//! How the tables of this crate are read.
ghost use Rattle.std.specs.Prelude.{◌<◌, ◌^◌, IfOk, length};

use std::alloc::Global;
use std::fmt::Debug;
use std::test::Fail;
use wire_core::{Blob, List};

// A column has no more bytes than this.
const MOST: usize = 1000;

/// The first column of a row, and those behind it.
pub(crate) fn cut(row: &str) -> Result<(&str, &str), Fail> {
    Ok(row.split_once('|').ok_or("a row with too few columns")?)
}

/// The first word of some words, and those behind it.
pub(crate) fn head(words: &str) -> (&str, &str) {
    match words.split_once(' ') {
        Some((word, rest)) => (word, rest),
        None => (words, ""),
    }
}

/// A value as it is printed.
pub(crate) fn shown<T: Debug + Drop>(alloc: Global, value: T) -> Result<String, Fail> {
    Ok(format!(in alloc; "{value:?}")?)
}

/// An error that says what a row gives, where that isn't what it wants.
pub(crate) fn expect(alloc: Global, row: &str, given: &str, wanted: &str) -> Result<(), Fail> {
    if given == wanted {
        return Ok(());
    }
    Err(format!(in alloc; "{row}: {given}")?.into())
}

/// The bytes of pieces: hexadecimal digits with spaces between them, and texts between `'`.
pub(crate) fn bytes_of(alloc: Global, pieces: &str) -> Result<Blob, Fail>
    ensures { IfOk result (λ bytes. length bytes < 2 ^ 32) }
{
    let mut bytes = Vec::new(alloc);
    for (place, piece) in pieces.split('\'').enumerate() {
        if place % 2 == 1 {
            bytes.extend_from_slice(piece.as_bytes())?;
        } else {
            add_digits(alloc, &mut bytes, piece)?;
        }
    }
    if bytes.len() > MOST {
        return Err("a column that is too long".into());
    }
    Ok(List::from_vec(bytes))
}

fn add_digits(alloc: Global, bytes: &mut Vec<u8>, digits: &str) -> Result<(), Fail> {
    for word in digits.split_whitespace() {
        add_word(alloc, bytes, word)?;
    }
    Ok(())
}

fn add_word(alloc: Global, bytes: &mut Vec<u8>, digits: &str) -> Result<(), Fail> {
    let word = hex::decode(alloc, digits)?;
    Ok(bytes.extend_from_slice(word.as_slice())?)
}
