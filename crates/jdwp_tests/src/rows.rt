//! How the tables of this crate are read.
ghost use Rattle.std.specs.Prelude.{◌<◌, ◌^◌, IfOk, length};

use jdwp_values::{IdSizes, Limit};
use std::alloc::Global;
use std::fmt::Debug;
use std::test::Fail;
use wire_core::{Blob, List};

// A body has no more bytes than this.
const MOST: usize = 1000;

/// The first column of a row, and those behind it.
pub(crate) fn cut(row: &str) -> Result<(&str, &str), Fail> {
    let (column, rest) = row.split_once('|').ok_or("a row with too few columns")?;
    Ok((column.trim(), rest.trim()))
}

/// The first word of some words, and those behind it.
pub(crate) fn head(words: &str) -> (&str, &str) {
    match words.split_once(' ') {
        Some((word, rest)) => (word, rest),
        None => (words, ""),
    }
}

/// A byte in decimal.
pub(crate) fn byte(digits: &str) -> Result<u8, Fail> {
    Ok(digits.parse()?)
}

/// The command set and the command, each a byte.
pub(crate) fn numbers_of(command: &str) -> Result<(u8, u8), Fail> {
    let (set, number) = command.split_once('.').ok_or("a command without its set")?;
    Ok((byte(set)?, byte(number)?))
}

/// A value as it is printed.
pub(crate) fn shown<T: Debug + Drop>(alloc: Global, value: T) -> Result<String, Fail> {
    Ok(format!(in alloc; "{value:?}")?)
}

/// An error that says what a row gives, where that isn't what it wants.
pub(crate) fn expect(alloc: Global, row: &str, given: &str, wanted: &str) -> Result<(), Fail> {
    if given == wanted {
        return Ok(());
    }
    Err(format!(in alloc; "{row}: {given}")?.into())
}

/// The bytes of pieces: hexadecimal digits with spaces between them, and texts between `'`.
pub(crate) fn bytes_of(alloc: Global, pieces: &str) -> Result<Blob, Fail>
    ensures { IfOk result (λ bytes. length bytes < 2 ^ 32) }
{
    let mut bytes = Vec::new(alloc);
    for (place, piece) in pieces.split('\'').enumerate() {
        if place % 2 == 1 {
            bytes.extend_from_slice(piece.as_bytes())?;
        } else {
            add_digits(alloc, &mut bytes, piece)?;
        }
    }
    if bytes.len() > MOST {
        return Err("a body that is too long".into());
    }
    Ok(List::from_vec(bytes))
}

fn add_digits(alloc: Global, bytes: &mut Vec<u8>, digits: &str) -> Result<(), Fail> {
    for word in digits.split_whitespace() {
        add_word(alloc, bytes, word)?;
    }
    Ok(())
}

fn add_word(alloc: Global, bytes: &mut Vec<u8>, digits: &str) -> Result<(), Fail> {
    let word = hex::decode(alloc, digits)?;
    Ok(bytes.extend_from_slice(word.as_slice())?)
}

/// The sizes of ids of a field, a method, an object, a class and a frame, two digits each.
pub(crate) fn sizes_of(alloc: Global, digits: &str) -> Result<IdSizes, Fail> {
    let [field, method, object, class, frame] = five(alloc, digits)?;
    Ok(IdSizes::new([field, method, object, class, frame])?)
}

/// Five numbers, two digits each.
pub(crate) fn five(alloc: Global, digits: &str) -> Result<[u32; 5], Fail> {
    let bytes = hex::decode(alloc, digits)?;
    match bytes.as_slice() {
        [one, two, three, four, five] => Ok([
            u32::from(*one),
            u32::from(*two),
            u32::from(*three),
            u32::from(*four),
            u32::from(*five),
        ]),
        _ => Err("no five sizes".into()),
    }
}

/// A limit: `any`, `never`, `exactly` or `at-most` and a number.
pub(crate) fn limit_of(words: &str) -> Result<Limit, Fail> {
    let (word, number) = head(words);
    match word {
        "any" => Ok(Limit::Any),
        "never" => Ok(Limit::Never),
        "exactly" => Ok(Limit::Exactly(usize::from(byte(number)?))),
        "at-most" => Ok(Limit::AtMost(usize::from(byte(number)?))),
        _ => Err("no limit".into()),
    }
}
