use crate::files::{file_read, file_written};
use crate::links::{links_told, other_side, raised, sides_told};
use crate::streams::stream_told;
use crate::texts::{bytes_read, text_kept};
use crate::wires::{closed_told, heard_told, reached_told, sent_told};
use std::alloc::Global;
use std::test::Fail;

/// Asks what each row of a text asks: an error names the first row that is told something else. A row is a word, what it
/// is about, and behind ` => ` what has to be told. Rows that are empty or begin with `#` ask nothing.
pub(crate) fn check(alloc: Global, rows: &str) -> Result<(), Fail> {
    for row in rows.split('\n') {
        if !row.is_empty() && !row.starts_with('#') {
            check_row(alloc, row)?;
        }
    }
    Ok(())
}

fn check_row(alloc: Global, row: &str) -> Result<(), Fail> {
    let (asked, want) = row.split_once(" => ").ok_or("a row without an answer")?;
    let (word, about) = head(asked);
    let told = told(alloc, word, about)?;
    if told.as_str() != want {
        return Err(format!(in alloc; "{asked} => {told}")?.into());
    }
    Ok(())
}

/// The first word of a text, and what follows it.
pub(crate) fn head(text: &str) -> (&str, &str) {
    match text.split_once(' ') {
        Some((word, rest)) => (word, rest),
        None => (text, ""),
    }
}

fn told(alloc: Global, word: &str, about: &str) -> Result<String, Fail> {
    match word {
        "raise" => raised(alloc, about),
        "links" => links_told(alloc, about),
        "sides" => sides_told(alloc, about),
        "text" => text_kept(alloc, about),
        "bytes" => bytes_read(alloc, about),
        "other" => other_side(alloc, about),
        "stream" => stream_told(alloc, about),
        "read" => file_read(alloc, about, false),
        "read-failing" => file_read(alloc, about, true),
        "write" => file_written(alloc, about, false),
        "write-failing" => file_written(alloc, about, true),
        "hear" => heard_told(alloc, about),
        "send" => sent_told(alloc, about),
        "reach" => reached_told(alloc, about),
        "closed" => closed_told(alloc, about),
        _ => Err("a row that asks nothing".into()),
    }
}
