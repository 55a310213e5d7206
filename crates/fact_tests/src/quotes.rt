//! Names of types, and strings in quotes.
use crate::rows::{bytes_of, cut, expect};
use std::alloc::Global;
use std::test::Fail;
use value_views::{class_name, quote};
use wire_core::{NoMemory, Text};

fn named(alloc: Global, signature: &str) -> Result<Text, Fail> {
    let bytes = bytes_of(alloc, signature)?;
    Ok(class_name(alloc, bytes.as_slice())?)
}

// Each row has the bytes of a signature, and the type's name.
fn check_names(alloc: Global, rows: &str) -> Result<(), Fail> {
    for row in rows.split('\n') {
        if !row.is_empty() {
            let (signature, wanted) = cut(row)?;
            let given = named(alloc, signature)?;
            expect(alloc, row, given.as_str(), wanted)?;
        }
    }
    Ok(())
}

const NAMES: &str = "
'B'|byte
'C'|char
'D'|double
'F'|float
'I'|int
'J'|long
'S'|short
'Z'|boolean
'V'|void
'[I'|int[]
'[[Lcom/acme/Foo;'|com.acme.Foo[][]
'Lcom/acme/Foo$Bar;'|com.acme.Foo$Bar
'Lcom/acme/Foo$$Lambda$1.0x00007f5c0c0018c0;'|com.acme.Foo$$Lambda$1.0x00007f5c0c0018c0
'Lgr' c3b6 c39f 'e/A' ff ';'|größe.A\u{fffd}
'L;'|
'L'|L
'LX'|LX
'II'|II
'X'|X
|
'['|[]
'a/' ed|a/\u{fffd}
";

#[test]
fn types_have_the_names_that_the_language_writes(rt: HostRuntime) -> Result<(), Fail> {
    check_names(rt.alloc(), NAMES)
}

fn quoted(alloc: Global, string: &str) -> Result<Text, Fail> {
    let bytes = bytes_of(alloc, string)?;
    Ok(quote(alloc, bytes.as_slice())?)
}

// Each row has the bytes of a string, and what is shown.
fn check_quotes(alloc: Global, rows: &str) -> Result<(), Fail> {
    for row in rows.split('\n') {
        if !row.is_empty() {
            let (string, wanted) = cut(row)?;
            let given = quoted(alloc, string)?;
            expect(alloc, row, given.as_str(), wanted)?;
        }
    }
    Ok(())
}

const QUOTES: &str = r#"
|""
'plain'|"plain"
'a' 22 'b'|"a\"b"
'a\b'|"a\\b"
'it' 27 's'|"it's"
0a 0d 09|"\n\r\t"
'\n'|"\\n"
00 01 08 0b 0c 1b 1f ' '|"\u0000\u0001\u0008\u000b\u000c\u001b\u001f "
'~' 7f|"~\u007f"
'gr' c3b6 e282ac f09f9880|"grö€😀"
"#;

// Characters outside ASCII stand for themselves, the control characters among them too. Behind these: a stray byte, a
// surrogate, a character cut short, and ill-formed bytes next to what is escaped.
const OTHERS: &str = "
c280 c2a0 e280a8|\"\u{80}\u{a0}\u{2028}\"
'a' ff 'b'|\"a\u{fffd}b\"
eda080|\"\u{fffd}\u{fffd}\u{fffd}\"
e282|\"\u{fffd}\u{fffd}\"
c0 22 80 0a|\"\u{fffd}\\\"\u{fffd}\\n\"
";

#[test]
fn strings_are_quoted_with_escapes(rt: HostRuntime) -> Result<(), Fail> {
    check_quotes(rt.alloc(), QUOTES)?;
    check_quotes(rt.alloc(), OTHERS)
}

// Adds a front so many times, and a tail.
fn add(bytes: &mut Vec<u8>, front: &[u8], times: usize, tail: &[u8]) -> Result<(), NoMemory> {
    for _turn in 0..times {
        bytes.extend_from_slice(front)?;
    }
    bytes.extend_from_slice(tail)?;
    Ok(())
}

// The bytes of a column of pieces so many times, with those of another behind.
fn string_of(alloc: Global, columns: &str) -> Result<Vec<u8>, Fail> {
    let (front, rest) = cut(columns)?;
    let (times, tail) = cut(rest)?;
    let front = bytes_of(alloc, front)?;
    let tail = bytes_of(alloc, tail)?;
    let mut bytes = Vec::new(alloc);
    add(
        &mut bytes,
        front.as_slice(),
        times.parse()?,
        tail.as_slice(),
    )?;
    Ok(bytes)
}

// Behind a quote the text of a column so many times, with that of another behind.
fn text_of(alloc: Global, columns: &str) -> Result<Vec<u8>, Fail> {
    let (front, rest) = cut(columns)?;
    let (times, tail) = cut(rest)?;
    let mut bytes = Vec::new(alloc);
    bytes.push(b'"')?;
    add(
        &mut bytes,
        front.as_bytes(),
        times.parse()?,
        tail.as_bytes(),
    )?;
    Ok(bytes)
}

fn check_string(alloc: Global, string: &str, shown: &str) -> Result<(), Fail> {
    let bytes = string_of(alloc, string)?;
    let wanted = text_of(alloc, shown)?;
    let given = quote(alloc, bytes.as_slice())?;
    if given.as_bytes() == wanted.as_slice() {
        return Ok(());
    }
    Err(format!(in alloc; "another text is shown of {string}")?.into())
}

// Each row has a string by three columns, and what is shown by three others, with ` shows ` between them.
fn check_long(alloc: Global, rows: &str) -> Result<(), Fail> {
    for row in rows.split('\n') {
        if let Some((string, shown)) = row.split_once(" shows ") {
            check_string(alloc, string, shown)?;
        }
    }
    Ok(())
}

const LONG: &str = r#"
'a'|999| shows a|999|"
'a'|1000| shows a|1000|"
'a'|1001| shows a|1000|"...
'a'|5000| shows a|1000|"...
# a character of three bytes at the cut, before it and behind it
'a'|999|e282ac shows a|999|€"
'a'|999|e282ac 'b' shows a|999|€"...
'a'|1000|e282ac shows a|1000|"...
f09f9880|1000| shows 😀|1000|"
f09f9880|1001| shows 😀|1000|"...
# each byte that begins no character counts as one
'a'|999|ff shows a|999|�"
'a'|998|e282 shows a|998|��"
'a'|999|e282 shows a|999|�"...
ff|1000| shows �|1000|"
ff|1001| shows �|1000|"...
# an escape is one character
22|1000| shows \"|1000|"
01|1001| shows \u0001|1000|"...
'a'|999|0a0a shows a|999|\n"...
"#;

#[test]
fn a_thousand_characters_of_a_string_are_shown(rt: HostRuntime) -> Result<(), Fail> {
    check_long(rt.alloc(), LONG)
}
