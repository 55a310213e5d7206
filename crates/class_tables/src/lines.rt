ghost use Rattle.std.specs.Prelude.{◌≡◌, Some};
ghost use Rattle.class_tables.specs.Lines.{later, entry_at, lesser, line_start};

use jdwp_values::Line;

/// The entry of the greatest index not above this one, the last of ties; `None` exactly where none is at or below it
/// (JDWP, Method command set, LineTable, lineCodeIndex).
pub fn entry_at(index: u64, entries: &[Line]) -> Option<Line>
    ensures { result ≡ entry_at index entries.now }
{
    let mut found = None;
    for entry in entries {
        if entry.index <= index {
            found = Some(later(found, *entry));
        }
    }
    found
}

// Of the entry found so far and one behind it, that of the greater index; of ties the one behind.
fn later(found: Option<Line>, entry: Line) -> Line
    ensures { Some result ≡ later found (Some entry) }
{
    match found {
        Some(before) if before.index > entry.index => before,
        _ => entry,
    }
}

/// The code index at which a line begins among these entries: the least of those of the line; `None` exactly where
/// none is of it (JDWP, Method command set, LineTable).
pub fn line_start(line: i32, entries: &[Line]) -> Option<u64>
    ensures { result ≡ line_start line entries.now }
{
    let mut start = None;
    for entry in entries {
        if entry.line == line {
            start = Some(lesser(start, entry.index));
        }
    }
    start
}

// The lesser of the index found so far and another.
fn lesser(found: Option<u64>, index: u64) -> u64
    ensures { Some result ≡ lesser found (Some index) }
{
    match found {
        Some(before) => before.min(index),
        None => index,
    }
}
