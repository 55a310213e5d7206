//! The lines of a dump.
ghost use Rattle.std.specs.Prelude.{◌≡◌, IfOk};
ghost use Rattle.dump_client.specs.Lines.{end_line, failure_line, frame_line, thread_line, variable_line};

use itoa::Buffer;
use std::alloc::Global;
use value_views::quote;
use wire_core::{Blob, NoMemory};

/// The line of a thread: its number, and its name in quotes.
pub(crate) fn thread_line(alloc: Global, number: u64, name: &str) -> Result<Blob, NoMemory>
    ensures { IfOk result (λ line. line ≡ thread_line number name.now) }
{
    let mut buffer = Buffer::new();
    let quoted = quote(alloc, name.as_bytes())?;
    let mut line = Blob::from_slice(alloc, b"thread ")?;
    line.extend_from_slice(buffer.format(number).as_bytes())?;
    line.extend_from_slice(b" ")?;
    line.extend_from_slice(quoted.as_bytes())?;
    line.extend_from_slice(b"\n")?;
    Ok(line)
}

/// The line of a frame: its place in the stack, from 0 at the top, its name, and its line in the source.
pub(crate) fn frame_line(alloc: Global, place: usize, name: &str, at: i64) -> Result<Blob, NoMemory>
    ensures { IfOk result (λ line. line ≡ frame_line place name.now at) }
{
    let mut buffer = Buffer::new();
    let mut line = Blob::from_slice(alloc, b"  #")?;
    line.extend_from_slice(buffer.format(place).as_bytes())?;
    line.extend_from_slice(b" ")?;
    line.extend_from_slice(name.as_bytes())?;
    line.extend_from_slice(b":")?;
    line.extend_from_slice(buffer.format(at).as_bytes())?;
    line.extend_from_slice(b"\n")?;
    Ok(line)
}

/// The line of a variable: its name, its type and its value.
pub(crate) fn variable_line(
    alloc: Global,
    name: &str,
    kind: &str,
    value: &str,
) -> Result<Blob, NoMemory>
    ensures { IfOk result (λ line. line ≡ variable_line name.now kind.now value.now) }
{
    let mut line = Blob::from_slice(alloc, b"    ")?;
    line.extend_from_slice(name.as_bytes())?;
    line.extend_from_slice(b": ")?;
    line.extend_from_slice(kind.as_bytes())?;
    line.extend_from_slice(b" = ")?;
    line.extend_from_slice(value.as_bytes())?;
    line.extend_from_slice(b"\n")?;
    Ok(line)
}

/// The line of a request that failed, behind these blanks: its code.
pub(crate) fn failure_line(alloc: Global, blanks: &str, code: u64) -> Result<Blob, NoMemory>
    ensures { IfOk result (λ line. line ≡ failure_line blanks.now code) }
{
    let mut buffer = Buffer::new();
    let mut line = Blob::from_slice(alloc, blanks.as_bytes())?;
    line.extend_from_slice(b"failed ")?;
    line.extend_from_slice(buffer.format(code).as_bytes())?;
    line.extend_from_slice(b"\n")?;
    Ok(line)
}

/// The last line: how many threads there are.
pub(crate) fn end_line(alloc: Global, threads: usize) -> Result<Blob, NoMemory>
    ensures { IfOk result (λ line. line ≡ end_line threads) }
{
    let mut buffer = Buffer::new();
    let mut line = Blob::from_slice(alloc, b"end ")?;
    line.extend_from_slice(buffer.format(threads).as_bytes())?;
    line.extend_from_slice(b"\n")?;
    Ok(line)
}
