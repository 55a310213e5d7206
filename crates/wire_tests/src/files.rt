ghost use Rattle.std.specs.Prelude.{◌≡◌, [], IfOk};
ghost use Rattle.wire_core.specs.MemoryFiles.{store_of};

use crate::rows::{check, head};
use std::alloc::Global;
use std::test::Fail;
use wire_core::{Blob, Files, List, MemoryFiles, Word};

const READ: &str = "
read a 3 => one
read b 9 => two
read a 2 => TooLong
read c 3 => Failed
read-failing a 3 => Failed
";

#[test]
fn files_are_read_by_their_names(rt: HostRuntime) -> Result<(), Fail> {
    check(rt.alloc(), READ)
}

const WRITTEN: &str = "
write a new => Ok(()) new
write-failing a new => Err(Failed) one
";

#[test]
fn a_written_file_is_handed_out(rt: HostRuntime) -> Result<(), Fail> {
    check(rt.alloc(), WRITTEN)
}

// The files `a`, `b` and again `a`.
fn files(alloc: Global, failing: bool) -> Result<MemoryFiles, Fail>
    ensures { IfOk result (λ files. (store_of files).asked ≡ []) }
{
    let mut files = List::new(alloc);
    for file in ["a one", "b two", "a six"] {
        files.push(file_of(alloc, file)?)?;
    }
    Ok(MemoryFiles::new(alloc, files, failing))
}

fn file_of(alloc: Global, file: &str) -> Result<(Word, Blob), Fail> {
    let (name, bytes) = head(file);
    let name = Word::from_str(alloc, name)?;
    Ok((name, Blob::from_slice(alloc, bytes.as_bytes())?))
}

// A value that goes at the end of a scope is taken apart in the proof of that scope: large ones are let go by a call.
pub(crate) fn file_read(alloc: Global, about: &str, failing: bool) -> Result<String, Fail> {
    let mut files = files(alloc, failing)?;
    let told = read(alloc, &mut files, about);
    drop(files);
    told
}

fn read(alloc: Global, files: &mut MemoryFiles, about: &str) -> Result<String, Fail>
    requires { (store_of files.old).asked ≡ [] }
{
    let (name, limit) = head(about);
    match files.read(alloc, Word::from_str(alloc, name)?, limit.parse()?) {
        Ok(bytes) => Ok(str::from_utf8(bytes.as_slice())?.to_string(alloc)?),
        Err(refusal) => Ok(format!(in alloc; "{refusal:?}")?),
    }
}

pub(crate) fn file_written(alloc: Global, about: &str, failing: bool) -> Result<String, Fail> {
    let mut files = files(alloc, failing)?;
    let told = written(alloc, &mut files, about);
    drop(files);
    told
}

fn written(alloc: Global, files: &mut MemoryFiles, about: &str) -> Result<String, Fail>
    requires { (store_of files.old).asked ≡ [] }
{
    let (name, bytes) = head(about);
    let written = files.write(Word::from_str(alloc, name)?, bytes.as_bytes());
    let kept = kept_text(files, &Word::from_str(alloc, name)?)?;
    Ok(format!(in alloc; "{written:?} {kept}")?)
}

fn kept_text<'a>(files: &'a MemoryFiles, name: &Word) -> Result<&'a str, Fail> {
    let kept = files.file(name).ok_or("no file")?;
    Ok(str::from_utf8(kept.as_slice())?)
}
