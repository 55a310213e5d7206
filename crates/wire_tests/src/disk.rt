use std::fs;
use std::test::Fail;
use wire_core::{Files, Output, Word};
use wire_edge::{DiskFiles, StdOutput, StdStreams};

const NAME: &str = "wire_tests.tmp";

// What a file of this name reads up to a limit.
fn read(rt: &HostRuntime, limit: usize) -> Result<String, Fail> {
    let alloc = rt.alloc();
    match DiskFiles::new(rt.clone()?).read(alloc, Word::from_str(alloc, NAME)?, limit) {
        Ok(bytes) => Ok(str::from_utf8(bytes.as_slice())?.to_string(alloc)?),
        Err(refusal) => Ok(format!(in alloc; "{refusal:?}")?),
    }
}

#[test]
fn a_file_is_written_and_read(rt: HostRuntime) -> Result<(), Fail> {
    let name = Word::from_str(rt.alloc(), NAME)?;
    assert_eq!(rt; DiskFiles::new(rt.clone()?).write(name, b"abc"), Ok(()));
    assert_eq!(rt; read(&rt, 3)?.as_str(), "abc");
    assert_eq!(rt; read(&rt, 2)?.as_str(), "TooLong");
    fs::remove_file(&rt, NAME)?;
    assert_eq!(rt; read(&rt, 3)?.as_str(), "Failed");
    Ok(())
}

#[test]
fn a_line_is_printed(rt: HostRuntime) {
    let mut out = StdOutput::new(&rt);
    assert_eq!(rt; out.write(b"a line\n"), Ok(()));
}

#[test]
fn streams_of_a_run_are_tried(rt: HostRuntime) {
    let mut streams = StdStreams::new(rt.stdin(), rt.stdout(), rt.stderr());
    assert_eq!(rt; streams.try_all(), Ok(()));
}
