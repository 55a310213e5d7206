//! Dumps of targets in memory that end.
use session_endings::Limits;
use std::test::Fail;
use thread_dump::{DumpEnd, dump};
use wire_core::{Blob, List, MemoryWires, Side, Step, Text, Wires};

#[test]
fn a_target_that_ends_has_gone(rt: HostRuntime) -> Result<(), Fail> {
    let alloc = rt.alloc();
    let mut steps = List::new(alloc);
    let greeting = Blob::from_slice(alloc, b"JDWP-Handshake")?;
    steps.push(Step::Bytes(Side::Target, greeting))?;
    steps.push(Step::Shut(Side::Target))?;
    let target = Text::from_str(alloc, "B")?;
    let mut wires = MemoryWires::new(alloc, steps, List::new(alloc))?;
    let dumped = match wires.reach(target) {
        Ok(()) => dump(alloc, &Limits::standard(), &mut wires),
        Err(_) => return Err("it isn't reached".into()),
    };
    match dumped {
        Err(DumpEnd::TargetGone) => Ok(()),
        _ => Err("another ending".into()),
    }
}
