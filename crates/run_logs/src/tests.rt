use super::*;
use std::test::Fail;
use wire_core::{Blob, Entry, Side};

#[test]
fn waits_behind_each_other_are_one_run(rt: HostRuntime) -> Result<(), Fail> {
    let alloc = rt.alloc();
    let mut log = RunLog::new(alloc);
    log.reserve(2)?;
    log.add(Entry::Quiet, 2)?;
    log.add(Entry::Quiet, 2)?;
    log.add(Entry::In(Side::Client, Blob::from_slice(alloc, b"ab")?), 2)?;
    log.add(Entry::Quiet, 2)?;
    log.add_reserved(Entry::Failed(Side::Client));
    log.add(Entry::Quiet, 1)?;
    log.add(Entry::Quiet, 1)?;
    log.add(Entry::Quiet, 1)?;
    log.add_reserved(Entry::Shut(Side::Target));
    assert!(rt; log.has_room_for_quiet());
    let runs = format!(in alloc; "{:?}", log.runs())?;
    assert_eq!(rt;
        runs.as_str(),
        "[Quiets(2), One(In(Client, List { items: [97, 98] })), Quiets(1), One(Failed(Client)), Quiets(3), \
            One(Shut(Target))]"
    );
    Ok(())
}
