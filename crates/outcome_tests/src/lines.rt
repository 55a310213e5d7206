//! The lines and the statuses of endings and faults.
use dap_frames::FrameFault;
use run_outcomes::{Outcome, tell};
use session_endings::{ClientFault, Ending, TargetFault};
use std::alloc::Global;
use std::test::Fail;
use wire_core::{List, MemoryOutput, NoMemory};

// Endings, each with its status and its line.
const ENDINGS: [(Ending, u8, &str); 7] = [
    (Ending::ClientLink, 5, "ended 5 client link\n"),
    (Ending::Idle, 12, "ended 12 idle\n"),
    (Ending::Spent, 13, "ended 13 turns\n"),
    (Ending::Flood, 14, "ended 14 flood\n"),
    (Ending::NoMemory, 70, "ended 70 memory\n"),
    (
        Ending::BadTarget {
            fault: TargetFault::UnknownReply,
            at: 75,
            id: 4_294_967_295,
        },
        4,
        "ended 4 target UnknownReply at 75 id 4294967295\n",
    ),
    (
        Ending::BadTarget {
            fault: TargetFault::PolicyThread,
            at: 86,
            id: 0,
        },
        4,
        "ended 4 target PolicyThread at 86\n",
    ),
];

// An output whose first write fails, or none.
fn output_of(alloc: Global, fails: bool) -> Result<MemoryOutput, NoMemory> {
    let mut failing = List::new(alloc);
    if fails {
        failing.push(0)?;
    }
    Ok(MemoryOutput::new(alloc, failing))
}

// How an outcome is told, over an output whose first write may fail: the status, and whether it printed just this.
fn told(alloc: Global, outcome: Outcome, fails: bool, line: &str) -> Result<(u8, bool), NoMemory> {
    let mut out = output_of(alloc, fails)?;
    let status = tell(alloc, outcome, &mut out);
    let printed = out.bytes().as_slice() == line.as_bytes();
    drop(out);
    Ok((status, printed))
}

#[test]
fn endings_have_their_line(rt: HostRuntime) -> Result<(), Fail> {
    for (ending, wanted, line) in ENDINGS {
        let outcome = Outcome::Ended(ending);
        assert_eq!(rt; told(rt.alloc(), outcome, false, line)?, (wanted, true));
    }
    Ok(())
}

// Faults of a frame, each with its offset and its line.
const FRAME_FAULTS: [(FrameFault, u64, &str); 5] = [
    (FrameFault::NoLength, 6, "ended 3 client NoLength at 6\n"),
    (
        FrameFault::TwoLengths,
        33,
        "ended 3 client TwoLengths at 33\n",
    ),
    (
        FrameFault::BadLength,
        26,
        "ended 3 client BadLength at 26\n",
    ),
    (FrameFault::TooLong, 23, "ended 3 client TooLong at 23\n"),
    (
        FrameFault::HeaderTooLong,
        9_223_372_036_854_775_807,
        "ended 3 client HeaderTooLong at 9223372036854775807\n",
    ),
];

#[test]
fn faults_of_a_frame_have_their_line(rt: HostRuntime) -> Result<(), Fail> {
    for (fault, at, line) in FRAME_FAULTS {
        let fault = ClientFault::Frame(fault);
        let outcome = Outcome::Ended(Ending::BadClient { fault, at });
        assert_eq!(rt; told(rt.alloc(), outcome, false, line)?, (3, true));
    }
    Ok(())
}

#[test]
fn an_ending_whose_line_fails_has_a_status(rt: HostRuntime) -> Result<(), Fail> {
    assert_eq!(rt; told(rt.alloc(), Outcome::Misused, true, "")?, (9, true));
    let ended = Outcome::Ended(Ending::NoMemory);
    assert_eq!(rt; told(rt.alloc(), ended, true, "")?, (70, true));
    Ok(())
}
