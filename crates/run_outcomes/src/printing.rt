//! Prints the text of an outcome, and gives the status of it.
ghost use Rattle.std.specs.Prelude.{◌≡◌, ℕ, List, IfOk, string_bytes};
ghost use Rattle.run_outcomes.specs.Lines.{Prints, line_of_ending, status_of, status_of_ending, text_of};
ghost use Rattle.run_outcomes.specs.Lines.{client_fault_line, client_fault_name, frame_fault_name, target_fault_line};
ghost use Rattle.run_outcomes.specs.Lines.{target_fault_name, packet_fault_name, is_unknown_reply, refused_line};
ghost use Rattle.run_outcomes.specs.Lines.{faulty_line, line_fault_name};

use command_words::usage;
use dap_frames::FrameFault;
use jdwp_packets::PacketFault;
use script_text::ScriptFault;
use session_endings::{ClientFault, Ending, TargetFault};
use std::alloc::{AllocError, Global};
use wire_core::{Blob, OutRefusal, Output, Text};

// The status where a line was not printed, and the one where memory ran out, which stays whatever happens to its line.
const NOT_PRINTED: u8 = 9;

pub(crate) const OUT_OF_MEMORY: u8 = 70;

/// What a run comes to: its words are refused; a link was not opened; a file was not read or written; one is too long, or
/// has this fault in this line, counted from 1; a session was served of what a file says, and this is the text of its log;
/// the log of a session was written, and these are the lines of its summary; this is the text of a target's stacks, or
/// there is none, since the target had gone; or a session ended so, for want of memory maybe before it began.
#[derive(Debug, Drop)]
pub enum Outcome {
    Misused,
    NotOpened,
    NotUsed,
    TooLong,
    BadLine { line: u32, kind: ScriptFault },
    Logged(Blob),
    Summed(Text),
    Dumped(Blob),
    TargetGone,
    Ended(Ending),
}

/// Prints the text of an outcome, in one write, and gives the status that the program ends with: that of the outcome; 70
/// where memory is refused; else 9 where the output fails.
pub fn tell<O: Output>(alloc: Global, outcome: Outcome, out: &mut O) -> u8
    ensures { Prints (O.printed out.old) (O.printed out.new) (text_of outcome) (status_of outcome) result }
{
    match outcome {
        Outcome::Misused => print_line(out, usage(), 2),
        Outcome::NotOpened => print_line(out, "ended 7 not opened\n", 7),
        Outcome::NotUsed => print_line(out, "ended 8 file\n", 8),
        Outcome::TooLong => print_line(out, "ended 10 script line 0 TooLong\n", 10),
        Outcome::BadLine { line, kind } => print_made(out, faulty_line(alloc, line, kind), 10),
        Outcome::Logged(text) => print(out, text.as_slice(), 0),
        Outcome::Summed(lines) => print_line(out, lines.as_str(), 0),
        Outcome::Dumped(text) => print(out, text.as_slice(), 0),
        Outcome::TargetGone => print_line(out, "ended 15 target gone\n", 15),
        Outcome::Ended(ending) => tell_ending(alloc, ending, out),
    }
}

fn tell_ending<O: Output>(alloc: Global, ending: Ending, out: &mut O) -> u8
    ensures { Prints (O.printed out.old) (O.printed out.new) (line_of_ending ending) (status_of_ending ending) result }
{
    match ending {
        Ending::Done => print_line(out, "ended 0 done\n", 0),
        Ending::Left => print_line(out, "ended 1 left\n", 1),
        Ending::BadClient { fault, at } => print_made(out, client_fault_line(alloc, fault, at), 3),
        Ending::BadTarget { fault, at, id } => {
            print_made(out, target_fault_line(alloc, fault, at, id), 4)
        }
        Ending::ClientLink => print_line(out, "ended 5 client link\n", 5),
        Ending::TargetLink => print_line(out, "ended 6 target link\n", 6),
        Ending::TargetRefused { set, command, code } => {
            print_made(out, refused_line(alloc, set, command, code), 11)
        }
        Ending::Idle => print_line(out, "ended 12 idle\n", 12),
        Ending::Spent => print_line(out, "ended 13 turns\n", 13),
        Ending::Flood => print_line(out, "ended 14 flood\n", 14),
        Ending::NoMemory => print_line(out, "ended 70 memory\n", OUT_OF_MEMORY),
    }
}

/// The status of a session's ending.
pub fn status_of_ending(ending: Ending) -> u8
    ensures { result ≡ status_of_ending ending }
{
    match ending {
        Ending::Done => 0,
        Ending::Left => 1,
        Ending::BadClient { fault: _, at: _ } => 3,
        Ending::BadTarget {
            fault: _,
            at: _,
            id: _,
        } => 4,
        Ending::ClientLink => 5,
        Ending::TargetLink => 6,
        Ending::TargetRefused {
            set: _,
            command: _,
            code: _,
        } => 11,
        Ending::Idle => 12,
        Ending::Spent => 13,
        Ending::Flood => 14,
        Ending::NoMemory => OUT_OF_MEMORY,
    }
}

fn client_fault_line(alloc: Global, fault: ClientFault, at: u64) -> Result<String, AllocError>
    ensures { IfOk result (λ line. string_bytes line ≡ client_fault_line fault at) }
{
    let name = client_fault_name(fault);
    format!(in alloc; "ended 3 client {name} at {at}\n")
}

fn target_fault_line(
    alloc: Global,
    fault: TargetFault,
    at: u64,
    id: u32,
) -> Result<String, AllocError>
    ensures { IfOk result (λ line. string_bytes line ≡ target_fault_line fault at id) }
{
    let name = target_fault_name(fault);
    let place = format!(in alloc; "{name} at {at}")?;
    if is_unknown_reply(fault) {
        format!(in alloc; "ended 4 target {place} id {id}\n")
    } else {
        format!(in alloc; "ended 4 target {place}\n")
    }
}

fn is_unknown_reply(fault: TargetFault) -> bool
    ensures { result ≡ is_unknown_reply fault }
{
    matches!(fault, TargetFault::UnknownReply)
}

fn refused_line(alloc: Global, set: u8, command: u8, code: u16) -> Result<String, AllocError>
    ensures { IfOk result (λ line. string_bytes line ≡ refused_line set command code) }
{
    format!(in alloc; "ended 11 refused {set}.{command} error {code}\n")
}

fn client_fault_name(fault: ClientFault) -> &'static str
    ensures { result.now ≡ client_fault_name fault }
{
    match fault {
        ClientFault::Frame(fault) => frame_fault_name(fault),
        ClientFault::NotJson => "NotJson",
        ClientFault::NotAMessage => "NotAMessage",
    }
}

fn frame_fault_name(fault: FrameFault) -> &'static str
    ensures { result.now ≡ frame_fault_name fault }
{
    match fault {
        FrameFault::NoLength => "NoLength",
        FrameFault::TwoLengths => "TwoLengths",
        FrameFault::BadLength => "BadLength",
        FrameFault::TooLong => "TooLong",
        FrameFault::HeaderTooLong => "HeaderTooLong",
        FrameFault::BadHeader => "BadHeader",
    }
}

fn target_fault_name(fault: TargetFault) -> &'static str
    ensures { result.now ≡ target_fault_name fault }
{
    match fault {
        TargetFault::Packet(fault) => packet_fault_name(fault),
        TargetFault::Short => "Short",
        TargetFault::BadTag => "BadTag",
        TargetFault::BadCount => "BadCount",
        TargetFault::BadKind => "BadKind",
        TargetFault::BadPolicy => "BadPolicy",
        TargetFault::Trailing => "Trailing",
        TargetFault::BadSizes => "BadSizes",
        TargetFault::PolicyThread => "PolicyThread",
        TargetFault::BadCommand => "BadCommand",
        TargetFault::UnknownReply => "UnknownReply",
    }
}

fn packet_fault_name(fault: PacketFault) -> &'static str
    ensures { result.now ≡ packet_fault_name fault }
{
    match fault {
        PacketFault::BadHandshake => "BadHandshake",
        PacketFault::ShortLength => "ShortLength",
        PacketFault::TooLong => "TooLong",
        PacketFault::BadFlags => "BadFlags",
    }
}

fn faulty_line(alloc: Global, line: u32, kind: ScriptFault) -> Result<String, AllocError>
    ensures { IfOk result (λ text. string_bytes text ≡ faulty_line line kind) }
{
    let name = line_fault_name(kind);
    format!(in alloc; "ended 10 script line {line} {name}\n")
}

fn line_fault_name(kind: ScriptFault) -> &'static str
    ensures { result.now ≡ line_fault_name kind }
{
    match kind {
        ScriptFault::NotUtf8 => "NotUtf8",
        ScriptFault::NotJson => "NotJson",
        ScriptFault::BadShape => "BadShape",
        ScriptFault::BadVersion => "BadVersion",
        ScriptFault::BadOrder => "BadOrder",
        ScriptFault::RepeatedId => "RepeatedId",
        ScriptFault::UnknownId => "UnknownId",
        ScriptFault::BadMove => "BadMove",
        ScriptFault::NoEnd => "NoEnd",
        ScriptFault::AfterEnd => "AfterEnd",
    }
}

// Prints a line that was made, or nothing where memory ran out while it was.
fn print_made<O: Output>(out: &mut O, line: Result<String, AllocError>, status: u8) -> u8
    ensures { (wanted : List ℕ) → IfOk line (λ made. string_bytes made ≡ wanted)
        → Prints (O.printed out.old) (O.printed out.new) wanted status result }
{
    match line {
        Ok(line) => print_line(out, line.as_str(), status),
        Err(_) => OUT_OF_MEMORY,
    }
}

fn print_line<O: Output>(out: &mut O, line: &str, status: u8) -> u8
    ensures { Prints (O.printed out.old) (O.printed out.new) line.now status result }
{
    print(out, line.as_bytes(), status)
}

fn print<O: Output>(out: &mut O, text: &[u8], status: u8) -> u8
    ensures { Prints (O.printed out.old) (O.printed out.new) text.now status result }
{
    match out.write(text) {
        Ok(()) => status,
        Err(OutRefusal::NoMemory) => OUT_OF_MEMORY,
        Err(OutRefusal::Failed) => {
            if status == OUT_OF_MEMORY {
                status
            } else {
                NOT_PRINTED
            }
        }
    }
}
