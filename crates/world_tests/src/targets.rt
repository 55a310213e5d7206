//! Exchanges with a scripted target, byte for byte in hexadecimal.
use crate::commands::bytes_of;
use crate::courses::{empty, run, sizes_of};
use crate::moves::move_of;
use crate::rows::{head, id_of};
use jdwp_events::Policy;
use jdwp_values::ThreadId;
use std::alloc::Global;
use std::test::Fail;
use target_server::{Target, TargetTrouble};
use wire_core::List;
use world_model::{Move, World};

// A class with a method, and a thread with a frame in it.
const WORLD: &str = "
sizes 1 1 1 1 1
count 0
class 1 1 LFoo; - 0 true
method 1 1 run ()V 9 0 9 0:10 5:11
thread 2 t
frame 2 3 1 1 0 0 0:I7
";

// A breakpoint is set and hit, the thread, its frame and its slot are asked for, and the target runs on to its end.
const HIT: &str = "
target 2 2
next at 2 5 0:I8
next death
feed 4a4457502d
out
feed 48616e647368616b650000000b00000001000107
out 4a4457502d48616e647368616b65000000160000000100406402000000015a0000000002
serve 0
lacks 0
out 0000001f000000018000000000000100000001000000010000000100000001
stay
feed 0000001d00000002000f01020200000001070101010000000000000005
serve 0
feed 0000000b00000003000109
serve 0
out 0000000f00000002800000000000010000000b00000003800000
move
out 000000210000000200406402000000010200000001020101010000000000000005
stay
feed 0000001400000004000b060200000000ffffffff0000000c00000005000b
lacks 1
feed 0102
serve 1
serve 0
out 000000100000000580000000000001740000001b0000000480000000000001030101010000000000000005
feed 00000016000000060010010203000000010000000049
serve 0
out 0000001400000006800000000000014900000008
feed 0000000b00000007000109
serve 0
out 0000000b00000007800000
move
out 000000150000000300406400000000016300000000
stay
feed 0000000b00000008000104
serve 0
out 0000000b00000008800070
";

#[test]
fn a_breakpoint_is_hit_and_its_frame_is_shown(rt: HostRuntime) -> Result<(), Fail> {
    check(rt.alloc(), HIT)
}

const EXIT: &str = "
target
next at 2 5 0:I8
next death
feed 4a4457502d48616e647368616b650000000f0000000100010a00000000
serve 0
out 4a4457502d48616e647368616b650000000b00000001800000000000150000000100406400000000016300000000
feed 0000000f0000000200010a00000000
serve 0
out 0000000b00000002800070
stay
";

#[test]
fn an_exit_is_told_behind_its_reply(rt: HostRuntime) -> Result<(), Fail> {
    check(rt.alloc(), EXIT)
}

const EARLY_END: &str = "
target 2 0
next death
move
out
feed 4a4457502d48616e647368616b65
out 4a4457502d48616e647368616b65000000150000000100406400000000016300000000
stay
";

#[test]
fn an_end_before_the_handshake_is_told_behind_it(rt: HostRuntime) -> Result<(), Fail> {
    check(rt.alloc(), EARLY_END)
}

// The command before a trouble stays.
const TROUBLES: &str = "
target
next at 2 5 0:I8
next death
refused 4a44575078 Packet(PacketTrouble { fault: BadHandshake, at: 4 })
refused  Packet(PacketTrouble { fault: BadHandshake, at: 4 })
lacks 0
target
next at 2 5 0:I8
next death
refused 4a4457502d48616e647368616b650000000a Packet(PacketTrouble { fault: ShortLength, at: 14 })
refused  Packet(PacketTrouble { fault: ShortLength, at: 14 })
lacks 0
target
next at 2 5 0:I8
next death
refused 4a4457502d48616e647368616b650000000b000000010001040000000b00000001800000 NotACommand { at: 25 }
refused  NotACommand { at: 25 }
serve 0
target
next at 2 5 0:I8
next death
refused 4a4457502d48616e647368616b650000000b00000001000163 Body { at: 14, fault: UnknownCommand }
refused  Body { at: 14, fault: UnknownCommand }
lacks 0
target
next at 2 5 0:I8
next death
refused 4a4457502d48616e647368616b650000000b000000010001040000000b00000002000b01 Body { at: 25, fault: Short { at: 0 } }
refused  Body { at: 25, fault: Short { at: 0 } }
serve 0
target
next at 2 5 0:I8
next death
refused 4a4457502d48616e647368616b650000000c0000000100010400 Body { at: 14, fault: Trailing { at: 0 } }
refused  Body { at: 14, fault: Trailing { at: 0 } }
lacks 0
";

#[test]
fn a_trouble_is_answered_again(rt: HostRuntime) -> Result<(), Fail> {
    check(rt.alloc(), TROUBLES)
}

// Runs each target of a text. It begins with the line `target`, and the thread and the suspend policy of its start, where
// that is told. Lines with `next` are the moves of its program; the other lines say that
//
// - it is fed bytes (`feed`), or refuses them with a trouble (`refused`);
// - it serves the command at a place (`serve`), or has none there (`lacks`);
// - it makes its next move (`move`), or makes none (`stay`);
// - it hands out bytes, and no more (`out`).
fn check(alloc: Global, text: &str) -> Result<(), Fail> {
    for section in text.split("\ntarget").skip(1) {
        let (begin, lines) = section.split_once('\n').ok_or("a target on one line")?;
        run_target(alloc, begin_of(begin)?, lines)?;
    }
    Ok(())
}

fn begin_of(words: &str) -> Result<Option<(ThreadId, Policy)>, Fail> {
    if words.is_empty() {
        return Ok(None);
    }
    let (thread, policy) = head(words.trim_start());
    let policy = Policy::from_byte(policy.parse()?).ok_or("no policy")?;
    Ok(Some((ThreadId(id_of(thread)?), policy)))
}

// A target is let go by a call, as a world is.
fn run_target(alloc: Global, begin: Option<(ThreadId, Policy)>, lines: &str) -> Result<(), Fail> {
    let mut world = empty(alloc, sizes_of([1, 1, 1, 1, 1])?);
    let mut program = List::new(alloc);
    if let Err(fail) = make(alloc, &mut world, &mut program, lines) {
        drop(world);
        drop(program);
        return Err(fail);
    }
    let mut target = Target::new(alloc, world, program, begin);
    let done = run_lines(alloc, &mut target, lines);
    drop(target);
    done
}

fn make(
    alloc: Global,
    world: &mut World,
    program: &mut List<Move>,
    lines: &str,
) -> Result<(), Fail> {
    run(alloc, world, WORLD)?;
    for line in lines.split('\n') {
        if let ("next", next) = head(line) {
            program.push(move_of(alloc, next)?)?;
        }
    }
    Ok(())
}

fn run_lines(alloc: Global, target: &mut Target, lines: &str) -> Result<(), Fail> {
    for line in lines.split('\n') {
        if !goes_so(alloc, target, line)? {
            return Err(line.to_string(alloc)?.into());
        }
    }
    Ok(())
}

// Whether a line goes as it says.
fn goes_so(alloc: Global, target: &mut Target, line: &str) -> Result<bool, Fail> {
    let (word, rest) = head(line);
    match word {
        "feed" => Ok(fed(alloc, target, rest)?.is_ok()),
        "refused" => refuses(alloc, target, rest),
        "serve" => Ok(target.serve_one(alloc, rest.parse()?)?),
        "lacks" => Ok(!target.serve_one(alloc, rest.parse()?)?),
        "move" => Ok(target.advance(alloc)?),
        "stay" => Ok(!target.advance(alloc)?),
        "out" => hands_out(alloc, target, rest),
        "next" => Ok(true),
        _ => Ok(line.is_empty()),
    }
}

fn fed(alloc: Global, target: &mut Target, text: &str) -> Result<Result<(), TargetTrouble>, Fail> {
    let bytes = bytes_of(alloc, text)?;
    Ok(target.feed(alloc, bytes.as_slice()))
}

fn refuses(alloc: Global, target: &mut Target, words: &str) -> Result<bool, Fail> {
    let (bytes, wanted) = head(words);
    match fed(alloc, target, bytes)? {
        Ok(()) => Ok(false),
        Err(trouble) => Ok(format!(in alloc; "{trouble:?}")?.as_str() == wanted),
    }
}

fn hands_out(alloc: Global, target: &mut Target, text: &str) -> Result<bool, Fail> {
    let bytes = bytes_of(alloc, text)?;
    let mut buf = [0; 200];
    let count = target.out(&mut buf);
    Ok(count <= buf.len() && &buf[..count] == bytes.as_slice())
}
