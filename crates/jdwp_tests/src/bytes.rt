use crate::rows::{byte, cut, expect, shown};
use jdwp_events::{EventKind, ModifierKind, Policy};
use jdwp_values::{Tag, TypeTag};
use std::alloc::Global;
use std::test::Fail;

fn type_tag(alloc: Global, byte: u8) -> Result<String, Fail> {
    shown(alloc, TypeTag::from_byte(byte).map(|it| (it, it.byte())))
}

fn tag(alloc: Global, byte: u8) -> Result<String, Fail> {
    let found = Tag::from_byte(byte);
    shown(alloc, found.map(|it| (it, it.byte(), it.is_reference())))
}

fn policy(alloc: Global, byte: u8) -> Result<String, Fail> {
    shown(alloc, Policy::from_byte(byte).map(|it| (it, it.byte())))
}

fn event_kind(alloc: Global, byte: u8) -> Result<String, Fail> {
    shown(alloc, EventKind::from_byte(byte).map(|it| (it, it.byte())))
}

fn modifier_kind(alloc: Global, byte: u8) -> Result<String, Fail> {
    let found = ModifierKind::from_byte(byte);
    shown(alloc, found.map(|it| (it, it.byte())))
}

// What a byte stands for, as printed, with the byte that this has; of a tag also whether it is a reference's.
fn meaning(alloc: Global, table: &str, byte: u8) -> Result<String, Fail> {
    match table {
        "type tag" => type_tag(alloc, byte),
        "tag" => tag(alloc, byte),
        "policy" => policy(alloc, byte),
        "event kind" => event_kind(alloc, byte),
        "modifier" => modifier_kind(alloc, byte),
        _ => Err("no table".into()),
    }
}

fn check(alloc: Global, rows: &str) -> Result<(), Fail> {
    for row in rows.split('\n') {
        if !row.is_empty() {
            let (table, rest) = cut(row)?;
            let (digits, wanted) = cut(rest)?;
            let given = meaning(alloc, table, byte(digits)?)?;
            expect(alloc, row, given.as_str(), wanted)?;
        }
    }
    Ok(())
}

// The bytes as the standard has them, in decimals (JDWP, Constants, TypeTag and Tag).
const TAGS: &str = "
type tag | 0 | Some((Nothing, 0))
type tag | 1 | Some((Class, 1))
type tag | 2 | Some((Interface, 2))
type tag | 3 | Some((Array, 3))
type tag | 4 | None
tag | 66 | Some((Byte, 66, false))
tag | 67 | Some((Char, 67, false))
tag | 68 | Some((Double, 68, false))
tag | 70 | Some((Float, 70, false))
tag | 73 | Some((Int, 73, false))
tag | 74 | Some((Long, 74, false))
tag | 83 | Some((Short, 83, false))
tag | 90 | Some((Boolean, 90, false))
tag | 86 | Some((Void, 86, false))
tag | 88 | None
tag | 76 | Some((Object, 76, true))
tag | 91 | Some((Array, 91, true))
tag | 115 | Some((String, 115, true))
tag | 116 | Some((Thread, 116, true))
tag | 103 | Some((ThreadGroup, 103, true))
tag | 108 | Some((ClassLoader, 108, true))
tag | 99 | Some((ClassObject, 99, true))
";

#[test]
fn each_tag_has_its_byte(rt: HostRuntime) -> Result<(), Fail> {
    check(rt.alloc(), TAGS)
}

// FramePop, ClassUnload, MethodEntry and VMDisconnected have bytes among the kinds, and the modifiers Conditional,
// FieldOnly and SourceNameMatch among the modifiers; none of them is known here (JDWP, Constants, SuspendPolicy and
// EventKind; JDWP, EventRequest command set, Set, modKind).
const EVENTS: &str = "
policy | 0 | Some((NoThread, 0))
policy | 1 | Some((EventThread, 1))
policy | 2 | Some((All, 2))
policy | 3 | None
event kind | 1 | Some((SingleStep, 1))
event kind | 2 | Some((Breakpoint, 2))
event kind | 4 | Some((Exception, 4))
event kind | 6 | Some((ThreadStart, 6))
event kind | 7 | Some((ThreadDeath, 7))
event kind | 8 | Some((ClassPrepare, 8))
event kind | 90 | Some((VMStart, 90))
event kind | 99 | Some((VMDeath, 99))
event kind | 0 | None
event kind | 3 | None
event kind | 9 | None
event kind | 40 | None
event kind | 100 | None
modifier | 1 | Some((Count, 1))
modifier | 3 | Some((ThreadOnly, 3))
modifier | 4 | Some((ClassOnly, 4))
modifier | 5 | Some((ClassMatch, 5))
modifier | 6 | Some((ClassExclude, 6))
modifier | 7 | Some((LocationOnly, 7))
modifier | 8 | Some((ExceptionOnly, 8))
modifier | 10 | Some((Step, 10))
modifier | 0 | None
modifier | 2 | None
modifier | 9 | None
modifier | 12 | None
";

#[test]
fn each_kind_and_policy_has_its_byte(rt: HostRuntime) -> Result<(), Fail> {
    check(rt.alloc(), EVENTS)
}
