ghost use Rattle.std.specs.Prelude.{◌≡◌, ◌<◌, ◌^◌, length};
ghost use Rattle.jdwp_commands.specs.Commands.{FitsCommand};

use crate::rows::{bytes_of, cut, expect, numbers_of, shown, sizes_of};
use jdwp_commands::{
    Asked, CommandKind, Effect, Question, an_answer_has_a_spelling, read_answer, read_command,
    write, write_answer,
};
use jdwp_events::{EventKind, Policy};
use jdwp_values::{IdSizes, Limit};
use std::alloc::Global;
use std::test::Fail;
use wire_core::{List, NoMemory};

fn own_numbers(kind: CommandKind) -> (u8, u8) {
    match kind {
        CommandKind::Question(kind) => kind.numbers(),
        CommandKind::Effect(kind) => kind.numbers(),
    }
}

// The command that has these numbers, where it says that it has them.
fn named(alloc: Global, numbers: (u8, u8)) -> Result<String, Fail> {
    let found = CommandKind::from_numbers(numbers.0, numbers.1);
    if let Some(kind) = found {
        if kind.numbers() != numbers || own_numbers(kind) != numbers {
            return Err("a command with other numbers".into());
        }
    }
    shown(alloc, found)
}

fn check_numbers(alloc: Global, rows: &str) -> Result<(), Fail> {
    for row in rows.split('\n') {
        if !row.is_empty() {
            let (command, wanted) = cut(row)?;
            let given = named(alloc, numbers_of(command)?)?;
            expect(alloc, row, given.as_str(), wanted)?;
        }
    }
    Ok(())
}

const QUESTIONS: &str = "
1.2 | Some(Question(ClassesBySignature))
1.3 | Some(Question(AllClasses))
1.4 | Some(Question(AllThreads))
1.7 | Some(Question(IdSizes))
2.1 | Some(Question(Signature))
2.4 | Some(Question(Fields))
2.5 | Some(Question(Methods))
2.7 | Some(Question(SourceFile))
3.1 | Some(Question(Superclass))
6.1 | Some(Question(LineTable))
6.2 | Some(Question(VariableTable))
9.1 | Some(Question(ObjectType))
9.2 | Some(Question(GetFields))
10.1 | Some(Question(StringValue))
11.1 | Some(Question(ThreadName))
11.6 | Some(Question(Frames))
11.7 | Some(Question(FrameCount))
13.1 | Some(Question(ArrayLength))
13.2 | Some(Question(GetElements))
16.1 | Some(Question(GetSlots))
16.3 | Some(Question(ThisObject))
";

#[test]
fn questions_have_their_numbers(rt: HostRuntime) -> Result<(), Fail> {
    check_numbers(rt.alloc(), QUESTIONS)
}

// Version, TopLevelThreadGroups, NewInstance of a class and Composite have numbers, and none of them is known here.
const EFFECTS: &str = "
1.6 | Some(Effect(Dispose))
1.8 | Some(Effect(Suspend))
1.9 | Some(Effect(Resume))
1.10 | Some(Effect(Exit))
9.3 | Some(Effect(SetField))
13.3 | Some(Effect(SetElement))
15.1 | Some(Effect(Set))
15.2 | Some(Effect(Clear))
16.2 | Some(Effect(SetSlot))
0.0 | None
1.1 | None
1.5 | None
3.4 | None
64.100 | None
";

#[test]
fn effects_have_their_numbers(rt: HostRuntime) -> Result<(), Fail> {
    check_numbers(rt.alloc(), EFFECTS)
}

fn own_kind(asked: &Asked) -> CommandKind {
    match asked {
        Asked::Question(question) => CommandKind::Question(question.kind()),
        Asked::Effect(effect) => CommandKind::Effect(effect.kind()),
    }
}

fn own_limit(asked: &Asked) -> Limit {
    match asked {
        Asked::Question(question) => question.limit(),
        Asked::Effect(_) => Limit::Any,
    }
}

// The kind of a command, and how many items its answer may have.
fn kind_and_limit(alloc: Global, asked: &Asked) -> Result<String, Fail> {
    let kind = asked.kind();
    let limit = asked.limit();
    if kind != own_kind(asked) || limit != own_limit(asked) {
        return Err("a command of two kinds or limits".into());
    }
    Ok(format!(in alloc; "{kind:?} {limit:?}")?)
}

fn limit_of_row(alloc: Global, sizes: IdSizes, command: &str, body: &str) -> Result<String, Fail> {
    let (set, command) = numbers_of(command)?;
    let bytes = bytes_of(alloc, body)?;
    match read_command(alloc, sizes, set, command, bytes.as_slice()) {
        Ok(asked) => {
            let said = kind_and_limit(alloc, &asked);
            drop(asked);
            said
        }
        Err(fault) => shown(alloc, fault),
    }
}

fn check_limits(alloc: Global, rows: &str) -> Result<(), Fail> {
    let sizes = sizes_of(alloc, "0101010101")?;
    for row in rows.split('\n') {
        if !row.is_empty() {
            let (command, rest) = cut(row)?;
            let (body, wanted) = cut(rest)?;
            let given = limit_of_row(alloc, sizes, command, body)?;
            expect(alloc, row, given.as_str(), wanted)?;
        }
    }
    Ok(())
}

// Two fields, a slot, and 3, -1 and -2 frames or elements are asked for; ids take one byte.
const LIMITS: &str = "
1.4 | | Question(AllThreads) Any
9.2 | 02 00000002 03 04 | Question(GetFields) Exactly(2)
16.1 | 01 05 00000001 00000000 'I' | Question(GetSlots) Exactly(1)
11.6 | 01 00000000 00000003 | Question(Frames) AtMost(3)
11.6 | 01 00000000 ffffffff | Question(Frames) Any
11.6 | 01 00000000 fffffffe | Question(Frames) Never
13.2 | 02 00000000 00000003 | Question(GetElements) Exactly(3)
13.2 | 02 00000000 ffffffff | Question(GetElements) Never
1.9 | | Effect(Resume) Any
1.10 | 00000001 | Effect(Exit) Any
15.2 | 02 00000010 | Effect(Clear) Any
";

#[test]
fn a_command_says_how_many_items_its_answer_may_have(rt: HostRuntime) -> Result<(), Fail> {
    check_limits(rt.alloc(), LIMITS)
}

// Whether a command is written with these numbers and this body.
fn is_written(
    alloc: Global,
    sizes: IdSizes,
    asked: &Asked,
    numbers: (u8, u8),
    body: &[u8],
) -> Result<bool, NoMemory>
    requires { FitsCommand sizes asked.now }
{
    let (set, command, written) = write(alloc, sizes, asked)?;
    Ok((set, command) == numbers && written.as_slice() == body)
}

// The fault of an answer, or whether it is written with the same body.
fn answered(alloc: Global, sizes: IdSizes, asked: &Asked, reply: &[u8]) -> Result<String, Fail>
    requires { length reply.now < 2 ^ 32 }
{
    match read_answer(alloc, sizes, asked, reply) {
        Ok(answer) => {
            an_answer_has_a_spelling();
            let written = write_answer(alloc, sizes, &answer);
            drop(answer);
            shown(alloc, written?.as_slice() == reply)
        }
        Err(fault) => shown(alloc, fault),
    }
}

// The fault of a command or of its answer, or whether both are written again as they were.
fn exchanged(
    alloc: Global,
    sizes: IdSizes,
    numbers: (u8, u8),
    body: &[u8],
    reply: &[u8],
) -> Result<String, Fail>
    requires body { length body.now < 2 ^ 32 }
    requires reply { length reply.now < 2 ^ 32 }
{
    match read_command(alloc, sizes, numbers.0, numbers.1, body) {
        Ok(asked) => {
            let said = if is_written(alloc, sizes, &asked, numbers, body) == Ok(true) {
                answered(alloc, sizes, &asked, reply)
            } else {
                Err("another command is written".into())
            };
            drop(asked);
            said
        }
        Err(fault) => shown(alloc, fault),
    }
}

fn check_row(alloc: Global, sizes: IdSizes, row: &str) -> Result<(), Fail> {
    let (command, rest) = cut(row)?;
    let (body, rest) = cut(rest)?;
    let (reply, wanted) = cut(rest)?;
    let body = bytes_of(alloc, body)?;
    let reply = bytes_of(alloc, reply)?;
    let numbers = numbers_of(command)?;
    let given = exchanged(alloc, sizes, numbers, body.as_slice(), reply.as_slice())?;
    expect(alloc, row, given.as_str(), wanted)
}

// Each row has the numbers of a command, its body, and the body of its reply; then the first fault, or `true`.
fn check(alloc: Global, sizes: &str, rows: &str) -> Result<(), Fail> {
    let sizes = sizes_of(alloc, sizes)?;
    for row in rows.split('\n') {
        if !row.is_empty() {
            check_row(alloc, sizes, row)?;
        }
    }
    Ok(())
}

// What went over the wire between a client and a Java machine, but for AllClasses and ClassesBySignature, which are
// reckoned by hand, and the sizes 4, 4, 8, 8, 4.
const MACHINE_AND_CLASSES: &str = "
1.4 | | 00000002 0000000000000001 0000000000000008 | true
1.7 | | 00000004 00000004 00000008 00000008 00000004 | true
1.3 | | 00000001 01 000000000000016f 0000000e 'Lcom/acme/Foo;' 00000007 | true
1.2 | 0000000e 'Lcom/acme/Foo;' | 00000001 01 000000000000016f 00000007 | true
2.1 | 0000000000000007 | 00000013 'Lcom/acme/Foo$Boom;' | true
2.4 | 0000000000000176 | 00000001 0000000000000032 00000005 'arg$1' 00000001 'I' 00000012 | true
2.5 | 0000000000000173 | 00000002 00007fa8c80106a8 00000006 '<init>' 00000011 '(Lcom/acme/Foo;)V' 00000000 00007fa8c80106b0 00000003 'sum' 00000003 '()I' 00000000 | true
2.7 | 000000000000016f | 00000008 'Foo.java' | true
3.1 | 0000000000000171 | 000000000000016c | true
";

#[test]
fn questions_of_the_machine_and_of_classes_are_read_and_written_again(
    rt: HostRuntime,
) -> Result<(), Fail> {
    check(rt.alloc(), "0808080808", MACHINE_AND_CLASSES)
}

// What went over the wire.
const METHODS_AND_OBJECTS: &str = "
6.1 | 0000000000000174 00007fa8c80106b8 | ffffffffffffffff ffffffffffffffff 00000000 | true
6.1 | 0000000000000174 00007fa8c80037c0 | 0000000000000000 0000000000000013 00000001 0000000000000000 00000014 | true
6.2 | 000000000000016f 00007f9b9800f990 | 00000001 00000002 0000000000000000 00000001 'k' 00000001 'I' 0000001c 00000000 0000000000000004 00000006 'square' 00000001 'I' 00000018 00000001 | true
9.1 | 000000000000017d | 03 000000000000009a | true
9.2 | 00000000000001a0 00000002 0000000000000032 0000000000000042 | 00000002 'I' 00000000 'L' 0000000000000000 | true
10.1 | 0000000000000195 | 00000001 'q' | true
";

#[test]
fn questions_of_methods_and_objects_are_read_and_written_again(
    rt: HostRuntime,
) -> Result<(), Fail> {
    check(rt.alloc(), "0808080808", METHODS_AND_OBJECTS)
}

// What went over the wire.
const THREADS_ARRAYS_AND_FRAMES: &str = "
11.1 | 0000000000000001 | 00000004 'main' | true
11.6 | 0000000000000001 00000000 00000001 | 00000001 0000000000030000 01 000000000000016e 00007fb2f000f978 0000000000000002 | true
11.7 | 0000000000000001 | 00000002 | true
13.1 | 000000000000019b | 00000003 | true
13.2 | 0000000000000180 00000000 00000002 | 'Z' 00000002 01 00 | true
13.2 | 000000000000017d 00000001 00000002 | 'I' 00000002 00000002 00000003 | true
16.1 | 0000000000000173 0000000000100000 00000001 00000000 'I' | 00000001 'I' 00000003 | true
16.3 | 0000000000000175 0000000000040000 | 'L' 0000000000000000 | true
";

#[test]
fn questions_of_threads_arrays_and_frames_are_read_and_written_again(
    rt: HostRuntime,
) -> Result<(), Fail> {
    check(rt.alloc(), "0808080808", THREADS_ARRAYS_AND_FRAMES)
}

// What went over the wire.
const CHANGES: &str = "
1.6 | | | true
1.8 | | | true
1.9 | | | true
1.10 | 00000000 | | true
9.3 | 0000000000000189 00000001 0000000000000032 00000007 | | true
13.3 | 000000000000017d 00000001 00000001 00000037 | | true
15.1 | 06 00 00000000 | 00000002 | true
15.1 | 04 02 00000001 08 0000000000000000 00 01 | 00000004 | true
15.1 | 08 02 00000001 05 0000000a 'com.acme.*' | 00000004 | true
15.2 | 01 00000010 | | true
16.2 | 0000000000000001 0000000000090000 00000001 00000006 'C' 00e9 | | true
";

#[test]
fn effects_are_read_and_written_again(rt: HostRuntime) -> Result<(), Fail> {
    check(rt.alloc(), "0808080808", CHANGES)
}

// A request with one modifier of each kind, reckoned by hand; ids take one byte.
const MODIFIERS: &str = "
15.1 | 02 02 00000008 01 00000005 03 07 04 08 05 0000000a 'com.acme.*' 06 00000001 '*' 07 01 09 0a 000000000000000b 08 00 00 01 0a 07 00000001 00000002 | 00000004 | true
";

#[test]
fn modifiers_of_each_kind_are_written_again(rt: HostRuntime) -> Result<(), Fail> {
    check(rt.alloc(), "0101010101", MODIFIERS)
}

fn check_rows_of(alloc: Global, rows: &str) -> Result<(), Fail> {
    for row in rows.split('\n') {
        if !row.is_empty() {
            let (sizes, rest) = cut(row)?;
            check_row(alloc, sizes_of(alloc, sizes)?, rest)?;
        }
    }
    Ok(())
}

// The same with the sizes of ids in front: lists of threads, fields, values and lines, a method, a field and a variable,
// as calls of a reader read them.
const LISTS: &str = "
0808020808 | 1.4 | | 00000002 0005 0100 | true
0208080808 | 9.2 | 0000000000000001 00000002 0005 0100 | 00000002 'Z' 01 'Z' 00 | true
0808010808 | 9.2 | 01 00000002 0000000000000001 0000000000000002 | 00000002 'I' fffffffb 'L' 07 | true
0808080808 | 6.1 | 0000000000000001 0000000000000002 | 0000000000000000 0000000000000009 00000002 0000000000000000 00000005 0000000000000009 00000100 | true
0803080808 | 2.5 | 0000000000000001 | 00000001 000102 00000003 'run' 00000003 '()V' 00000001 | true
0108080808 | 2.4 | 0000000000000001 | 00000001 07 00000004 'size' 00000001 'I' 00000012 | true
0808080808 | 6.2 | 0000000000000001 0000000000000002 | 00000000 00000001 0000000000000002 00000001 'i' 00000001 'J' ffffffff 00000003 | true
";

#[test]
fn lists_and_members_of_classes_are_written_again(rt: HostRuntime) -> Result<(), Fail> {
    check_rows_of(rt.alloc(), LISTS)
}

// Ids of one byte. Commands that can't be read.
const FAULTY_COMMANDS: &str = "
1.5 | | | UnknownCommand
1.10 | 0000 | | Short { at: 0 }
1.9 | 00 | | Trailing { at: 0 }
15.1 | 03 00 00000000 | | BadTag { at: 0 }
15.1 | 06 03 00000000 | | BadTag { at: 1 }
9.3 | 07 00000002 05 01 | | BadCount { at: 1 }
9.3 | 07 00000001 05 | | Short { at: 6 }
9.3 | 07 00000001 05 '123456789' | | Trailing { at: 14 }
";

#[test]
fn a_command_is_refused_at_its_first_wrong_part(rt: HostRuntime) -> Result<(), Fail> {
    check(rt.alloc(), "0101010101", FAULTY_COMMANDS)
}

// Commands whose answer can't be read.
const FAULTY_ANSWERS: &str = "
11.7 | 01 | ffffffff | BadCount { at: 0 }
11.6 | 01 00000000 00000001 | 00000002 | BadCount { at: 0 }
11.6 | 01 00000000 ffffffff | 00000002 | Short { at: 4 }
13.2 | 01 00000000 00000001 | 'V' 00000001 | BadTag { at: 0 }
13.2 | 01 00000000 00000001 | 'Z' 00000000 | BadCount { at: 1 }
13.2 | 01 00000000 00000001 | 'L' 00000001 'I' | BadTag { at: 5 }
16.3 | 01 02 | 'I' 00000001 | BadTag { at: 0 }
1.8 | | 00 | Trailing { at: 0 }
";

#[test]
fn an_answer_is_refused_at_its_first_wrong_part(rt: HostRuntime) -> Result<(), Fail> {
    check(rt.alloc(), "0101010101", FAULTY_ANSWERS)
}

// The first commands of a session: the sizes of ids, and the request of the starts of threads.
fn first_commands(alloc: Global, sizes: IdSizes) -> Result<bool, NoMemory> {
    let the_sizes = Asked::Question(Question::IdSizes);
    let starts = Asked::Effect(Effect::Set {
        kind: EventKind::ThreadStart,
        policy: Policy::NoThread,
        modifiers: List::new(alloc),
    });
    let body = b"\x06\x00\x00\x00\x00\x00".as_slice();
    let first = is_written(alloc, sizes, &the_sizes, (1, 7), b"");
    let second = is_written(alloc, sizes, &starts, (15, 1), body);
    drop(the_sizes);
    drop(starts);
    Ok(first? && second?)
}

#[test]
fn the_first_commands_of_a_session_are_written(rt: HostRuntime) -> Result<(), Fail> {
    let sizes = sizes_of(rt.alloc(), "0808080808")?;
    assert!(rt; first_commands(rt.alloc(), sizes)?);
    Ok(())
}
