//! Parts and rows that a reader reads one after the other.
use crate::rows::{byte, bytes_of, expect, head, limit_of, shown, sizes_of};
use jdwp_events::Modifier;
use jdwp_values::{
    Field, FieldId, IdSizes, Line, Method, ReadTrouble, Reader, Row, RowFault, ThreadId, Value,
    Variable, read_list,
};
use std::alloc::Global;
use std::test::Fail;

// A value that was read, behind its tag.
fn tagged(alloc: Global, read: Result<Value, ReadTrouble>) -> Result<String, Fail> {
    shown(alloc, read.map(|value| (value.tag(), value)))
}

// A modifier that was read, behind its kind.
fn kind_and_modifier(alloc: Global, read: Result<Modifier, RowFault>) -> Result<String, Fail> {
    let said = shown(alloc, (read.as_ref().ok().map(Modifier::kind), &read));
    drop(read);
    said
}

// What a call of the reader answers, as printed.
fn answer(alloc: Global, reader: &mut Reader<'_>, call: &str) -> Result<String, Fail> {
    match call {
        "at" => shown(alloc, reader.at()),
        "left" => shown(alloc, reader.left()),
        "byte" => shown(alloc, reader.byte()),
        "int" => shown(alloc, reader.int()),
        "long" => shown(alloc, reader.long()),
        "index" => shown(alloc, reader.index()),
        "number" => shown(alloc, reader.number()),
        "object" => shown(alloc, reader.object()),
        "thread" => shown(alloc, reader.thread()),
        "class" => shown(alloc, reader.class()),
        "method" => shown(alloc, reader.method()),
        "field" => shown(alloc, reader.field()),
        "frame" => shown(alloc, reader.frame()),
        "type tag" => shown(alloc, reader.type_tag()),
        "text" => shown(alloc, reader.text()),
        "location" => shown(alloc, reader.location()),
        "tail" => shown(alloc, reader.tail()),
        "value" => tagged(alloc, reader.value()),
        "reference" => tagged(alloc, reader.reference()),
        _ => other_answer(alloc, reader, call),
    }
}

// The calls with an argument, and those that read rows.
fn other_answer(alloc: Global, reader: &mut Reader<'_>, call: &str) -> Result<String, Fail> {
    let (word, rest) = head(call);
    match word {
        "untagged" => tagged(alloc, reader.untagged(byte(rest)?)),
        "count" => shown(alloc, reader.count(limit_of(rest)?)),
        "threads" => shown(alloc, read_list::<ThreadId>(alloc, limit_of(rest)?, reader)),
        "fields" => shown(alloc, read_list::<FieldId>(alloc, limit_of(rest)?, reader)),
        "values" => shown(alloc, read_list::<Value>(alloc, limit_of(rest)?, reader)),
        "lines" => shown(alloc, read_list::<Line>(alloc, limit_of(rest)?, reader)),
        "a-method" => shown(alloc, Method::read(alloc, reader)),
        "a-field" => shown(alloc, Field::read(alloc, reader)),
        "a-variable" => shown(alloc, Variable::read(alloc, reader)),
        "a-modifier" => kind_and_modifier(alloc, Modifier::read(alloc, reader)),
        _ => Err("no call".into()),
    }
}

fn check_body(alloc: Global, sizes: IdSizes, pieces: &str, calls: &str) -> Result<(), Fail> {
    let bytes = bytes_of(alloc, pieces)?;
    let mut reader = Reader::new(bytes.as_slice(), sizes);
    for line in calls.split('\n') {
        if let Some((call, wanted)) = line.split_once(" = ") {
            let given = answer(alloc, &mut reader, call)?;
            expect(alloc, line, given.as_str(), wanted)?;
        }
    }
    Ok(())
}

// Each body begins with the line `body`, the sizes of ids and its bytes; its other lines are calls and what they answer.
fn check(alloc: Global, text: &str) -> Result<(), Fail> {
    for body in text.split("\nbody ").skip(1) {
        let (front, calls) = body.split_once('\n').ok_or("a body with no call")?;
        let (sizes, pieces) = head(front);
        check_body(alloc, sizes_of(alloc, sizes)?, pieces, calls)?;
    }
    Ok(())
}

// Values as they stand in the replies to GetValues (JDWP, ObjectReference and StackFrame command sets, GetValues).
const NUMBERS: &str = "
body 0808080808 'B' ff 'C' d800 'D' 0000000000000001
value = Ok((Byte, Byte(-1)))
value = Ok((Char, Char(55296)))
value = Ok((Double, Double(1)))
left = 0

body 0808080808 'F' 7fc00000 'I' fffffffb 'J' 00007fc358004ed0
value = Ok((Float, Float(2143289344)))
value = Ok((Int, Int(-5)))
value = Ok((Long, Long(140476971765456)))
left = 0

body 0808080808 'S' 8000 'Z' 01 'V'
value = Ok((Short, Short(-32768)))
value = Ok((Boolean, Boolean(1)))
value = Ok((Void, Void))
left = 0
";

#[test]
fn numbers_stand_behind_their_tags(rt: HostRuntime) -> Result<(), Fail> {
    check(rt.alloc(), NUMBERS)
}

// Each is read as a value, and as a reference.
const OBJECTS: &str = "
body 0808020808 'L' 001f '[' 0100 's' 0000 't' 0002 'g' 0003 'l' ffff 'c' 0005
value = Ok((Object, Object(ObjectId(31))))
value = Ok((Array, Array(ObjectId(256))))
value = Ok((String, String(ObjectId(0))))
value = Ok((Thread, Thread(ObjectId(2))))
value = Ok((ThreadGroup, ThreadGroup(ObjectId(3))))
value = Ok((ClassLoader, ClassLoader(ObjectId(65535))))
value = Ok((ClassObject, ClassObject(ObjectId(5))))
left = 0

body 0808020808 'L' 001f '[' 0100 's' 0000 't' 0002 'g' 0003 'l' ffff 'c' 0005
reference = Ok((Object, Object(ObjectId(31))))
reference = Ok((Array, Array(ObjectId(256))))
reference = Ok((String, String(ObjectId(0))))
reference = Ok((Thread, Thread(ObjectId(2))))
reference = Ok((ThreadGroup, ThreadGroup(ObjectId(3))))
reference = Ok((ClassLoader, ClassLoader(ObjectId(65535))))
reference = Ok((ClassObject, ClassObject(ObjectId(5))))
left = 0
";

#[test]
fn ids_of_objects_stand_behind_the_tags_of_references(rt: HostRuntime) -> Result<(), Fail> {
    check(rt.alloc(), OBJECTS)
}

// A part that can't be read leaves the reader where it begins: 88 is no tag's byte.
const FAULTS: &str = "
body 0808080808 00 04000000 01 'I' ffffffff
byte = Ok(0)
type tag = Err(ReadTrouble { fault: BadTag, at: 1 })
location = Err(ReadTrouble { fault: BadTag, at: 1 })
text = Err(ReadTrouble { fault: Short, at: 1 })
untagged 88 = Err(ReadTrouble { fault: BadTag, at: 1 })
int = Ok(67108864)
byte = Ok(1)
reference = Err(ReadTrouble { fault: BadTag, at: 6 })
value = Ok((Int, Int(-1)))
tail = Err(ReadTrouble { fault: Short, at: 11 })

body 0808080808 ffffffff
text = Err(ReadTrouble { fault: BadCount, at: 0 })
count any = Err(ReadTrouble { fault: BadCount, at: 0 })
at = 0
";

#[test]
fn faults_stand_where_the_part_begins(rt: HostRuntime) -> Result<(), Fail> {
    check(rt.alloc(), FAULTS)
}

// The bodies are reckoned by hand: a location with ids of different sizes, each part once, and numbers, references and
// values whose tags stand elsewhere. 99 is the tag of a class object, 83 that of a short.
const PARTS: &str = "
body 0404080804 01 0000000000000010 00000003 0000000000000007
location = Ok(Location { tag: Class, class: ClassId(16), method: MethodId(3), index: 7 })
left = 0

body 0103010202 07 fffffffe fffffffffffffffd 8000000000000000 01 02 0003 000004 0005 06 03 00000002 'hi' 'L' 0a 'S' ff00 2122
byte = Ok(7)
int = Ok(-2)
long = Ok(-3)
index = Ok(9223372036854775808)
object = Ok(ObjectId(1))
thread = Ok(ThreadId(2))
class = Ok(ClassId(3))
method = Ok(MethodId(4))
frame = Ok(FrameId(5))
field = Ok(FieldId(6))
type tag = Ok(Array)
text = Ok([104, 105])
reference = Ok((Object, Object(ObjectId(10))))
value = Ok((Short, Short(-256)))
tail = Ok([33, 34])
left = 0

body 0808020808 ffffffff 00000002 't' 0102 0003 fffe
number = Ok(4294967295)
count exactly 2 = Ok(2)
reference = Ok((Thread, Thread(ObjectId(258))))
untagged 99 = Ok((ClassObject, ClassObject(ObjectId(3))))
untagged 83 = Ok((Short, Short(-2)))
at = 15
left = 0
";

#[test]
fn parts_one_after_the_other(rt: HostRuntime) -> Result<(), Fail> {
    check(rt.alloc(), PARTS)
}

// Of the reply to AllThreads, shortened, with its count as the limit asks or not; of the command GetValues and of its
// reply; of the reply to LineTable (JDWP, VirtualMachine command set, AllThreads; ObjectReference command set,
// GetValues; Method command set, LineTable).
const LISTS: &str = "
body 0808020808 00000002 0005 0100
threads exactly 2 = Ok(List { items: [ThreadId(5), ThreadId(256)] })

body 0808080808 00000002 0005 0100
fields at-most 1 = Err(Part(ReadTrouble { fault: BadCount, at: 0 }))

body 0208080808 00000002 0005 0100
fields at-most 2 = Ok(List { items: [FieldId(5), FieldId(256)] })

body 0808010808 00000002 'I' fffffffb 'L' 07
values exactly 2 = Ok(List { items: [Int(-5), Object(ObjectId(7))] })

body 0808080808 00000002 0000000000000000 00000005 0000000000000009 00000100
lines any = Ok(List { items: [Line { index: 0, line: 5 }, Line { index: 9, line: 256 }] })
";

#[test]
fn a_list_stands_behind_its_count(rt: HostRuntime) -> Result<(), Fail> {
    check(rt.alloc(), LISTS)
}

// A public method run, a private final field size, and a variable i of the code from index 2 on, whose length has no
// sign. Names and signatures are printed as their bytes (JDWP, ReferenceType command set, Methods and Fields; Method
// command set, VariableTable).
const MEMBERS: &str = "
body 0803080808 000102 00000003 'run' 00000003 '()V' 00000001
a-method = Ok(Method { id: MethodId(258), name: List { items: [114, 117, 110] }, signature: List { items: [40, 41, 86] }, bits: 1 })
left = 0

body 0108080808 07 00000004 'size' 00000001 'I' 00000012
a-field = Ok(Field { id: FieldId(7), name: List { items: [115, 105, 122, 101] }, signature: List { items: [73] }, bits: 18 })
left = 0

body 0808080808 0000000000000002 00000001 'i' 00000001 'J' ffffffff 00000003
a-variable = Ok(Variable { index: 2, name: List { items: [105] }, signature: List { items: [74] }, length: 4294967295, slot: 3 })
left = 0
";

#[test]
fn members_of_classes_have_ids_names_and_signatures(rt: HostRuntime) -> Result<(), Fail> {
    check(rt.alloc(), MEMBERS)
}

// One modifier of each kind behind the others, of which two have the patterns com.acme.* and *; and a byte of none.
const MODIFIERS: &str = "
body 0101010101 01 00000005 03 07 04 08 05 0000000a 'com.acme.*' 06 00000001 '*' 07 01 09 0a 000000000000000b 08 00 00 01 0a 07 00000001 00000002
a-modifier = (Some(Count), Ok(Count(5)))
a-modifier = (Some(ThreadOnly), Ok(ThreadOnly(ThreadId(7))))
a-modifier = (Some(ClassOnly), Ok(ClassOnly(ClassId(8))))
a-modifier = (Some(ClassMatch), Ok(ClassMatch(List { items: [99, 111, 109, 46, 97, 99, 109, 101, 46, 42] })))
a-modifier = (Some(ClassExclude), Ok(ClassExclude(List { items: [42] })))
a-modifier = (Some(LocationOnly), Ok(LocationOnly(Location { tag: Class, class: ClassId(9), method: MethodId(10), index: 11 })))
a-modifier = (Some(ExceptionOnly), Ok(ExceptionOnly { class: ClassId(0), caught: 0, uncaught: 1 }))
a-modifier = (Some(Step), Ok(Step { thread: ThreadId(7), size: 1, depth: 2 }))
left = 0

body 0101010101 02
a-modifier = (None, Err(Part(ReadTrouble { fault: BadTag, at: 0 })))
";

#[test]
fn modifiers_of_each_kind_are_read(rt: HostRuntime) -> Result<(), Fail> {
    check(rt.alloc(), MODIFIERS)
}
