use crate::courses::check;
use std::test::Fail;

// The classes Foo, Object and int[]; of Foo a method with lines, a native one and one whose lines are not known. An object
// with the value of a field, an array and a string; and a thread with a frame.
const WORLD: &str = "
sizes 8 8 8 8 4
class 1 1 LFoo; Foo.java 2 true
class 2 1 LO; - 0 false
class 3 3 [I - 2 false
method 1 7 r ()V 9 0 9 0:10 5:11
method 1 8 r ()V 9 -1 9 -
method 1 9 r ()V 9 0 9 -
variable 1 7 n I 0 10 1
field 1 28 f I 2
field 2 29 f LFoo; 0
field 1 2a f I 8
object a 1
array b 3 I7 I8
string c 2 hi
put a 28 I5
thread 14 main
frame 14 1e 1 7 6 a 1:I3
";

const CLASSES: &str = "
1.7 => says Answer(IdSizes { field: 8, method: 8, object: 8, class: 8, frame: 4 })
2.1 0000000000000003 => says Answer(Signature(List { items: [91, 73] }))
2.1 0000000000000009 => says Error(21)
2.4 0000000000000000 => says Answer(Fields(List { items: [] }))
2.4 0000000000000009 => says Error(21)
2.5 0000000000000000 => says Error(21)
2.7 0000000000000001 => says Answer(SourceFile(List { items: [70, 111, 111, 46, 106, 97, 118, 97] }))
2.7 0000000000000002 => says Error(101)
2.7 0000000000000000 => says Error(21)
3.1 0000000000000001 => says Answer(Superclass(ClassId(2)))
3.1 0000000000000000 => says Answer(Superclass(ClassId(0)))
3.1 0000000000000009 => says Error(21)
";

#[test]
fn classes_are_told(rt: HostRuntime) -> Result<(), Fail> {
    check(rt.alloc(), WORLD, CLASSES)
}

const METHODS: &str = "
6.1 0000000000000001 0000000000000007 => says Answer(LineTable(LineTable { start: 0, end: 9, lines: List { items: [Line { index: 0, line: 10 }, Line { index: 5, line: 11 }] } }))
6.1 0000000000000001 0000000000000008 => says Answer(LineTable(LineTable { start: -1, end: -1, lines: List { items: [] } }))
6.1 0000000000000001 0000000000000009 => says Error(101)
6.1 0000000000000001 0000000000000006 => says Error(99)
6.1 0000000000000009 0000000000000007 => says Error(21)
";

#[test]
fn methods_are_told(rt: HostRuntime) -> Result<(), Fail> {
    check(rt.alloc(), WORLD, METHODS)
}

const OBJECTS: &str = "
9.1 000000000000000a => says Answer(ObjectType { tag: Class, class: ClassId(1) })
9.1 0000000000000014 => says Answer(ObjectType { tag: Class, class: ClassId(0) })
9.1 0000000000000062 => says Error(20)
10.1 000000000000000c => says Answer(StringValue(List { items: [104, 105] }))
10.1 000000000000000a => says Error(99)
10.1 0000000000000062 => says Error(20)
13.1 000000000000000b => says Answer(ArrayLength(2))
13.2 000000000000000b 00000001 00000001 => says Answer(GetElements(Region { tag: Int, values: List { items: [Int(8)] } }))
13.2 000000000000000b 00000001 00000002 => says Error(99)
";

#[test]
fn objects_are_told(rt: HostRuntime) -> Result<(), Fail> {
    check(rt.alloc(), WORLD, OBJECTS)
}

const FRAMES: &str = "
11.6 0000000000000014 00000000 ffffffff => says Answer(Frames(List { items: [Frame { id: FrameId(30), at: Location { tag: Class, class: ClassId(1), method: MethodId(7), index: 6 } }] }))
11.6 0000000000000014 00000001 00000005 => says Answer(Frames(List { items: [] }))
11.6 0000000000000014 00000002 00000001 => says Error(99)
11.6 000000000000000a 00000000 ffffffff => says Error(10)
1.9 => says Answer(Resume)
11.6 0000000000000014 00000000 ffffffff => says Error(99)
11.6 0000000000000014 00000001 00000005 => says Error(99)
11.6 0000000000000014 00000002 00000001 => says Error(99)
11.6 000000000000000a 00000000 ffffffff => says Error(10)
";

#[test]
fn frames_are_told_while_the_target_is_suspended(rt: HostRuntime) -> Result<(), Fail> {
    check(rt.alloc(), WORLD, FRAMES)
}

const SLOTS: &str = "
16.2 0000000000000014 0000001e 00000001 00000001 49 00000009 => says Answer(SetSlot)
16.2 0000000000000014 0000001e 00000001 00000001 4a 0000000000000009 => says Error(99)
16.2 0000000000000014 0000001e 00000001 00000002 49 00000009 => says Error(99)
16.2 000000000000000a 0000001e 00000001 00000001 49 00000009 => says Error(10)
16.1 0000000000000014 0000001e 00000001 00000001 49 => says Answer(GetSlots(List { items: [Int(9)] }))
";

#[test]
fn a_slot_keeps_its_kind(rt: HostRuntime) -> Result<(), Fail> {
    check(rt.alloc(), WORLD, SLOTS)
}

const FIELDS: &str = "
9.3 000000000000000a 00000001 0000000000000028 00000100 => says Answer(SetField)
9.2 000000000000000a 00000001 0000000000000028 => says Answer(GetFields(List { items: [Int(256)] }))
9.3 000000000000000a 00000001 0000000000000028 000001 => says Error(99)
9.2 000000000000000a 00000001 0000000000000028 => says Answer(GetFields(List { items: [Int(256)] }))
9.3 000000000000000a 00000001 0000000000000029 0000000000000062 => says Error(20)
9.2 000000000000000a 00000001 0000000000000029 => says Answer(GetFields(List { items: [Object(ObjectId(0))] }))
9.3 000000000000000a 00000001 0000000000000029 000000000000000c => says Answer(SetField)
9.2 000000000000000a 00000001 0000000000000029 => says Answer(GetFields(List { items: [String(ObjectId(12))] }))
9.3 000000000000000a 00000001 000000000000002a 00000001 => says Error(99)
9.2 000000000000000a 00000001 000000000000002a => says Error(99)
";

#[test]
fn a_field_gets_values_of_its_kind(rt: HostRuntime) -> Result<(), Fail> {
    check(rt.alloc(), WORLD, FIELDS)
}

const ELEMENTS: &str = "
13.3 000000000000000b 00000001 00000001 00000002 => says Answer(SetElement)
13.3 000000000000000b 00000002 00000001 00000002 => says Error(99)
13.3 000000000000000b ffffffff 00000001 00000002 => says Error(99)
13.3 000000000000000b 00000000 00000001 0002 => says Error(99)
13.2 000000000000000b 00000000 00000002 => says Answer(GetElements(Region { tag: Int, values: List { items: [Int(7), Int(2)] } }))
";

#[test]
fn an_element_gets_values_of_its_kind(rt: HostRuntime) -> Result<(), Fail> {
    check(rt.alloc(), WORLD, ELEMENTS)
}

const REQUESTS: &str = "
15.1 02 02 00000001 07 01 0000000000000001 0000000000000007 0000000000000005 => says Answer(Set(1))
15.1 02 00 00000001 07 01 0000000000000001 0000000000000007 0000000000000005 => says Error(99)
15.1 02 02 00000001 07 01 0000000000000001 0000000000000006 0000000000000005 => says Error(99)
15.1 02 02 00000001 0a 0000000000000014 00000001 00000001 => says Error(99)
15.1 01 02 00000001 0a 0000000000000014 00000001 00000001 => says Answer(Set(2))
15.1 01 02 00000001 0a 0000000000000014 00000000 00000001 => says Error(99)
15.1 01 02 00000001 0a 000000000000000a 00000001 00000001 => says Error(10)
15.1 06 00 00000000 => says Answer(Set(3))
15.1 06 02 00000000 => says Error(99)
15.1 5a 00 00000000 => says Error(99)
starts => [StepStart { request: 2, frames: 1, line: Some(11) }]
stands => 1 3 false
";

#[test]
fn requests_of_wishes_are_installed(rt: HostRuntime) -> Result<(), Fail> {
    check(rt.alloc(), WORLD, REQUESTS)
}

const SUSPENSIONS: &str = "
15.1 02 02 00000001 07 01 0000000000000001 0000000000000007 0000000000000005 => says Answer(Set(1))
1.8 => says Answer(Suspend)
stands => 2 1 false
15.2 06 00000001 => says Answer(Clear)
stands => 2 1 false
1.9 => says Answer(Resume)
stands => 1 1 false
15.2 02 00000001 => says Answer(Clear)
stands => 1 0 false
1.6 => says Answer(Dispose)
stands => 0 0 false
1.9 => says Answer(Resume)
stands => 0 0 false
1.10 00000001 => says Answer(Exit)
stands => 0 0 true
1.8 => says Error(112)
stands => 0 0 true
";

#[test]
fn suspensions_and_requests_come_and_go(rt: HostRuntime) -> Result<(), Fail> {
    check(rt.alloc(), WORLD, SUSPENSIONS)
}
