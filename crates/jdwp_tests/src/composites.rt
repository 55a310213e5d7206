ghost use Rattle.std.specs.Prelude.{◌<◌, ◌^◌, length};
ghost use Rattle.jdwp_events.specs.Composites.{FitsComposite};

use crate::rows::{bytes_of, cut, expect, shown, sizes_of};
use jdwp_events::{Composite, read_composite, write_composite};
use jdwp_values::IdSizes;
use std::alloc::Global;
use std::test::Fail;

// A composite with the kind of its first event.
fn printed(alloc: Global, composite: &Composite) -> Result<String, Fail> {
    let first = composite.events.as_slice().first();
    shown(alloc, (first.map(|event| event.kind()), composite))
}

// A composite that is written with this body, as printed.
fn written_again(
    alloc: Global,
    sizes: IdSizes,
    composite: &Composite,
    body: &[u8],
) -> Result<String, Fail>
    requires { FitsComposite sizes composite.now }
{
    let written = write_composite(alloc, sizes, composite)?;
    if written.as_slice() != body {
        return Err("another body is written".into());
    }
    printed(alloc, composite)
}

// What a body is read as, where a composite is written again as it was.
fn given(alloc: Global, sizes: IdSizes, body: &[u8]) -> Result<String, Fail>
    requires { length body.now < 2 ^ 32 }
{
    match read_composite(alloc, sizes, body) {
        Ok(composite) => {
            let said = written_again(alloc, sizes, &composite, body);
            drop(composite);
            said
        }
        Err(fault) => shown(alloc, fault),
    }
}

fn check(alloc: Global, sizes: IdSizes, rows: &str) -> Result<(), Fail> {
    for row in rows.split('\n') {
        if !row.is_empty() {
            let (body, wanted) = cut(row)?;
            let bytes = bytes_of(alloc, body)?;
            let said = given(alloc, sizes, bytes.as_slice())?;
            expect(alloc, row, said.as_str(), wanted)?;
        }
    }
    Ok(())
}

// The bodies of composites as a HotSpot 17 sent them. The signature Ljava/lang/Package; is printed as its bytes.
const CAPTURED: &str = "
00 00000001 06 00000002 000000000000016d | (Some(ThreadStart), Composite { policy: NoThread, events: List { items: [ThreadStart { request: 2, thread: ThreadId(365) }] } })
00 00000001 07 00000003 00000000000001dc | (Some(ThreadDeath), Composite { policy: NoThread, events: List { items: [ThreadDeath { request: 3, thread: ThreadId(476) }] } })
00 00000001 63 00000000 | (Some(VMDeath), Composite { policy: NoThread, events: List { items: [VMDeath { request: 0 }] } })
02 00000001 5a 00000000 0000000000000001 | (Some(VMStart), Composite { policy: All, events: List { items: [VMStart { request: 0, thread: ThreadId(1) }] } })
02 00000001 01 00000009 0000000000000001 01 000000000000016e 00007fb2f000f978 0000000000000007 | (Some(SingleStep), Composite { policy: All, events: List { items: [SingleStep { request: 9, thread: ThreadId(1), at: Location { tag: Class, class: ClassId(366), method: MethodId(140406507501944), index: 7 } }] } })
02 00000001 02 00000006 0000000000000001 01 000000000000017a 00007f761000fbe0 0000000000000000 | (Some(Breakpoint), Composite { policy: All, events: List { items: [Breakpoint { request: 6, thread: ThreadId(1), at: Location { tag: Class, class: ClassId(378), method: MethodId(140145051368416), index: 0 } }] } })
02 00000001 04 00000004 0000000000000001 01 0000000000000005 00007fdf3813b698 0000000000000008 'L' 000000000000000b 01 0000000000000000 0000000000000000 0000000000000000 | (Some(Exception), Composite { policy: All, events: List { items: [Exception { request: 4, thread: ThreadId(1), at: Location { tag: Class, class: ClassId(5), method: MethodId(140596695250584), index: 8 }, exception: Object(ObjectId(11)), catch: Location { tag: Class, class: ClassId(0), method: MethodId(0), index: 0 } }] } })
02 00000001 08 00000005 0000000000000001 01 0000000000000170 00000013 'Ljava/lang/Package;' 00000003 | (Some(ClassPrepare), Composite { policy: All, events: List { items: [ClassPrepare { request: 5, thread: ThreadId(1), tag: Class, class: ClassId(368), signature: List { items: [76, 106, 97, 118, 97, 47, 108, 97, 110, 103, 47, 80, 97, 99, 107, 97, 103, 101, 59] }, status: 3 }] } })
";

#[test]
fn captured_composites_are_read_and_written_again(rt: HostRuntime) -> Result<(), Fail> {
    check(rt.alloc(), sizes_of(rt.alloc(), "0808080808")?, CAPTURED)
}

// Each body is reckoned by hand; ids take one byte.
const FAULTY: &str = "
| Short { at: 0 }
03 00000000 | BadPolicy { at: 0 }
00 ffffffff | BadCount { at: 1 }
00 00000001 03 | BadKind { at: 5 }
00 00000001 63 0000 | Short { at: 6 }
00 00000001 01 00000001 07 04 | BadTag { at: 11 }
00 00000000 00 | Trailing { at: 5 }
02 00000002 63 00000000 05 | BadKind { at: 10 }
";

#[test]
fn a_fault_stands_at_the_first_part_that_is_wrong(rt: HostRuntime) -> Result<(), Fail> {
    check(rt.alloc(), sizes_of(rt.alloc(), "0101010101")?, FAULTY)
}
