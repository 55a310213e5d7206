use crate::rows::{bytes_of, cut, expect, five, limit_of, shown};
use jdwp_values::{IdSizes, ReadTrouble, RowFault, ValueFault, lossy};
use std::alloc::Global;
use std::test::Fail;
use wire_core::NoMemory;

fn check_sizes(alloc: Global, rows: &str) -> Result<(), Fail> {
    for row in rows.split('\n') {
        if !row.is_empty() {
            let (sizes, wanted) = cut(row)?;
            let given = shown(alloc, IdSizes::new(five(alloc, sizes)?))?;
            expect(alloc, row, given.as_str(), wanted)?;
        }
    }
    Ok(())
}

// The first size outside 1 to 8 is refused.
const SIZES: &str = "
0506080104 | Ok(IdSizes { field: 5, method: 6, object: 8, class: 1, frame: 4 })
0404080804 | Ok(IdSizes { field: 4, method: 4, object: 8, class: 8, frame: 4 })
0108010801 | Ok(IdSizes { field: 1, method: 8, object: 1, class: 8, frame: 1 })
0808090808 | Err(BadSizes(2))
0008090808 | Err(BadSizes(0))
0808080800 | Err(BadSizes(4))
";

#[test]
fn sizes_of_ids_stand_in_the_order_of_the_reply(rt: HostRuntime) -> Result<(), Fail> {
    check_sizes(rt.alloc(), SIZES)
}

fn check_limits(alloc: Global, rows: &str) -> Result<(), Fail> {
    for row in rows.split('\n') {
        if !row.is_empty() {
            let (limit, rest) = cut(row)?;
            let (count, wanted) = cut(rest)?;
            let given = shown(alloc, limit_of(limit)?.allows(count.parse()?))?;
            expect(alloc, row, given.as_str(), wanted)?;
        }
    }
    Ok(())
}

const LIMITS: &str = "
any | 0 | true
any | 4294967295 | true
exactly 2 | 1 | false
exactly 2 | 2 | true
exactly 2 | 3 | false
at-most 2 | 0 | true
at-most 2 | 2 | true
at-most 2 | 3 | false
never | 0 | false
";

#[test]
fn each_limit_allows_its_counts(rt: HostRuntime) -> Result<(), Fail> {
    check_limits(rt.alloc(), LIMITS)
}

fn check_lossy(alloc: Global, rows: &str) -> Result<(), Fail> {
    for row in rows.split('\n') {
        if !row.is_empty() {
            let (bytes, wanted) = cut(row)?;
            let given = lossy(alloc, bytes_of(alloc, bytes)?.as_slice())?;
            expect(alloc, row, given.as_str(), wanted)?;
        }
    }
    Ok(())
}

// Behind the characters of two and of four bytes: a lone surrogate, an overlong form, a byte of no sequence, and a
// truncated sequence.
const LOSSY: &str = "
|
'main' | main
'caf' c3a9 | caf\u{e9}
f09f9880 '!' | \u{1f600}!
'a' eda080 'z' | a\u{fffd}\u{fffd}\u{fffd}z
c080 c3a9 | \u{fffd}\u{fffd}\u{e9}
ff | \u{fffd}
e282ac e282 | \u{20ac}\u{fffd}\u{fffd}
";

#[test]
fn each_byte_that_begins_no_sequence_is_replaced(rt: HostRuntime) -> Result<(), Fail> {
    check_lossy(rt.alloc(), LOSSY)
}

#[test]
fn a_row_fails_by_want_of_memory_or_by_a_part(rt: HostRuntime) {
    let trouble = ReadTrouble {
        fault: ValueFault::Short,
        at: 3,
    };
    assert_eq!(rt; RowFault::from(NoMemory), RowFault::NoMemory);
    assert_eq!(rt; RowFault::from(trouble), RowFault::Part(trouble));
}
