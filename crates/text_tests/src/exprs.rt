use crate::rows::check;
use field_exprs::{Expr, ExprFault, Head, Hop, parse, print};
use std::alloc::Global;
use std::test::Fail;
use wire_core::{List, Text};

const ACCEPTED: &str = "
expr a => a
expr this => this
expr thisX => thisX
expr this.x => this.x
expr a.thisX => a.thisX
expr $x._y => $x._y
expr Az09 => Az09
expr a[3] => a[3]
expr a.b[2].c => a.b[2].c
expr a[1][2] => a[1][2]
expr this[0] => this[0]
expr ␠␉a␠ => a
expr a.b␉␠␉ => a.b
expr x[0000000001].y␠ => x[1].y
expr a[2147483647] => a[2147483647]
expr a[0] => a[0]
expr a[0000000000] => a[0]
expr größe.ß => größe.ß
expr \u{a0}\u{1f600}9 => \u{a0}\u{1f600}9
";

#[test]
fn accepted_texts_are_printed_plainly(rt: HostRuntime) -> Result<(), Fail> {
    check(rt.alloc(), ACCEPTED)
}

const REFUSED: &str = "
expr => At(0)
expr ␠␠ => At(2)
expr 1a => At(0)
expr .a => At(0)
expr [1] => At(0)
expr -a => At(0)
expr a b => At(2)
expr a .b => At(2)
expr a [1] => At(2)
expr this x => At(5)
expr a␊ => At(1)
expr a] => At(1)
expr a-b => At(1)
expr a. => At(2)
expr a..b => At(2)
expr a. b => At(2)
expr a.1 => At(2)
expr a.[0] => At(2)
expr a.this => At(6)
expr a.this.b => At(6)
expr this.this => At(9)
expr a.b ] => At(4)
expr a[1]b => At(4)
expr ß ß => At(3)
";

#[test]
fn other_texts_are_refused_where_they_go_wrong(rt: HostRuntime) -> Result<(), Fail> {
    check(rt.alloc(), REFUSED)
}

const INDEXES: &str = "
expr a[ => At(2)
expr a[] => At(2)
expr a[ 1] => At(2)
expr a[-1] => At(2)
expr a[x] => At(2)
expr a[1 => At(3)
expr a[1x] => At(3)
expr a[1 ] => At(3)
expr a[2147483648] => At(11)
expr a[3000000000] => At(11)
expr a[00000000012] => At(12)
expr a[12345678901] => At(12)
";

#[test]
fn an_index_that_is_none_is_refused_where_it_goes_wrong(rt: HostRuntime) -> Result<(), Fail> {
    check(rt.alloc(), INDEXES)
}

// A name and its fields of so many bytes, with a wrong byte at a place, and what stands behind.
const LONG: &str = "
fields 4095 4095  => read
fields 4095 4095 ␠ => read
fields 4095 4095 ␠␠ => At(4096)
fields 4095 4095 ␠␠x => At(4097)
fields 5000 0  => At(0)
fields 5000 1  => At(1)
fields 5000 2  => At(2)
fields 5000 3  => At(3)
fields 5000 998  => At(998)
fields 5000 999  => At(999)
fields 5000 1000  => At(1000)
fields 5000 2047  => At(2047)
fields 5000 4094  => At(4094)
fields 5000 4095  => At(4095)
fields 5000 4096  => At(4096)
fields 5000 4097  => At(4097)
fields 5000 4998  => At(4998)
fields 5000 4999  => At(4999)
fields 5000 5000  => At(5000)
";

#[test]
fn a_long_text_is_refused_at_its_wrong_byte_or_at_the_limit(rt: HostRuntime) -> Result<(), Fail> {
    check(rt.alloc(), LONG)
}

#[test]
fn an_expression_has_the_parts_of_its_text(rt: HostRuntime) -> Result<(), Fail> {
    let alloc = rt.alloc();
    let expr = parse(alloc, &Text::from_str(alloc, "this.b[20]")?)?;
    assert!(rt; matches!(&expr.head, Head::This));
    let [Hop::Field(name), Hop::Index(index)] = expr.steps.as_slice() else {
        return Err("other steps".into());
    };
    assert_eq!(rt; name.as_str(), "b");
    assert_eq!(rt; *index, 20);
    Ok(())
}

#[test]
fn an_expression_is_printed(rt: HostRuntime) -> Result<(), Fail> {
    let alloc = rt.alloc();
    let mut steps = List::new(alloc);
    steps.push(Hop::Index(7))?;
    let named = Expr {
        head: Head::Name(Text::from_str(alloc, "a")?),
        steps,
    };
    assert_eq!(rt; print(alloc, &named)?.as_str(), "a[7]");
    Ok(())
}

// What a text is read as, printed again, or the place at which it is refused.
pub(crate) fn expr_told(alloc: Global, bytes: &[u8]) -> Result<String, Fail> {
    match parse(alloc, &Text::from_slice(alloc, bytes)?) {
        Ok(expr) => Ok(print(alloc, &expr)?.as_str().to_string(alloc)?),
        Err(fault) => fault_text(alloc, fault),
    }
}

fn fault_text(alloc: Global, fault: ExprFault) -> Result<String, Fail> {
    Ok(format!(in alloc; "{fault:?}")?)
}

pub(crate) fn fields_told(alloc: Global, about: &[u8]) -> Result<String, Fail> {
    let mut words = str::from_utf8(about)?.splitn(3, ' ');
    let len = words.next().ok_or("no length")?;
    let wrong = words.next().ok_or("no place")?;
    let behind = words.next().ok_or("nothing behind")?;
    let mut bytes = fields(alloc, len.parse()?, wrong.parse()?)?;
    bytes.extend_from_slice(behind.as_bytes())?;
    match parse(alloc, &Text::from_slice(alloc, bytes.as_slice())?) {
        Ok(_) => Ok("read".to_string(alloc)?),
        Err(fault) => fault_text(alloc, fault),
    }
}

// A name and as many fields as fit into so many bytes, with a wrong byte at a place.
fn fields(alloc: Global, len: usize, wrong: usize) -> Result<Vec<u8>, Fail> {
    let mut bytes = Vec::new(alloc);
    for place in 0..len {
        let byte = if place % 2 == 0 { b'a' } else { b'.' };
        bytes.push(if place == wrong { b'!' } else { byte })?;
    }
    Ok(bytes)
}
