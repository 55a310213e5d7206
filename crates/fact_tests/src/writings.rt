//! Values that are read from texts.
use crate::rows::{bytes_of, cut, expect, shown};
use std::alloc::Global;
use std::test::Fail;
use value_views::write_value;
use wire_core::Text;

// What is read from a text, by the byte of the kind.
fn read(alloc: Global, kind: u8, text: &str) -> Result<String, Fail> {
    let text = Text::from_str(alloc, text)?;
    shown(alloc, write_value(kind, &text))
}

fn check_row(alloc: Global, kind: &str, row: &str) -> Result<(), Fail> {
    let (text, wanted) = cut(row)?;
    let [byte] = kind.as_bytes() else {
        return Err("no kind".into());
    };
    let given = read(alloc, *byte, text)?;
    expect(alloc, row, given.as_str(), wanted)
}

// Each row has the kind, the text, and what is read.
fn check(alloc: Global, rows: &str) -> Result<(), Fail> {
    for row in rows.split('\n') {
        if !row.is_empty() {
            let (kind, rest) = cut(row)?;
            check_row(alloc, kind, rest)?;
        }
    }
    Ok(())
}

fn check_texts(alloc: Global, kind: u8, texts: &str, wanted: &str) -> Result<(), Fail> {
    for text in texts.split('|') {
        let given = read(alloc, kind, text)?;
        expect(alloc, text, given.as_str(), wanted)?;
    }
    Ok(())
}

// The same is read from each of these texts, for each of these kinds.
fn check_all(alloc: Global, kinds: &str, texts: &str, wanted: &str) -> Result<(), Fail> {
    let bytes = bytes_of(alloc, kinds)?;
    for kind in bytes.as_slice() {
        check_texts(alloc, *kind, texts, wanted)?;
    }
    Ok(())
}

const EDGES: &str = "
B|127|Ok(Byte(127))
B|128|Err(BadText)
B|-128|Ok(Byte(-128))
B|-129|Err(BadText)
S|32767|Ok(Short(32767))
S|32768|Err(BadText)
S|-32768|Ok(Short(-32768))
S|-32769|Err(BadText)
I|2147483647|Ok(Int(2147483647))
I|2147483648|Err(BadText)
I|-2147483648|Ok(Int(-2147483648))
I|-2147483649|Err(BadText)
J|9223372036854775807|Ok(Long(9223372036854775807))
J|9223372036854775808|Err(BadText)
J|-9223372036854775808|Ok(Long(-9223372036854775808))
J|-9223372036854775809|Err(BadText)
J|99999999999999999999|Err(BadText)
";

#[test]
fn numbers_are_read_up_to_the_edges_of_their_kind(rt: HostRuntime) -> Result<(), Fail> {
    check(rt.alloc(), EDGES)
}

const NUMBERS: &str = "
I|0|Ok(Int(0))
I|-0|Ok(Int(0))
I|007|Ok(Int(7))
I|-007|Ok(Int(-7))
I|00000000000000000005|Ok(Int(5))
I|-00000000000000000005|Ok(Int(-5))
";

const NO_NUMBERS: &str = "000000000000000000005|-000000000000000000005||-|--1|+1|-+1| 1|1 |1-|\
    1.0|1e3|0x1f|1_000|x|\u{661}|null|true";

#[test]
fn a_number_is_a_sign_and_digits_alone(rt: HostRuntime) -> Result<(), Fail> {
    check(rt.alloc(), NUMBERS)?;
    check_all(rt.alloc(), "'I'", NO_NUMBERS, "Err(BadText)")
}

const CHARS: &str = r#"
C|'A'|Ok(Char(65))
C|' '|Ok(Char(32))
C|'~'|Ok(Char(126))
C|'"'|Ok(Char(34))
C|'u'|Ok(Char(117))
C|'\''|Ok(Char(39))
C|'\\'|Ok(Char(92))
C|'\u0000'|Ok(Char(0))
C|'\u001f'|Ok(Char(31))
C|'\u000a'|Ok(Char(10))
C|'\u007f'|Ok(Char(127))
C|'\u00e9'|Ok(Char(233))
C|'\ud800'|Ok(Char(55296))
C|'\uffff'|Ok(Char(65535))
"#;

#[test]
fn chars_are_read_as_they_are_shown(rt: HostRuntime) -> Result<(), Fail> {
    check(rt.alloc(), CHARS)
}

const NO_CHARS: &str =
    "|A|'|''|'''|'\\'|'A|A'|'AB'|\"A\"| 'A'|'A' |'\\n'|'\\\"'|'\\u'|'\\u41'|'\\u0041'|\
    '\\u0027'|'\\u007e'|'\\u0020'|'\\u00E9'|'\\U00e9'|'\\u00e9f'|'\\u00g9'|'\\uu00e9'|\
    'é'|'\u{1f}'|'\u{7f}'|65|null";

#[test]
fn chars_are_read_in_no_other_way(rt: HostRuntime) -> Result<(), Fail> {
    check_all(rt.alloc(), "'C'", NO_CHARS, "Err(BadText)")
}

const TRUTH: &str = "
Z|true|Ok(Boolean(1))
Z|false|Ok(Boolean(0))
";

#[test]
fn truth_values_are_read_by_their_words(rt: HostRuntime) -> Result<(), Fail> {
    let others = "True|true |tru|falsey|1|0|";
    check(rt.alloc(), TRUTH)?;
    check_all(rt.alloc(), "'Z'", others, "Err(BadText)")
}

const NULLS: &str = "
L|null|Ok(Object(ObjectId(0)))
[|null|Ok(Array(ObjectId(0)))
s|null|Ok(String(ObjectId(0)))
t|null|Ok(Thread(ObjectId(0)))
g|null|Ok(ThreadGroup(ObjectId(0)))
l|null|Ok(ClassLoader(ObjectId(0)))
c|null|Ok(ClassObject(ObjectId(0)))
";

#[test]
fn null_alone_is_read_as_a_reference(rt: HostRuntime) -> Result<(), Fail> {
    let others = "|Null|null |nul|0|\"null\"|com.acme.Foo@1f";
    check(rt.alloc(), NULLS)?;
    check_all(rt.alloc(), "'L[stglc'", others, "Err(BadText)")
}

#[test]
fn values_of_other_kinds_are_not_written(rt: HostRuntime) -> Result<(), Fail> {
    let texts = "1|void|null|true|float:0x7fc00000|";
    check_all(rt.alloc(), "'FDV' 00 'QXbiT' ff", texts, "Err(NotWritable)")
}
