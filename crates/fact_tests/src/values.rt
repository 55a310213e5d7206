//! Values that are shown as texts.
use crate::rows::{bytes_of, cut, expect, head};
use jdwp_values::{IdSizes, Reader, Value};
use std::alloc::Global;
use std::test::Fail;
use value_views::{Known, value_text};
use wire_core::Text;

// The value of a kind that stands in these bytes, with ids of eight.
fn value_of(alloc: Global, kind: &str, digits: &str) -> Result<Value, Fail> {
    let [byte] = kind.as_bytes() else {
        return Err("no kind".into());
    };
    let bytes = bytes_of(alloc, digits)?;
    let sizes = IdSizes::new([8, 8, 8, 8, 8])?;
    Ok(Reader::new(bytes.as_slice(), sizes).untagged(*byte)?)
}

// `plain`; `object` and its class; `array`, its length and its class; `string` and its bytes.
fn known_of(alloc: Global, words: &str) -> Result<Known, Fail> {
    let (word, rest) = head(words);
    match word {
        "plain" => Ok(Known::Plain),
        "object" => Ok(Known::Object {
            signature: bytes_of(alloc, rest)?,
        }),
        "array" => {
            let (length, class) = head(rest);
            Ok(Known::Array {
                signature: bytes_of(alloc, class)?,
                length: length.parse()?,
            })
        }
        "string" => Ok(Known::Text(bytes_of(alloc, rest)?)),
        _ => Err("nothing that may be known".into()),
    }
}

fn text_of(alloc: Global, value: Value, known: &str) -> Result<Text, Fail> {
    let known = known_of(alloc, known)?;
    let text = value_text(alloc, &value, &known);
    drop(known);
    Ok(text?)
}

fn check_row(alloc: Global, row: &str) -> Result<(), Fail> {
    let (kind, rest) = cut(row)?;
    let (digits, rest) = cut(rest)?;
    let (known, wanted) = cut(rest)?;
    let given = text_of(alloc, value_of(alloc, kind, digits)?, known)?;
    expect(alloc, row, given.as_str(), wanted)
}

// Each row has a value's kind and its bytes, what is known of it, and what is shown.
fn check(alloc: Global, rows: &str) -> Result<(), Fail> {
    for row in rows.split('\n') {
        if !row.is_empty() {
            check_row(alloc, row)?;
        }
    }
    Ok(())
}

const NUMBERS: &str = "
B|80|plain|-128
B|7f|plain|127
S|8000|plain|-32768
S|7fff|plain|32767
I|00000000|plain|0
I|fffffffb|plain|-5
I|80000000|plain|-2147483648
I|7fffffff|plain|2147483647
J|8000000000000000|plain|-9223372036854775808
J|7fffffffffffffff|plain|9223372036854775807
J|000000000000000a|plain|10
";

#[test]
fn numbers_are_shown_in_decimal(rt: HostRuntime) -> Result<(), Fail> {
    check(rt.alloc(), NUMBERS)
}

const BITS_AND_WORDS: &str = "
Z|00|plain|false
Z|01|plain|true
Z|ff|plain|true
V||plain|void
F|7fc00000|plain|float:0x7fc00000
F|00000000|plain|float:0x00000000
F|00abcdef|plain|float:0x00abcdef
F|ffffffff|plain|float:0xffffffff
D|0000000000000001|plain|double:0x0000000000000001
D|3ff0000000000000|plain|double:0x3ff0000000000000
D|ffffffffffffffff|plain|double:0xffffffffffffffff
";

#[test]
fn bits_and_words_are_shown_of_other_values(rt: HostRuntime) -> Result<(), Fail> {
    check(rt.alloc(), BITS_AND_WORDS)
}

const CHARS: &str = r#"
C|0041|plain|'A'
C|0020|plain|' '
C|007e|plain|'~'
C|0022|plain|'"'
C|0027|plain|'\''
C|005c|plain|'\\'
C|0000|plain|'\u0000'
C|000a|plain|'\u000a'
C|001f|plain|'\u001f'
C|007f|plain|'\u007f'
C|00e9|plain|'\u00e9'
C|20ac|plain|'\u20ac'
C|d800|plain|'\ud800'
C|ffff|plain|'\uffff'
"#;

#[test]
fn chars_are_shown_in_quotes(rt: HostRuntime) -> Result<(), Fail> {
    check(rt.alloc(), CHARS)
}

const OBJECTS: &str = "
L|000000000000001f|object 'Lcom/acme/Foo;'|com.acme.Foo@1f
t|0000000000000001|object 'Ljava/lang/Thread;'|java.lang.Thread@1
g|0000000000000010|object 'LG;'|G@10
l|0000000000000abc|object 'Lapp/Loader;'|app.Loader@abc
c|0000000000000009|object 'Ljava/lang/Class;'|java.lang.Class@9
L|ffffffffffffffff|object 'LA;'|A@ffffffffffffffff
";

#[test]
fn objects_are_shown_by_class_and_id(rt: HostRuntime) -> Result<(), Fail> {
    check(rt.alloc(), OBJECTS)
}

// Hidden classes, a name past ASCII, an ill-formed one, and none; then signatures that no object's class has, and a
// class that is not known.
const ANY_CLASS: &str = "
L|000000000000001f|object 'La/F$$Lambda.0x7f5c;'|a.F$$Lambda.0x7f5c@1f
L|000000000000001f|object 'La/Proxy$1/0x00c0;'|a.Proxy$1.0x00c0@1f
L|000000000000001f|object 'Lgr' c3b6 c39f 'e/A;'|größe.A@1f
L|000000000000001f|object 'LA' ff ';'|A\u{fffd}@1f
L|000000000000001f|object 'L;'|@1f
L|000000000000001f|object|@1f
L|000000000000001f|object '[[I'|int[][]@1f
L|000000000000001f|object 'V'|void@1f
L|000000000000001f|object 'X'|X@1f
L|000000000000001f|plain|@1f
";

#[test]
fn an_object_of_any_class_is_shown(rt: HostRuntime) -> Result<(), Fail> {
    check(rt.alloc(), ANY_CLASS)
}

// The last eight are classes that no array has.
const ARRAYS: &str = "
[|0000000000000007|array 0 '[I'|int[0]
[|0000000000000007|array 3 '[[I'|int[3][]
[|0000000000000007|array 12 '[Lcom/acme/Foo;'|com.acme.Foo[12]
[|0000000000000007|array 2147483647 '[[[Ljava/lang/String;'|java.lang.String[2147483647][][]
[|0000000000000007|array 1 '['|[1]
[|0000000000000007|array 3|[3]
[|0000000000000007|array 3 'I'|int[3]
[|0000000000000007|array 3 'Lcom/acme/Foo;'|com.acme.Foo[3]
[|0000000000000007|array 3 'L[;'|[[3]
[|0000000000000007|array 3 'La[b]c;'|a[b]c[3]
[|0000000000000007|array 3 '[La[b[];'|a[b[3][]
[|0000000000000007|array 3 ff|\u{fffd}[3]
";

#[test]
fn arrays_are_shown_with_their_length(rt: HostRuntime) -> Result<(), Fail> {
    check(rt.alloc(), ARRAYS)
}

const STRINGS: &str = "
s|0000000000000007|string|\"\"
s|0000000000000007|string 'a' 22 'b'|\"a\\\"b\"
s|0000000000000007|string 'null'|\"null\"
s|0000000000000007|string ff 0a|\"\u{fffd}\\n\"
s|0000000000000000|string|null
s|0000000000000000|string 'a' 22 'b'|null
s|0000000000000000|string 'null'|null
s|0000000000000000|string ff 0a|null
L|0000000000000000|plain|null
[|0000000000000000|plain|null
s|0000000000000000|plain|null
t|0000000000000000|plain|null
g|0000000000000000|plain|null
l|0000000000000000|plain|null
c|0000000000000000|plain|null
";

#[test]
fn strings_are_shown_in_quotes_and_nothing_as_null(rt: HostRuntime) -> Result<(), Fail> {
    check(rt.alloc(), STRINGS)
}
