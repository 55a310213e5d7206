//! A script is printed, and read again.
use printed_scripts::print_script;
use script_files::read_script;
use script_text::{ScriptFault, ScriptTrouble};
use std::alloc::Global;
use std::test::Fail;
use wire_core::Blob;

// A script of the first version, in a spelling of its own: examples/scripts/breakpoint.script.
const SPELLED: &str = r#"["script",1]
["sizes",8,8,8,8,8]
["class",1,1,"Lcom/acme/Foo;","Foo.java",0,true]
["method",1,1,"run","()V",9,0,9,[[0,10],[5,11]]]
["variable",1,1,0,10,"n","I",0]
["thread",1,"main"]
["thread",2,"worker"]
["frame",1,1,1,1,0,0,[[0,["I",5]]]]
["at",1,5,[[0,["I",6]]]]
["death"]
["ask","initialize",{"adapterID":"me"}]
["ask","attach",{"sourceRoots":["/p/src"]}]
["deliver"]
["ask","setBreakpoints",{"source":{"path":"/p/src/com/acme/Foo.java"},"breakpoints":[{"line":11}]}]
["ask","configurationDone",{}]
["settle"]
["ask","threads",{}]
["ask","stackTrace",{"threadId":1}]
["deliver"]
["ask","continue",{"threadId":1}]
["settle"]
["ask","disconnect",{}]
["settle"]
["end"]
"#;

// The same script as it is printed: in the second version, with the limits of a session that serves an editor, and the
// members of an object stand in the order of their names.
const PRINTED: &str = r#"["script",2]
["sizes",8,8,8,8,8]
["limits",1099511627776,43200000,65536]
["class",1,1,"Lcom/acme/Foo;","Foo.java",0,true]
["method",1,1,"run","()V",9,0,9,[[0,10],[5,11]]]
["variable",1,1,0,10,"n","I",0]
["thread",1,"main"]
["thread",2,"worker"]
["frame",1,1,1,1,0,0,[[0,["I",5]]]]
["at",1,5,[[0,["I",6]]]]
["death"]
["ask","initialize",{"adapterID":"me"}]
["ask","attach",{"sourceRoots":["/p/src"]}]
["deliver"]
["ask","setBreakpoints",{"breakpoints":[{"line":11}],"source":{"path":"/p/src/com/acme/Foo.java"}}]
["ask","configurationDone",{}]
["settle"]
["ask","threads",{}]
["ask","stackTrace",{"threadId":1}]
["deliver"]
["ask","continue",{"threadId":1}]
["settle"]
["ask","disconnect",{}]
["settle"]
["end"]
"#;

// A script under its own limits, with values of all kinds: numbers with a sign as they are, of others the bits. Among the
// doubles are one that is no number, and one whose bits are all set.
const VALUES: &str = r#"["script",2]
["sizes",8,8,8,8,8]
["limits",100,2,1]
["class",1,1,"La/Bits;",null,0,true]
["class",2,3,"[D",null,0,true]
["field",1,1,"z","Z",0]
["field",1,2,"b","B",0]
["field",1,3,"c","C",0]
["field",1,4,"s","S",0]
["field",1,5,"i","I",0]
["field",1,6,"j","J",0]
["field",1,7,"f","F",0]
["field",1,8,"l","La/Bits;",0]
["object",1,"L",1]
["array",2,2,[["D","0x0"],["D","0xbff0000000000000"],["D","0x7ff8000000000000"],["D","0xffffffffffffffff"]]]
["put",1,1,["Z","0x1"]]
["put",1,2,["B",-128]]
["put",1,3,["C","0xffff"]]
["put",1,4,["S",32767]]
["put",1,5,["I",-2147483648]]
["put",1,6,["J",9223372036854775807]]
["put",1,7,["F","0x7fc00000"]]
["put",1,8,["L","0x1"]]
["end"]
"#;

// The text of the script that a text spells.
fn printed(alloc: Global, text: &str) -> Result<Blob, Fail> {
    match read_script(alloc, text.as_bytes()) {
        Ok(script) => Ok(print_script(alloc, &script)?),
        Err(_) => Err("the script is refused".into()),
    }
}

#[test]
fn a_script_is_printed_and_read_again(rt: HostRuntime) -> Result<(), Fail> {
    let alloc = rt.alloc();
    for (text, shown) in [(SPELLED, PRINTED), (PRINTED, PRINTED), (VALUES, VALUES)] {
        if printed(alloc, text)?.as_slice() != shown.as_bytes() {
            return Err("another text is printed".into());
        }
    }
    Ok(())
}

// Whether a script with this head and these lines behind its sizes has this fault first, in this line.
fn is_refused(
    alloc: Global,
    head: &str,
    lines: &str,
    line: u32,
    kind: ScriptFault,
) -> Result<bool, Fail> {
    let text = format!(in alloc; "[\"script\",{head}]\n[\"sizes\",8,8,8,8,8]\n{lines}[\"end\"]\n")?;
    match read_script(alloc, text.as_bytes()) {
        Err(
            ScriptTrouble::At {
                line: found,
                kind: fault,
            },
        ) => Ok(found == line && fault == kind),
        _ => Ok(false),
    }
}

#[test]
fn rows_of_the_other_version_are_refused(rt: HostRuntime) -> Result<(), Fail> {
    let alloc = rt.alloc();
    let shape = ScriptFault::BadShape;
    let order = ScriptFault::BadOrder;
    let limits = "[\"limits\",1,1,1]\n";
    let class = "[\"class\",1,3,\"[D\",null,0,true]\n";
    let rows = [
        ("1", limits, "", 3, shape),
        ("2", limits, limits, 4, order),
        ("2", class, limits, 4, order),
        ("2", "[\"limits\",0,1,1]\n", "", 3, shape),
        ("2", "[\"limits\",1099511627777,1,1]\n", "", 3, shape),
        ("1", class, "[\"array\",1,1,[[\"D\",\"0x0\"]]]\n", 4, shape),
        ("2", class, "[\"array\",1,1,[[\"D\",0]]]\n", 4, shape),
        ("2", class, "[\"array\",1,1,[[\"D\",\"0x00\"]]]\n", 4, shape),
        (
            "2",
            class,
            "[\"array\",1,1,[[\"C\",\"0x10000\"]]]\n",
            4,
            shape,
        ),
        ("3", "", "", 1, ScriptFault::BadVersion),
    ];
    for (head, first, second, line, kind) in rows {
        let lines = format!(in alloc; "{first}{second}")?;
        if !is_refused(alloc, head, lines.as_str(), line, kind)? {
            return Err("another fault, or none".into());
        }
    }
    Ok(())
}
