//! The script of a number, as it is printed.
use generated_scripts::generated_script;
use printed_scripts::print_script;
use std::test::Fail;

// That of 1.
const ONE: &str = r#"["script",2]
["sizes",8,8,8,8,8]
["limits",1099511627776,43200000,65536]
["class",1,1,"Lgen/Main;","Main.java",0,true]
["method",1,1,"run","()V",9,0,1,[[0,1]]]
["variable",1,1,0,1,"n","I",0]
["thread",1,"main"]
["frame",1,1,1,1,0,0,[[0,["I",0]]]]
["at",1,0,[[0,["I",1103527590]]]]
["death"]
["ask","initialize",{"adapterID":"gen"}]
["deliver"]
["ask","attach",{"sourceRoots":["/gen"]}]
["deliver"]
["ask","setBreakpoints",{"breakpoints":[{"line":1}],"source":{"path":"/gen/gen/Main.java"}}]
["deliver"]
["ask","configurationDone",{}]
["deliver"]
["settle"]
["ask","threads",{}]
["deliver"]
["ask","stackTrace",{"levels":20,"threadId":1}]
["deliver"]
["ask","scopes",{"frameId":1}]
["deliver"]
["ask","variables",{"variablesReference":2}]
["deliver"]
["ask","continue",{"threadId":1}]
["settle"]
["ask","disconnect",{}]
["settle"]
["end"]
"#;

#[test]
fn the_script_of_one_is_printed(rt: HostRuntime) -> Result<(), Fail> {
    let alloc = rt.alloc();
    let script = generated_script(alloc, 1)?;
    if print_script(alloc, &script)?.as_slice() != ONE.as_bytes() {
        return Err("another script".into());
    }
    Ok(())
}

#[test]
fn the_script_of_the_greatest_number_is_made(rt: HostRuntime) -> Result<(), Fail> {
    let script = generated_script(rt.alloc(), 1000)?;
    assert_eq!(rt; script.program.as_slice().len(), 1001);
    assert_eq!(rt; script.schedule.as_slice().len(), 10_011);
    Ok(())
}
