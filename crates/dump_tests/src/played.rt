//! Dumps of the targets of scripts.
use file_wires::PlayedWires;
use script_files::read_script;
use session_endings::Limits;
use std::alloc::Global;
use std::test::Fail;
use thread_dump::{DumpEnd, dump};
use wire_core::{Blob, Text, Wires};

// A thread that stands in a method with a variable.
const ONE: &str = r#"["script",2]
["sizes",8,8,8,8,8]
["limits",1099511627776,43200000,65536]
["class",1,1,"Lgen/Main;","Main.java",0,true]
["method",1,1,"run","()V",9,0,1,[[0,1]]]
["variable",1,1,0,1,"n","I",0]
["thread",1,"main"]
["frame",1,1,1,1,0,0,[[0,["I",0]]]]
["settle"]
["end"]
"#;

const TEXT_OF_ONE: &str = "thread 1 \"main\"\n  #0 gen.Main.run:1\n    n: int = 0\nend 1\n";

// No thread.
const NONE: &str = r#"["script",2]
["sizes",8,8,8,8,8]
["limits",1099511627776,43200000,65536]
["class",1,1,"Lgen/Main;","Main.java",0,true]
["settle"]
["end"]
"#;

// The stacks of the target of a script.
fn dump_of(alloc: Global, script: &str) -> Result<Result<Blob, DumpEnd>, Fail> {
    let Ok(script) = read_script(alloc, script.as_bytes()) else {
        return Err("no script".into());
    };
    let target = Text::from_str(alloc, "B")?;
    let mut wires = PlayedWires::new(alloc, script)?;
    let dumped = match wires.reach(target) {
        Ok(()) => Some(dump(alloc, &Limits::standard(), &mut wires)),
        Err(_) => None,
    };
    wires.finish();
    Ok(dumped.ok_or("it isn't reached")?)
}

#[test]
fn the_target_of_a_script_is_shown(rt: HostRuntime) -> Result<(), Fail> {
    let alloc = rt.alloc();
    for (script, due) in [(ONE, TEXT_OF_ONE), (NONE, "end 0\n")] {
        let shown = match dump_of(alloc, script)? {
            Ok(text) => text.as_slice() == due.as_bytes(),
            Err(_) => false,
        };
        if !shown {
            return Err(format!(in alloc; "another text than {due}")?.into());
        }
    }
    Ok(())
}
