//! What is done in a generated session.
ghost use Rattle.std.specs.Prelude.{◌≡◌, ◌≤◌, ◌+◌, ◌++◌, Some, OnOk, IfOk};
ghost use Rattle.line_elements.specs.Values.{arguments_of};
ghost use Rattle.serde_json.specs.View.{view};
ghost use Rattle.generated_scripts.specs.Numbers.{for_each_to};
ghost use Rattle.generated_scripts.specs.Turns.{ask, ask_on, looking, opening, turns};

use crate::arguments::{
    arguments_of, attach_value, breakpoints_value, initialize_value, nothing, one_number,
    stack_value,
};
use script_rows::Turn;
use serde_json::Value;
use std::alloc::Global;
use wire_core::{List, NoMemory, Text};

/// All of the session: the editor attaches, looks at each stop, and disconnects.
pub(crate) fn turns(alloc: Global, number: u32) -> Result<List<Turn>, NoMemory>
    requires { number ≤ 1000 }
    ensures { IfOk result (λ list. list ≡ turns number) }
{
    let mut list = List::new(alloc);
    open(alloc, &mut list, number)?;
    look_at_all(alloc, &mut list, number)?;
    ask_on(alloc, &mut list, "disconnect", nothing(alloc))?;
    Ok(list)
}

// The editor attaches and sets breakpoints, and the target runs to the first.
fn open(alloc: Global, list: &mut List<Turn>, number: u32) -> Result<(), NoMemory>
    ensures { OnOk result (list.new ≡ list.old ++ opening number) }
{
    ask(alloc, list, "initialize", initialize_value(alloc)?)?;
    ask(alloc, list, "attach", attach_value(alloc)?)?;
    ask(
        alloc,
        list,
        "setBreakpoints",
        breakpoints_value(alloc, number)?,
    )?;
    ask(alloc, list, "configurationDone", nothing(alloc))?;
    list.push(Turn::Settle)?;
    Ok(())
}

fn look_at_all(alloc: Global, list: &mut List<Turn>, number: u32) -> Result<(), NoMemory>
    requires { number ≤ 1000 }
    ensures { OnOk result (list.new ≡ list.old ++ for_each_to looking number) }
{
    for i in 0..number {
        look(alloc, list, i)?;
    }
    Ok(())
}

// At the stop behind so many others the editor looks at the innermost frame, and lets the target run on.
fn look(alloc: Global, list: &mut List<Turn>, before: u32) -> Result<(), NoMemory>
    requires { before ≤ 1000 }
    ensures { OnOk result (list.new ≡ list.old ++ looking (before + 1)) }
{
    ask(alloc, list, "threads", nothing(alloc))?;
    ask(alloc, list, "stackTrace", stack_value(alloc)?)?;
    ask(
        alloc,
        list,
        "scopes",
        one_number(alloc, "frameId", before * 2 + 1)?,
    )?;
    ask(
        alloc,
        list,
        "variables",
        one_number(alloc, "variablesReference", before * 2 + 2)?,
    )?;
    ask_on(alloc, list, "continue", one_number(alloc, "threadId", 1)?)?;
    Ok(())
}

// A request, and all that comes of it while the target stands still.
fn ask(alloc: Global, list: &mut List<Turn>, command: &str, value: Value) -> Result<(), NoMemory>
    requires { arguments_of (view value) ≡ Some (view value) }
    ensures { OnOk result (list.new ≡ list.old ++ ask command.now (view value)) }
{
    list.push(Turn::Ask {
        command: Text::from_str(alloc, command)?,
        arguments: arguments_of(value)?,
    })?;
    list.push(Turn::Deliver)
}

// A request, and all that comes of it.
fn ask_on(alloc: Global, list: &mut List<Turn>, command: &str, value: Value) -> Result<(), NoMemory>
    requires { arguments_of (view value) ≡ Some (view value) }
    ensures { OnOk result (list.new ≡ list.old ++ ask_on command.now (view value)) }
{
    list.push(Turn::Ask {
        command: Text::from_str(alloc, command)?,
        arguments: arguments_of(value)?,
    })?;
    list.push(Turn::Settle)
}
