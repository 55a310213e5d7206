//! Lines of the schedule.
ghost use Rattle.std.specs.Prelude.{◌≡◌, ◌∷◌, [], OnOk};
ghost use Rattle.script_rows.specs.Plain.{IsPlainTurn};
ghost use Rattle.script_rows.specs.Printing.{named, turn_data};
ghost use Rattle.script_rows.specs.Rows.{serve_parts};
ghost use Rattle.line_elements.specs.Values.{array_of};
ghost use Rattle.script_rows.specs.declared.script.Turn.TheVariants as turns;

use crate::elements::Elements;
use crate::lines::ScriptRow;
use crate::parts::side_name;
use line_elements::Arguments;
use script_rows::Turn;
use wire_core::{NoMemory, Text};

impl ScriptRow for Turn {
    ghost use Rattle.script_rows.specs.declared.rows.Row.TheVariants as rows;

    ghost row_of = { rows.Turn };

    fn say(&self, line: &mut Elements) -> Result<(), NoMemory> {
        say_turn(line, self)
    }
}

fn say_turn(line: &mut Elements, row: &Turn) -> Result<(), NoMemory>
    requires { line.old ≡ [] }
    ensures value { OnOk result (array_of line.new ≡ turn_data row.now) }
    ensures plain { OnOk result (IsPlainTurn row.now) }
{
    match row {
        Turn::Ask { command, arguments } => say_ask(line, command, arguments),
        Turn::Client(count) => say_count(line, "client", *count),
        Turn::Target(count) => say_count(line, "target", *count),
        Turn::Serve(place) => say_count(line, "serve", *place),
        Turn::Move => line.word("move"),
        Turn::Settle => line.word("settle"),
        Turn::Deliver => line.word("deliver"),
        Turn::Shut(side) => {
            line.word("shut")?;
            line.word(side_name(*side))
        }
    }
}

fn say_ask(line: &mut Elements, command: &Text, arguments: &Arguments) -> Result<(), NoMemory>
    requires { line.old ≡ [] }
    ensures value { OnOk result (array_of line.new ≡ turn_data (turns.Ask command.now arguments.now)) }
    ensures plain { OnOk result (IsPlainTurn (turns.Ask command.now arguments.now)) }
{
    line.word("ask")?;
    line.word(command.as_str())?;
    line.arguments(arguments)
}

fn say_count(line: &mut Elements, name: &str, count: u32) -> Result<(), NoMemory>
    requires { line.old ≡ [] }
    ensures { OnOk result (array_of line.new ≡ named name.now serve_parts (count, tt)) }
{
    line.word(name)?;
    line.natural(u64::from(count))
}
