//! What rows make of a script, line by line.
ghost use Rattle.std.specs.Prelude.{◌≡◌, OnOk, Ok};
ghost use Rattle.script_rows.specs.declared.rows.Row.TheVariants as rows;
ghost use Rattle.target_scripts.specs.Adding.{in_world, limited, made, added, grown, begun, IsGrown, IsMade};

use crate::building::{Building, RowTrouble};
use crate::judging::fault_of;
use jdwp_values::IdSizes;
use script_rows::{Row, Script, Turn};
use script_text::ScriptFault;
use script_worlds::{
    array_copy, class_copy, empty_world, field_copy, frame_copy, method_copy, string_copy,
    thread_copy, variable_copy,
};
use std::alloc::Global;
use wire_core::{List, NoMemory};
use world_model::{
    Move, MoveTrouble, Put, World, WorldArray, WorldClass, WorldField, WorldFrame, WorldMethod,
    WorldObject, WorldString, WorldThread, WorldVariable,
};

/// A script of which nothing was said but how many bytes ids take, under the usual limits. It takes no memory.
pub fn begun(alloc: Global, sizes: IdSizes) -> Building
    ensures { result ≡ begun sizes }
{
    let script = Script {
        world: empty_world(alloc, sizes),
        program: List::new(alloc),
        begin: None,
        schedule: List::new(alloc),
        turns: 1_099_511_627_776,
        quiet: 43_200_000,
        waiting: 65_536,
    };
    Building {
        last: 0,
        first_class: 3,
        script,
        running: empty_world(alloc, sizes),
    }
}

#[tactic(auto, unfolding(crate::specs::Adding::limited))]
fn limit(building: &mut Building, turns: u64, quiet: u64, waiting: u32)
    ensures { building.new ≡ limited building.old turns quiet waiting }
{
    building.last = 1;
    building.first_class = 4;
    building.script.turns = turns;
    building.script.quiet = quiet;
    building.script.waiting = waiting;
}

#[tactic(auto, unfolding(crate::specs::Adding::in_world))]
fn add_class(alloc: Global, building: &mut Building, row: WorldClass) -> Result<(), NoMemory>
    ensures { OnOk result (building.new ≡ in_world building.old (rows.Class row)) }
{
    building.last = 2;
    building.running.classes.push(class_copy(alloc, &row)?)?;
    building.script.world.classes.push(row)
}

#[tactic(auto, unfolding(crate::specs::Adding::in_world))]
fn add_method(alloc: Global, building: &mut Building, row: WorldMethod) -> Result<(), NoMemory>
    ensures { OnOk result (building.new ≡ in_world building.old (rows.Method row)) }
{
    building.last = 3;
    building.running.methods.push(method_copy(alloc, &row)?)?;
    building.script.world.methods.push(row)
}

#[tactic(auto, unfolding(crate::specs::Adding::in_world))]
fn add_variable(alloc: Global, building: &mut Building, row: WorldVariable) -> Result<(), NoMemory>
    ensures { OnOk result (building.new ≡ in_world building.old (rows.Variable row)) }
{
    building.last = 4;
    building
        .running
        .variables
        .push(variable_copy(alloc, &row)?)?;
    building.script.world.variables.push(row)
}

#[tactic(auto, unfolding(crate::specs::Adding::in_world))]
fn add_field(alloc: Global, building: &mut Building, row: WorldField) -> Result<(), NoMemory>
    ensures { OnOk result (building.new ≡ in_world building.old (rows.Field row)) }
{
    building.last = 5;
    building.running.fields.push(field_copy(alloc, &row)?)?;
    building.script.world.fields.push(row)
}

#[tactic(auto, unfolding(crate::specs::Adding::in_world))]
fn add_object(building: &mut Building, row: WorldObject) -> Result<(), NoMemory>
    ensures { OnOk result (building.new ≡ in_world building.old (rows.Object row)) }
{
    building.last = 6;
    building.running.objects.push(row)?;
    building.script.world.objects.push(row)
}

#[tactic(auto, unfolding(crate::specs::Adding::in_world))]
fn add_array(alloc: Global, building: &mut Building, row: WorldArray) -> Result<(), NoMemory>
    ensures { OnOk result (building.new ≡ in_world building.old (rows.Array row)) }
{
    building.last = 7;
    building.running.arrays.push(array_copy(alloc, &row)?)?;
    building.script.world.arrays.push(row)
}

#[tactic(auto, unfolding(crate::specs::Adding::in_world))]
fn add_string(alloc: Global, building: &mut Building, row: WorldString) -> Result<(), NoMemory>
    ensures { OnOk result (building.new ≡ in_world building.old (rows.Text row)) }
{
    building.last = 8;
    building.running.strings.push(string_copy(alloc, &row)?)?;
    building.script.world.strings.push(row)
}

#[tactic(auto, unfolding(crate::specs::Adding::in_world))]
fn add_put(building: &mut Building, row: Put) -> Result<(), NoMemory>
    ensures { OnOk result (building.new ≡ in_world building.old (rows.Put row)) }
{
    building.last = 9;
    building.running.puts.push(row)?;
    building.script.world.puts.push(row)
}

#[tactic(auto, unfolding(crate::specs::Adding::in_world))]
fn add_thread(alloc: Global, building: &mut Building, row: WorldThread) -> Result<(), NoMemory>
    ensures { OnOk result (building.new ≡ in_world building.old (rows.Thread row)) }
{
    building.last = 10;
    building.running.threads.push(thread_copy(alloc, &row)?)?;
    building.script.world.threads.push(row)
}

#[tactic(auto, unfolding(crate::specs::Adding::in_world))]
fn add_frame(alloc: Global, building: &mut Building, row: WorldFrame) -> Result<(), NoMemory>
    ensures { OnOk result (building.new ≡ in_world building.old (rows.Frame row)) }
{
    building.last = 11;
    building.running.frames.push(frame_copy(alloc, &row)?)?;
    building.script.world.frames.push(row)
}

// Makes a move, where it can be made.
#[tactic(auto, unfolding(crate::specs::Adding::made))]
fn make_move(alloc: Global, world: &mut World, next: &Move) -> Result<(), RowTrouble>
    ensures { IsMade world.old world.new result (made world.old next.now) }
{
    match world.make_move(alloc, next) {
        Ok(_) => Ok(()),
        Err(MoveTrouble::NoMemory) => Err(RowTrouble::NoMemory),
        Err(MoveTrouble::Ended) => Err(RowTrouble::Fault(ScriptFault::BadMove)),
        Err(MoveTrouble::Held) => Err(RowTrouble::Fault(ScriptFault::BadMove)),
        Err(MoveTrouble::BadMove) => Err(RowTrouble::Fault(ScriptFault::BadMove)),
    }
}

#[tactic(auto, unfolding(crate::specs::Adding::added))]
fn add_move(alloc: Global, building: &mut Building, row: Move) -> Result<(), RowTrouble>
    ensures { IsGrown building.old building.new result (added building.old (rows.Move row)) }
{
    make_move(alloc, &mut building.running, &row)?;
    building.last = 13;
    building.script.program.push(row)?;
    Ok(())
}

#[tactic(auto, unfolding(crate::specs::Adding::added))]
fn add_turn(building: &mut Building, turn: Turn) -> Result<(), NoMemory>
    ensures { OnOk result (added building.old (rows.Turn turn) ≡ Ok building.new) }
{
    building.last = 14;
    building.script.schedule.push(turn)
}

// Adds a row that has no other fault than that it is a move that can't be made.
#[tactic(auto, unfolding(crate::specs::Adding::added))]
fn add(alloc: Global, building: &mut Building, row: Row) -> Result<(), RowTrouble>
    ensures { IsGrown building.old building.new result (added building.old row) }
{
    match row {
        Row::Head { .. } => {
            building.last = 0;
            Ok(())
        }
        Row::Sizes(_) => {
            building.last = 0;
            Ok(())
        }
        Row::Limits {
            turns,
            quiet,
            waiting,
        } => {
            limit(building, turns, quiet, waiting);
            Ok(())
        }
        Row::Class(row) => Ok(add_class(alloc, building, row)?),
        Row::Method(row) => Ok(add_method(alloc, building, row)?),
        Row::Variable(row) => Ok(add_variable(alloc, building, row)?),
        Row::Field(row) => Ok(add_field(alloc, building, row)?),
        Row::Object(row) => Ok(add_object(building, row)?),
        Row::Array(row) => Ok(add_array(alloc, building, row)?),
        Row::Text(row) => Ok(add_string(alloc, building, row)?),
        Row::Put(row) => Ok(add_put(building, row)?),
        Row::Thread(row) => Ok(add_thread(alloc, building, row)?),
        Row::Frame(row) => Ok(add_frame(alloc, building, row)?),
        Row::Begin(begin) => {
            building.last = 12;
            building.script.begin = Some(begin);
            Ok(())
        }
        Row::Move(row) => add_move(alloc, building, row),
        Row::Turn(turn) => Ok(add_turn(building, turn)?),
        Row::End => {
            building.last = 15;
            Ok(())
        }
    }
}

/// Adds a row behind those before it. A fault leaves all as it was; after `NoMemory` nothing is said of the script.
pub fn grow(alloc: Global, building: &mut Building, row: Row) -> Result<(), RowTrouble>
    ensures { IsGrown building.old building.new result (grown building.old row) }
{
    match fault_of(building, &row) {
        Some(kind) => Err(RowTrouble::Fault(kind)),
        None => add(alloc, building, row),
    }
}
