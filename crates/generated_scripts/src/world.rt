//! The world of a generated script.
ghost use Rattle.std.specs.Prelude.{◌≡◌, ◌≤◌, ◌+◌, pos, [], ◌∷◌, IfOk};
ghost use Rattle.jdwp_values.specs.declared.value.Value.TheVariants.{Int};
ghost use Rattle.generated_scripts.specs.Numbers.{for_each_to};
ghost use Rattle.generated_scripts.specs.Worlds.{eight_bytes, frame_at, line, main_class, main_thread};
ghost use Rattle.generated_scripts.specs.Worlds.{n_variable, run_method, world_at};

use jdwp_values::{
    ClassId, FrameId, IdSizes, Line, Method, MethodId, ObjectId, ThreadId, TypeTag, Value, Variable,
};
use script_worlds::empty_world;
use slot_values::SlotValue;
use std::alloc::Global;
use wire_core::{Blob, List, NoMemory};
use world_model::{World, WorldClass, WorldFrame, WorldMethod, WorldThread, WorldVariable};

/// The world at the start, where the thread stands at the first line.
pub(crate) fn world(alloc: Global, number: u32) -> Result<World, NoMemory>
    requires { number ≤ 1000 }
    ensures { IfOk result (λ world. world ≡ world_at number 0 0) }
{
    let mut world = empty_world(alloc, eight_bytes());
    world.classes.push(main_class(alloc)?)?;
    world.methods.push(run_method(alloc, number)?)?;
    world.variables.push(n_variable(alloc, number)?)?;
    world.threads.push(main_thread(alloc)?)?;
    world.frames.push(first_frame(alloc)?)?;
    Ok(world)
}

fn eight_bytes() -> IdSizes
    ensures { result ≡ eight_bytes }
{
    IdSizes {
        field: 8,
        method: 8,
        object: 8,
        class: 8,
        frame: 8,
    }
}

fn main_class(alloc: Global) -> Result<WorldClass, NoMemory>
    ensures { IfOk result (λ class. class ≡ main_class) }
{
    Ok(WorldClass {
        id: ClassId(1),
        tag: TypeTag::Class,
        signature: Blob::from_slice(alloc, b"Lgen/Main;")?,
        source: Some(Blob::from_slice(alloc, b"Main.java")?),
        above: ClassId(0),
        prepared: true,
    })
}

fn run_method(alloc: Global, number: u32) -> Result<WorldMethod, NoMemory>
    requires { number ≤ 1000 }
    ensures { IfOk result (λ method. method ≡ run_method number) }
{
    let method = Method {
        id: MethodId(1),
        name: Blob::from_slice(alloc, b"run")?,
        signature: Blob::from_slice(alloc, b"()V")?,
        bits: 9,
    };
    Ok(WorldMethod {
        class: ClassId(1),
        method,
        start: 0,
        end: i64::from(number),
        lines: Some(lines(alloc, number)?),
    })
}

fn lines(alloc: Global, number: u32) -> Result<List<Line>, NoMemory>
    requires { number ≤ 1000 }
    ensures { IfOk result (λ lines. lines ≡ for_each_to (λ i. line i ∷ []) number) }
{
    let mut lines = List::new(alloc);
    for index in 0..number {
        lines.push(line_behind(index))?;
    }
    Ok(lines)
}

// The line at an index.
fn line_behind(index: u32) -> Line
    requires { index ≤ 1000 }
    ensures { result ≡ line (index + 1) }
{
    Line {
        index: u64::from(index),
        line: (index + 1) as i32,
    }
}

fn n_variable(alloc: Global, number: u32) -> Result<WorldVariable, NoMemory>
    ensures { IfOk result (λ variable. variable ≡ n_variable number) }
{
    let variable = Variable {
        index: 0,
        name: Blob::from_slice(alloc, b"n")?,
        signature: Blob::from_slice(alloc, b"I")?,
        length: number,
        slot: 0,
    };
    Ok(WorldVariable {
        class: ClassId(1),
        method: MethodId(1),
        variable,
    })
}

fn main_thread(alloc: Global) -> Result<WorldThread, NoMemory>
    ensures { IfOk result (λ thread. thread ≡ main_thread) }
{
    Ok(WorldThread {
        id: ThreadId(1),
        name: Blob::from_slice(alloc, b"main")?,
    })
}

fn first_frame(alloc: Global) -> Result<WorldFrame, NoMemory>
    ensures { IfOk result (λ frame. frame ≡ frame_at 0 0) }
{
    Ok(WorldFrame {
        thread: ThreadId(1),
        id: FrameId(1),
        class: ClassId(1),
        method: MethodId(1),
        index: 0,
        this: ObjectId(0),
        slots: n_slots(alloc, 0)?,
    })
}

/// The slots of a frame, of which one has a value: that of `n`.
pub(crate) fn n_slots(alloc: Global, value: i32) -> Result<List<SlotValue>, NoMemory>
    ensures { IfOk result (λ slots. slots ≡ record { slot = pos 0; value = Int value } ∷ []) }
{
    let mut slots = List::new(alloc);
    slots.push(SlotValue {
        slot: 0,
        value: Value::Int(value),
    })?;
    Ok(slots)
}
