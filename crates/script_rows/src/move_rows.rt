//! Lines of the program and of the schedule.
ghost use Rattle.std.specs.Prelude.{◌≡◌};
ghost use Rattle.line_elements.specs.Parts.{row_at, Tells};
ghost use Rattle.script_rows.specs.Rows.{at_parts, at_made, call_parts, call_made, throw_parts, throw_made, move_of};
ghost use Rattle.script_rows.specs.Rows.{turn_of};
ghost use Rattle.script_rows.specs.declared.kinds.MoveKind.TheVariants as move;
ghost use Rattle.line_elements.specs.declared.version.Version.TheVariants.{Second};

use crate::kinds::{MoveKind, TurnKind};
use crate::script::Turn;
use jdwp_values::{ClassId, FieldId, FrameId, MethodId, ObjectId, ThreadId};
use line_elements::{Elements, LineFault, Version};
use std::alloc::Global;
use world_model::Move;

fn at(alloc: Global, version: Version, elements: &mut Elements<'_>) -> Result<Move, LineFault>
    ensures { Tells (λ x. x) (row_at (at_parts version) (at_made version) elements.old) elements.new result }
{
    Ok(Move::At {
        thread: ThreadId(elements.id()?),
        index: elements.index()?,
        slots: elements.slots(alloc, version)?,
    })
}

fn call(alloc: Global, version: Version, elements: &mut Elements<'_>) -> Result<Move, LineFault>
    ensures { Tells (λ x. x) (row_at (call_parts version) (call_made version) elements.old) elements.new result }
{
    Ok(Move::Call {
        thread: ThreadId(elements.id()?),
        frame: FrameId(elements.id()?),
        class: ClassId(elements.id()?),
        method: MethodId(elements.id()?),
        index: elements.index()?,
        this: ObjectId(elements.id_or_none()?),
        slots: elements.slots(alloc, version)?,
    })
}

fn throw(elements: &mut Elements<'_>) -> Result<Move, LineFault>
    ensures { Tells (λ x. x) (row_at throw_parts throw_made elements.old) elements.new result }
{
    Ok(Move::Throw {
        thread: ThreadId(elements.id()?),
        object: ObjectId(elements.id()?),
        class: ClassId(elements.id_or_none()?),
        method: MethodId(elements.id_or_none()?),
        index: elements.id_or_none()?,
    })
}

fn prepare(elements: &mut Elements<'_>) -> Result<Move, LineFault>
    ensures { Tells (λ x. x) (move_of Second move.Prepare elements.old) elements.new result }
{
    Ok(Move::Prepare {
        class: ClassId(elements.id()?),
        thread: ThreadId(elements.id()?),
    })
}

fn start(alloc: Global, elements: &mut Elements<'_>) -> Result<Move, LineFault>
    ensures { Tells (λ x. x) (move_of Second move.Start elements.old) elements.new result }
{
    Ok(Move::Start {
        thread: ThreadId(elements.id()?),
        name: elements.text(alloc)?,
    })
}

fn store(version: Version, elements: &mut Elements<'_>) -> Result<Move, LineFault>
    ensures { Tells (λ x. x) (move_of version move.Store elements.old) elements.new result }
{
    Ok(Move::Store {
        object: ObjectId(elements.id()?),
        field: FieldId(elements.id()?),
        value: elements.value(version)?,
    })
}

/// The move of a kind of line in a script of this version, of the parts behind its name.
pub(crate) fn move_row(
    alloc: Global,
    version: Version,
    kind: MoveKind,
    elements: &mut Elements<'_>,
) -> Result<Move, LineFault>
    ensures { Tells (λ x. x) (move_of version kind elements.old) elements.new result }
{
    match kind {
        MoveKind::At => at(alloc, version, elements),
        MoveKind::Call => call(alloc, version, elements),
        MoveKind::Return => Ok(Move::Return(ThreadId(elements.id()?))),
        MoveKind::Prepare => prepare(elements),
        MoveKind::Throw => throw(elements),
        MoveKind::Start => start(alloc, elements),
        MoveKind::Die => Ok(Move::Die(ThreadId(elements.id()?))),
        MoveKind::Store => store(version, elements),
        MoveKind::Death => Ok(Move::Death),
    }
}

/// The turn of a kind of line, of the parts behind its name.
pub(crate) fn turn_row(
    alloc: Global,
    kind: TurnKind,
    elements: &mut Elements<'_>,
) -> Result<Turn, LineFault>
    ensures { Tells (λ x. x) (turn_of kind elements.old) elements.new result }
{
    match kind {
        TurnKind::Ask => Ok(Turn::Ask {
            command: elements.word(alloc)?,
            arguments: elements.arguments()?,
        }),
        TurnKind::Client => Ok(Turn::Client(elements.small(1, 65_537)?)),
        TurnKind::Target => Ok(Turn::Target(elements.small(1, 65_537)?)),
        TurnKind::Serve => Ok(Turn::Serve(elements.small(0, 1 << 32)?)),
        TurnKind::Move => Ok(Turn::Move),
        TurnKind::Settle => Ok(Turn::Settle),
        TurnKind::Deliver => Ok(Turn::Deliver),
        TurnKind::Shut => Ok(Turn::Shut(elements.side()?)),
    }
}
