//! Lines of the program.
ghost use Rattle.std.specs.Prelude.{◌≡◌, ◌∷◌, [], OnOk};
ghost use Rattle.script_rows.specs.Printing.{named, move_data};
ghost use Rattle.script_rows.specs.Rows.{id};
ghost use Rattle.line_elements.specs.Values.{array_of};
ghost use Rattle.world_model.specs.declared.moves.Move.TheVariants as moves;

use crate::elements::Elements;
use crate::lines::ScriptRow;
use jdwp_values::{ClassId, FieldId, FrameId, MethodId, ObjectId, ThreadId, Value};
use slot_values::SlotValue;
use wire_core::{Blob, List, NoMemory};
use world_model::Move;

impl ScriptRow for Move {
    ghost use Rattle.script_rows.specs.declared.rows.Row.TheVariants as rows;

    ghost row_of = { rows.Move };

    fn say(&self, line: &mut Elements) -> Result<(), NoMemory> {
        say_move(line, self)
    }
}

fn say_move(line: &mut Elements, row: &Move) -> Result<(), NoMemory>
    requires { line.old ≡ [] }
    ensures { OnOk result (array_of line.new ≡ move_data row.now) }
{
    match row {
        Move::At {
            thread,
            index,
            slots,
        } => say_at(line, *thread, *index, slots),
        Move::Call {
            thread,
            frame,
            class,
            method,
            index,
            this,
            slots,
        } => say_call(line, *thread, *frame, *class, *method, *index, *this, slots),
        Move::Return(thread) => say_thread(line, "return", *thread),
        Move::Prepare { class, thread } => say_prepare(line, *class, *thread),
        Move::Throw {
            thread,
            object,
            class,
            method,
            index,
        } => say_throw(line, *thread, *object, *class, *method, *index),
        Move::Start { thread, name } => say_start(line, *thread, name),
        Move::Die(thread) => say_thread(line, "die", *thread),
        Move::Store {
            object,
            field,
            value,
        } => say_store(line, *object, *field, value),
        Move::Death => line.word("death"),
    }
}

fn say_at(
    line: &mut Elements,
    thread: ThreadId,
    index: u64,
    slots: &List<SlotValue>,
) -> Result<(), NoMemory>
    requires { line.old ≡ [] }
    ensures { OnOk result (array_of line.new ≡ move_data (moves.At thread index slots.now)) }
{
    line.word("at")?;
    line.natural(thread.0)?;
    line.signed(index.cast_signed())?;
    line.slots(slots)
}

fn say_call(
    line: &mut Elements,
    thread: ThreadId,
    frame: FrameId,
    class: ClassId,
    method: MethodId,
    index: u64,
    this: ObjectId,
    slots: &List<SlotValue>,
) -> Result<(), NoMemory>
    requires { line.old ≡ [] }
    ensures { OnOk result (array_of line.new
        ≡ move_data (moves.Call thread frame class method index this slots.now)) }
{
    line.word("call")?;
    line.natural(thread.0)?;
    line.natural(frame.0)?;
    line.natural(class.0)?;
    line.natural(method.0)?;
    line.signed(index.cast_signed())?;
    line.natural(this.0)?;
    line.slots(slots)
}

fn say_throw(
    line: &mut Elements,
    thread: ThreadId,
    object: ObjectId,
    class: ClassId,
    method: MethodId,
    index: u64,
) -> Result<(), NoMemory>
    requires { line.old ≡ [] }
    ensures { OnOk result (array_of line.new ≡ move_data (moves.Throw thread object class method index)) }
{
    line.word("throw")?;
    line.natural(thread.0)?;
    line.natural(object.0)?;
    line.natural(class.0)?;
    line.natural(method.0)?;
    line.natural(index)
}

fn say_thread(line: &mut Elements, name: &str, thread: ThreadId) -> Result<(), NoMemory>
    requires { line.old ≡ [] }
    ensures { OnOk result (array_of line.new ≡ named name.now (id ∷ []) (thread.0, tt)) }
{
    line.word(name)?;
    line.natural(thread.0)
}

fn say_prepare(line: &mut Elements, class: ClassId, thread: ThreadId) -> Result<(), NoMemory>
    requires { line.old ≡ [] }
    ensures { OnOk result (array_of line.new ≡ move_data (moves.Prepare class thread)) }
{
    line.word("prepare")?;
    line.natural(class.0)?;
    line.natural(thread.0)
}

fn say_start(line: &mut Elements, thread: ThreadId, name: &Blob) -> Result<(), NoMemory>
    requires { line.old ≡ [] }
    ensures { OnOk result (array_of line.new ≡ move_data (moves.Start thread name.now)) }
{
    line.word("start")?;
    line.natural(thread.0)?;
    line.text(name)
}

fn say_store(
    line: &mut Elements,
    object: ObjectId,
    field: FieldId,
    value: &Value,
) -> Result<(), NoMemory>
    requires { line.old ≡ [] }
    ensures { OnOk result (array_of line.new ≡ move_data (moves.Store object field value.now)) }
{
    line.word("store")?;
    line.natural(object.0)?;
    line.natural(field.0)?;
    line.value(value)
}
