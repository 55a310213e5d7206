//! Lines of the world.
use crate::elements::Elements;
use crate::lines::ScriptRow;
use line_elements::tag_name;
use script_rows::Begin;
use wire_core::NoMemory;
use world_model::{
    Put, WorldArray, WorldClass, WorldField, WorldFrame, WorldMethod, WorldObject, WorldString,
    WorldThread, WorldVariable,
};

impl ScriptRow for WorldClass {
    ghost use Rattle.script_rows.specs.declared.rows.Row.TheVariants as rows;

    ghost row_of = { rows.Class };

    fn say(&self, line: &mut Elements) -> Result<(), NoMemory> {
        line.word("class")?;
        line.natural(self.id.0)?;
        line.natural(u64::from(self.tag.byte()))?;
        line.text(&self.signature)?;
        line.text_or_null(&self.source)?;
        line.natural(self.above.0)?;
        line.truth(self.prepared)
    }
}

impl ScriptRow for WorldMethod {
    ghost use Rattle.script_rows.specs.declared.rows.Row.TheVariants as rows;

    ghost row_of = { rows.Method };

    fn say(&self, line: &mut Elements) -> Result<(), NoMemory> {
        line.word("method")?;
        line.natural(self.class.0)?;
        line.natural(self.method.id.0)?;
        line.text(&self.method.name)?;
        line.text(&self.method.signature)?;
        line.signed(i64::from(self.method.bits))?;
        line.signed(self.start)?;
        line.signed(self.end)?;
        line.lines(&self.lines)
    }
}

impl ScriptRow for WorldVariable {
    ghost use Rattle.script_rows.specs.declared.rows.Row.TheVariants as rows;

    ghost row_of = { rows.Variable };

    fn say(&self, line: &mut Elements) -> Result<(), NoMemory> {
        line.word("variable")?;
        line.natural(self.class.0)?;
        line.natural(self.method.0)?;
        line.natural(self.variable.index)?;
        line.natural(u64::from(self.variable.length))?;
        line.text(&self.variable.name)?;
        line.text(&self.variable.signature)?;
        line.signed(i64::from(self.variable.slot))
    }
}

impl ScriptRow for WorldField {
    ghost use Rattle.script_rows.specs.declared.rows.Row.TheVariants as rows;

    ghost row_of = { rows.Field };

    fn say(&self, line: &mut Elements) -> Result<(), NoMemory> {
        line.word("field")?;
        line.natural(self.class.0)?;
        line.natural(self.field.id.0)?;
        line.text(&self.field.name)?;
        line.text(&self.field.signature)?;
        line.signed(i64::from(self.field.bits))
    }
}

impl ScriptRow for WorldObject {
    ghost use Rattle.script_rows.specs.declared.rows.Row.TheVariants as rows;

    ghost row_of = { rows.Object };

    fn say(&self, line: &mut Elements) -> Result<(), NoMemory> {
        line.word("object")?;
        line.natural(self.id.0)?;
        line.word(tag_name(self.tag))?;
        line.natural(self.class.0)
    }
}

impl ScriptRow for WorldArray {
    ghost use Rattle.script_rows.specs.declared.rows.Row.TheVariants as rows;

    ghost row_of = { rows.Array };

    fn say(&self, line: &mut Elements) -> Result<(), NoMemory> {
        line.word("array")?;
        line.natural(self.id.0)?;
        line.natural(self.class.0)?;
        line.values(&self.values)
    }
}

impl ScriptRow for WorldString {
    ghost use Rattle.script_rows.specs.declared.rows.Row.TheVariants as rows;

    ghost row_of = { rows.Text };

    fn say(&self, line: &mut Elements) -> Result<(), NoMemory> {
        line.word("string")?;
        line.natural(self.id.0)?;
        line.natural(self.class.0)?;
        line.text(&self.text)
    }
}

impl ScriptRow for Put {
    ghost use Rattle.script_rows.specs.declared.rows.Row.TheVariants as rows;

    ghost row_of = { rows.Put };

    fn say(&self, line: &mut Elements) -> Result<(), NoMemory> {
        line.word("put")?;
        line.natural(self.object.0)?;
        line.natural(self.field.0)?;
        line.value(&self.value)
    }
}

impl ScriptRow for WorldThread {
    ghost use Rattle.script_rows.specs.declared.rows.Row.TheVariants as rows;

    ghost row_of = { rows.Thread };

    fn say(&self, line: &mut Elements) -> Result<(), NoMemory> {
        line.word("thread")?;
        line.natural(self.id.0)?;
        line.text(&self.name)
    }
}

impl ScriptRow for WorldFrame {
    ghost use Rattle.script_rows.specs.declared.rows.Row.TheVariants as rows;

    ghost row_of = { rows.Frame };

    fn say(&self, line: &mut Elements) -> Result<(), NoMemory> {
        line.word("frame")?;
        line.natural(self.thread.0)?;
        line.natural(self.id.0)?;
        line.natural(self.class.0)?;
        line.natural(self.method.0)?;
        line.signed(self.index.cast_signed())?;
        line.natural(self.this.0)?;
        line.slots(&self.slots)
    }
}

impl ScriptRow for Begin {
    ghost use Rattle.script_rows.specs.declared.rows.Row.TheVariants as rows;

    ghost row_of = { rows.Begin };

    fn say(&self, line: &mut Elements) -> Result<(), NoMemory> {
        line.word("begin")?;
        line.natural(self.thread.0)?;
        line.natural(u64::from(self.policy.byte()))
    }
}
