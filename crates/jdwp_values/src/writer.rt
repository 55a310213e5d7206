ghost use Rattle.std.specs.Prelude.{◌≡◌, ◌≤◌, ◌<◌, ◌^◌, [], length};
ghost use Rattle.std.specs.Int.{bytes_high_first};
ghost use Rattle.jdwp_values.specs.Parts.{simple, unsigned, signed, byte, int, long, index, number, object, thread};
ghost use Rattle.jdwp_values.specs.Parts.{class, method, field, frame, type_tag, text, location, value, reference};
ghost use Rattle.jdwp_values.specs.Spelling.{spell_part, FitsPart, spell_untagged, FitsValue, Writes};

use crate::id::{ClassId, FieldId, FrameId, MethodId, ObjectId, ThreadId};
use crate::location::Location;
use crate::sizes::IdSizes;
use crate::tag::TypeTag;
use crate::value::Value;
use std::alloc::Global;
use std::marker::Model;
use wire_core::{Blob, NoMemory};

/// Writes the parts of a body one after the other (JDWP, Detailed Command Information, common data types). After an
/// error the bytes so far say nothing.
#[derive(Debug, Drop)]
pub struct Writer {
    sizes: IdSizes,
    out: Blob,
}

impl Model for Writer {
    ghost use Rattle.jdwp_values.specs.Spelling.{Written};

    ghost Value = { Written };

    ghost view = { λ w. record { sizes = w.sizes; bytes = w.out } };
}

impl Writer {
    /// A writer that has written nothing; it takes no memory.
    pub fn new(alloc: Global, sizes: IdSizes) -> Writer
        ensures { result ≡ record { sizes = sizes; bytes = [] } }
    {
        Writer {
            sizes,
            out: Blob::new(alloc),
        }
    }

    /// The bytes.
    pub fn done(self) -> Blob
        ensures { result ≡ self.bytes }
    {
        let Writer { out, sizes: _ } = self;
        out
    }

    #[tactic(auto, using(crate::proofs::Numbers::drop_to_size))]
    fn last_bytes(&mut self, size: u8, number: u64) -> Result<(), NoMemory>
        requires { size ≤ 8 }
        ensures { Writes (bytes_high_first size number) self.old self.new result }
    {
        let bytes = number.to_be_bytes();
        self.out.extend_from_slice(&bytes[8 - size as usize..])?;
        Ok(())
    }

    /// An unsigned byte. `NoMemory` comes where memory is refused.
    pub fn byte(&mut self, part: u8) -> Result<(), NoMemory>
        ensures { Writes (spell_part self.old.sizes byte part) self.old self.new result }
    {
        self.last_bytes(1, u64::from(part))
    }

    /// A signed number of four bytes. `NoMemory` comes where memory is refused.
    pub fn int(&mut self, part: i32) -> Result<(), NoMemory>
        ensures { Writes (spell_part self.old.sizes int part) self.old self.new result }
    {
        self.last_bytes(4, u64::from(part.cast_unsigned()))
    }

    /// A signed number of eight bytes. `NoMemory` comes where memory is refused.
    pub fn long(&mut self, part: i64) -> Result<(), NoMemory>
        ensures { Writes (spell_part self.old.sizes long part) self.old self.new result }
    {
        self.last_bytes(8, part.cast_unsigned())
    }

    /// An unsigned number of eight bytes: a place in a method's code. `NoMemory` comes where memory is refused.
    pub fn index(&mut self, part: u64) -> Result<(), NoMemory>
        ensures { Writes (spell_part self.old.sizes index part) self.old self.new result }
    {
        self.last_bytes(8, part)
    }

    /// An unsigned number of four bytes. `NoMemory` comes where memory is refused.
    pub fn number(&mut self, part: u32) -> Result<(), NoMemory>
        ensures { Writes (spell_part self.old.sizes number part) self.old self.new result }
    {
        self.last_bytes(4, u64::from(part))
    }

    /// An object's id, which fits the bytes that such an id takes. `NoMemory` comes where memory is refused.
    pub fn object(&mut self, part: ObjectId) -> Result<(), NoMemory>
        requires { FitsPart self.old.sizes object part }
        ensures { Writes (spell_part self.old.sizes object part) self.old self.new result }
    {
        self.last_bytes(self.sizes.object, part.0)
    }

    /// A thread's id, which fits the bytes that an object's takes. `NoMemory` comes where memory is refused.
    pub fn thread(&mut self, part: ThreadId) -> Result<(), NoMemory>
        requires { FitsPart self.old.sizes thread part }
        ensures { Writes (spell_part self.old.sizes thread part) self.old self.new result }
    {
        self.last_bytes(self.sizes.object, part.0)
    }

    /// A reference type's id, which fits the bytes that such an id takes. `NoMemory` comes where memory is refused.
    pub fn class(&mut self, part: ClassId) -> Result<(), NoMemory>
        requires { FitsPart self.old.sizes class part }
        ensures { Writes (spell_part self.old.sizes class part) self.old self.new result }
    {
        self.last_bytes(self.sizes.class, part.0)
    }

    /// A method's id, which fits the bytes that such an id takes. `NoMemory` comes where memory is refused.
    pub fn method(&mut self, part: MethodId) -> Result<(), NoMemory>
        requires { FitsPart self.old.sizes method part }
        ensures { Writes (spell_part self.old.sizes method part) self.old self.new result }
    {
        self.last_bytes(self.sizes.method, part.0)
    }

    /// A field's id, which fits the bytes that such an id takes. `NoMemory` comes where memory is refused.
    pub fn field(&mut self, part: FieldId) -> Result<(), NoMemory>
        requires { FitsPart self.old.sizes field part }
        ensures { Writes (spell_part self.old.sizes field part) self.old self.new result }
    {
        self.last_bytes(self.sizes.field, part.0)
    }

    /// A frame's id, which fits the bytes that such an id takes. `NoMemory` comes where memory is refused.
    pub fn frame(&mut self, part: FrameId) -> Result<(), NoMemory>
        requires { FitsPart self.old.sizes frame part }
        ensures { Writes (spell_part self.old.sizes frame part) self.old self.new result }
    {
        self.last_bytes(self.sizes.frame, part.0)
    }

    /// A type tag. `NoMemory` comes where memory is refused.
    pub fn type_tag(&mut self, part: TypeTag) -> Result<(), NoMemory>
        ensures { Writes (spell_part self.old.sizes type_tag part) self.old self.new result }
    {
        self.byte(part.byte())
    }

    /// A count, below 2^31. `NoMemory` comes where memory is refused.
    pub fn count(&mut self, part: u32) -> Result<(), NoMemory>
        requires { part < 2 ^ 31 }
        ensures { Writes (bytes_high_first 4 part) self.old self.new result }
    {
        self.last_bytes(4, u64::from(part))
    }

    /// A text's length, below 2^31, and its bytes. `NoMemory` comes where memory is refused.
    pub fn text(&mut self, part: &[u8]) -> Result<(), NoMemory>
        requires { FitsPart self.old.sizes text part.now }
        ensures { Writes (spell_part self.old.sizes text part.now) self.old self.new result }
    {
        self.count(part.len() as u32)?;
        self.out.extend_from_slice(part)?;
        Ok(())
    }

    /// A type tag, a class, a method and an index; the ids fit the bytes that they take. `NoMemory` comes where memory
    /// is refused.
    pub fn location(&mut self, part: Location) -> Result<(), NoMemory>
        requires { FitsPart self.old.sizes location part }
        ensures { Writes (spell_part self.old.sizes location part) self.old self.new result }
    {
        self.type_tag(part.tag)?;
        self.class(part.class)?;
        self.method(part.method)?;
        self.index(part.index)?;
        Ok(())
    }

    /// A tag and its value, which may be a reference; its id fits the bytes that an object's takes. `NoMemory` comes
    /// where memory is refused.
    pub fn value(&mut self, part: &Value) -> Result<(), NoMemory>
        requires { FitsPart self.old.sizes value part.now }
        ensures { Writes (spell_part self.old.sizes value part.now) self.old self.new result }
    {
        self.byte(part.tag().byte())?;
        self.untagged(part)?;
        Ok(())
    }

    /// A reference's tag and its object, whose id fits the bytes that it takes. `NoMemory` comes where memory is
    /// refused.
    pub fn reference(&mut self, part: &Value) -> Result<(), NoMemory>
        requires { FitsPart self.old.sizes reference part.now }
        ensures { Writes (spell_part self.old.sizes reference part.now) self.old self.new result }
    {
        self.value(part)
    }

    /// A value without its tag; the id of a reference fits the bytes that an object's takes. `NoMemory` comes where
    /// memory is refused.
    pub fn untagged(&mut self, part: &Value) -> Result<(), NoMemory>
        requires { FitsValue self.old.sizes part.now }
        ensures { Writes (spell_untagged self.old.sizes part.now) self.old self.new result }
    {
        match *part {
            Value::Byte(number) => self.last_bytes(1, u64::from(number.cast_unsigned())),
            Value::Char(number) => self.last_bytes(2, u64::from(number)),
            Value::Double(bits) => self.last_bytes(8, bits),
            Value::Float(bits) => self.last_bytes(4, u64::from(bits)),
            Value::Int(number) => self.int(number),
            Value::Long(number) => self.long(number),
            Value::Short(number) => self.last_bytes(2, u64::from(number.cast_unsigned())),
            Value::Boolean(byte) => self.byte(byte),
            Value::Void => Ok(()),
            Value::Object(object) => self.object(object),
            Value::Array(object) => self.object(object),
            Value::String(object) => self.object(object),
            Value::Thread(object) => self.object(object),
            Value::ThreadGroup(object) => self.object(object),
            Value::ClassLoader(object) => self.object(object),
            Value::ClassObject(object) => self.object(object),
        }
    }

    /// Bytes as they are. `NoMemory` comes where memory is refused.
    pub fn tail(&mut self, part: &[u8]) -> Result<(), NoMemory>
        ensures { Writes part.now self.old self.new result }
    {
        self.out.extend_from_slice(part)?;
        Ok(())
    }
}
