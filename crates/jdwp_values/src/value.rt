ghost use Rattle.std.specs.Prelude.{◌≡◌};
ghost use Rattle.jdwp_values.specs.Parts.{tag_of_value};

use crate::id::ObjectId;
use crate::tag::Tag;

/// A value of the target's program: a number, the bits of a floating number, the byte of a boolean, nothing, or an
/// object's id with what kind of object it is (JDWP, Detailed Command Information, common data types, value).
#[derive(Clone, Copy, Debug, PartialEq, Eq)]
pub enum Value {
    Byte(i8),
    Char(u16),
    Double(u64),
    Float(u32),
    Int(i32),
    Long(i64),
    Short(i16),
    Boolean(u8),
    Void,
    Object(ObjectId),
    Array(ObjectId),
    String(ObjectId),
    Thread(ObjectId),
    ThreadGroup(ObjectId),
    ClassLoader(ObjectId),
    ClassObject(ObjectId),
}

impl Value {
    /// The tag that the value stands behind.
    pub fn tag(&self) -> Tag
        ensures { result ≡ tag_of_value self.now }
    {
        match self {
            Value::Byte(_) => Tag::Byte,
            Value::Char(_) => Tag::Char,
            Value::Double(_) => Tag::Double,
            Value::Float(_) => Tag::Float,
            Value::Int(_) => Tag::Int,
            Value::Long(_) => Tag::Long,
            Value::Short(_) => Tag::Short,
            Value::Boolean(_) => Tag::Boolean,
            Value::Void => Tag::Void,
            Value::Object(_) => Tag::Object,
            Value::Array(_) => Tag::Array,
            Value::String(_) => Tag::String,
            Value::Thread(_) => Tag::Thread,
            Value::ThreadGroup(_) => Tag::ThreadGroup,
            Value::ClassLoader(_) => Tag::ClassLoader,
            Value::ClassObject(_) => Tag::ClassObject,
        }
    }
}
