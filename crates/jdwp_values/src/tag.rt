ghost use Rattle.std.specs.Prelude.{◌≡◌};
ghost use Rattle.jdwp_values.specs.Tags.{type_tag_of, byte_of_type_tag, tag_of, byte_of_tag, is_reference};

/// What a reference type is (JDWP, Constants, TypeTag). A null location may carry `Nothing`.
#[derive(Clone, Copy, Debug, PartialEq, Eq)]
pub enum TypeTag {
    Nothing,
    Class,
    Interface,
    Array,
}

impl TypeTag {
    /// The tag of a byte; None exactly where it is above 3.
    pub fn from_byte(byte: u8) -> Option<TypeTag>
        ensures { result ≡ type_tag_of byte }
    {
        match byte {
            0 => Some(TypeTag::Nothing),
            1 => Some(TypeTag::Class),
            2 => Some(TypeTag::Interface),
            3 => Some(TypeTag::Array),
            _ => None,
        }
    }

    /// The tag's byte.
    pub fn byte(self) -> u8
        ensures { result ≡ byte_of_type_tag self }
    {
        match self {
            TypeTag::Nothing => 0,
            TypeTag::Class => 1,
            TypeTag::Interface => 2,
            TypeTag::Array => 3,
        }
    }
}

/// What a value is (JDWP, Constants, Tag).
#[derive(Clone, Copy, Debug, PartialEq, Eq)]
pub enum Tag {
    Byte,
    Char,
    Double,
    Float,
    Int,
    Long,
    Short,
    Boolean,
    Void,
    Object,
    Array,
    String,
    Thread,
    ThreadGroup,
    ClassLoader,
    ClassObject,
}

impl Tag {
    /// The tag of a byte; None exactly where it is no tag's byte.
    pub fn from_byte(byte: u8) -> Option<Tag>
        ensures { result ≡ tag_of byte }
    {
        match byte {
            b'B' => Some(Tag::Byte),
            b'C' => Some(Tag::Char),
            b'D' => Some(Tag::Double),
            b'F' => Some(Tag::Float),
            b'I' => Some(Tag::Int),
            b'J' => Some(Tag::Long),
            b'S' => Some(Tag::Short),
            b'Z' => Some(Tag::Boolean),
            b'V' => Some(Tag::Void),
            b'L' => Some(Tag::Object),
            b'[' => Some(Tag::Array),
            b's' => Some(Tag::String),
            b't' => Some(Tag::Thread),
            b'g' => Some(Tag::ThreadGroup),
            b'l' => Some(Tag::ClassLoader),
            b'c' => Some(Tag::ClassObject),
            _ => None,
        }
    }

    /// The tag's byte.
    pub fn byte(self) -> u8
        ensures { result ≡ byte_of_tag self }
    {
        match self {
            Tag::Byte => b'B',
            Tag::Char => b'C',
            Tag::Double => b'D',
            Tag::Float => b'F',
            Tag::Int => b'I',
            Tag::Long => b'J',
            Tag::Short => b'S',
            Tag::Boolean => b'Z',
            Tag::Void => b'V',
            Tag::Object => b'L',
            Tag::Array => b'[',
            Tag::String => b's',
            Tag::Thread => b't',
            Tag::ThreadGroup => b'g',
            Tag::ClassLoader => b'l',
            Tag::ClassObject => b'c',
        }
    }

    /// Whether a value of this tag is an object's id.
    pub fn is_reference(self) -> bool
        ensures { result ≡ is_reference self }
    {
        match self {
            Tag::Object => true,
            Tag::Array => true,
            Tag::String => true,
            Tag::Thread => true,
            Tag::ThreadGroup => true,
            Tag::ClassLoader => true,
            Tag::ClassObject => true,
            _ => false,
        }
    }
}
