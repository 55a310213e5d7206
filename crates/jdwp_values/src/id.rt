/// The id of an object (JDWP, Detailed Command Information, common data types, objectID).
#[derive(Clone, Copy, Debug, PartialEq, Eq, PartialOrd, Ord, Hash)]
pub struct ObjectId(pub u64);

/// The id of a thread, an object of its own (JDWP, Detailed Command Information, common data types, threadID).
#[derive(Clone, Copy, Debug, PartialEq, Eq, PartialOrd, Ord, Hash)]
pub struct ThreadId(pub u64);

/// The id of a class, an interface or an array type (JDWP, Detailed Command Information, common data types,
/// referenceTypeID).
#[derive(Clone, Copy, Debug, PartialEq, Eq, PartialOrd, Ord, Hash)]
pub struct ClassId(pub u64);

/// The id of a method within its class (JDWP, Detailed Command Information, common data types, methodID).
#[derive(Clone, Copy, Debug, PartialEq, Eq, PartialOrd, Ord, Hash)]
pub struct MethodId(pub u64);

/// The id of a field within its class (JDWP, Detailed Command Information, common data types, fieldID).
#[derive(Clone, Copy, Debug, PartialEq, Eq, PartialOrd, Ord, Hash)]
pub struct FieldId(pub u64);

/// The id of a frame within its thread (JDWP, Detailed Command Information, common data types, frameID).
#[derive(Clone, Copy, Debug, PartialEq, Eq, PartialOrd, Ord, Hash)]
pub struct FrameId(pub u64);
