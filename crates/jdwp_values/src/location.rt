use crate::id::{ClassId, MethodId};
use crate::tag::TypeTag;

/// A place in a method's code (JDWP, Detailed Command Information, common data types, location). A null location has
/// the tag `Nothing` or ids of 0.
#[derive(Clone, Copy, Debug, PartialEq, Eq)]
pub struct Location {
    pub tag: TypeTag,
    pub class: ClassId,
    pub method: MethodId,
    pub index: u64,
}
