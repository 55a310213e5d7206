//! What is said of the place that a value stands in.

use wire_core::Blob;

/// The signature of a value's place: it is known, as the target's bytes; or it is that of the elements of the array
/// of an id (Java Virtual Machine Specification, The class File Format, Field Descriptors).
#[derive(Drop)]
pub enum Declared {
    Signature(Blob),
    ElementOf(u64),
}
