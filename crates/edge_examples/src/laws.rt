//! What two crates say of one thing. Each law is the contract of a function that does nothing.

ghost use Rattle.edge_examples.specs.Laws.{AgreesOnStatic};

/// A field is taken for static exactly where its flags have the bit of 8, whatever the others are, bit 31 among them
/// (Java Virtual Machine Specification, Fields, ACC_STATIC; JDWP, ReferenceType command set, Fields).
pub fn a_field_is_static_by_one_bit()
    ensures { AgreesOnStatic }
{}
