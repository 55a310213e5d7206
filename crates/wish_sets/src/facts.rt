//! What is kept of a class, as it was last made known.

use jdwp_values::{LineTable, MethodId, TypeTag};
use wire_core::{Blob, List};

/// A class as it was last made known: what it is, its signature, whether it is prepared, and its source file and its
/// methods where they were known (JDWP, VirtualMachine command set, AllClasses; JDWP, ReferenceType command set,
/// SourceFile and Methods).
#[derive(Drop)]
pub struct KnownClass {
    pub tag: TypeTag,
    pub signature: Blob,
    pub prepared: bool,
    pub source: Option<Blob>,
    pub methods: List<KnownMethod>,
}

/// A method of a class as it was last made known, with its lines where they were known and not absent (JDWP, Method
/// command set, LineTable).
#[derive(Drop)]
pub struct KnownMethod {
    pub id: MethodId,
    pub name: Blob,
    pub lines: Option<LineTable>,
}
