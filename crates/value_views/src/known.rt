use wire_core::Blob;

/// What is known of a reference beside its id: of an array the signature of its class and its length, of a string its
/// bytes, of another object the signature of its class; nothing of null and of a value that is no reference (JDWP,
/// ReferenceType command set, Signature; JDWP, ArrayReference command set, Length; JDWP, StringReference command set,
/// Value).
#[derive(Debug, Drop)]
pub enum Known {
    Plain,
    Object { signature: Blob },
    Array { signature: Blob, length: u32 },
    Text(Blob),
}
