ghost use Rattle.std.specs.Prelude.{◌≡◌, ◌||◌, option_copied, option_map};
ghost use Rattle.class_tables.specs.Facts.{is_prepared};

use jdwp_values::TypeTag;
use wire_core::Blob;

/// How the target lists a class: what it is, its signature, and whether it was prepared (JDWP, VirtualMachine command
/// set, AllClasses).
#[derive(Debug, Drop)]
pub(crate) struct Loaded {
    pub(crate) tag: TypeTag,
    pub(crate) signature: Blob,
    pub(crate) prepared: bool,
}

/// What a class is, where it was listed.
pub(crate) fn tag_of(class: Option<&Loaded>) -> Option<TypeTag>
    ensures { result ≡ option_map (λ loaded. loaded.tag) (option_copied class.entry) }
{
    Some(class?.tag)
}

/// The signature of a class, where it was listed.
pub(crate) fn signature_of(class: Option<&Loaded>) -> Option<&Blob>
    ensures { option_copied result ≡ option_map (λ loaded. loaded.signature) (option_copied class.entry) }
{
    Some(&class?.signature)
}

/// Whether a class is known to be prepared.
pub(crate) fn is_prepared(class: Option<&Loaded>) -> bool
    ensures { result ≡ is_prepared (option_copied class.entry) }
{
    match class {
        Some(loaded) => loaded.prepared,
        None => false,
    }
}

/// Whether a class is prepared once it is listed again: it stays so.
pub(crate) fn stays_prepared(class: Option<&Loaded>, prepared: bool) -> bool
    ensures { result ≡ prepared || is_prepared (option_copied class.entry) }
{
    prepared || is_prepared(class)
}
