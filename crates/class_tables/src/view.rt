ghost use Rattle.std.specs.Prelude.{◌≡◌, option_copied, option_map};
ghost use Rattle.class_tables.specs.Views.{facts_shown, has_any, key_shown, key_from};

use crate::loaded::Loaded;
use crate::signature::package_in;
use jdwp_values::{ClassId, Field, Method, TypeTag};
use wire_core::{Blob, List};

/// What is known of a class, each fact where it was learnt; a source may be known to be absent (JDWP, ReferenceType
/// command set, Signature, SourceFile, Methods and Fields; JDWP, ClassType command set, Superclass).
#[derive(Clone, Copy, Debug)]
pub struct ClassView<'a> {
    pub tag: Option<TypeTag>,
    pub signature: Option<&'a Blob>,
    pub prepared: bool,
    pub source: Option<Option<&'a Blob>>,
    pub methods: Option<&'a List<Method>>,
    pub fields: Option<&'a List<Field>>,
    pub above: Option<ClassId>,
}

/// The key of a class: the path of its package, in bytes with `/` between its parts and empty in the default package,
/// and the name of its source file (JDWP, ReferenceType command set, Signature and SourceFile).
#[derive(Clone, Copy, Debug, PartialEq, Eq)]
pub struct KeyView<'a> {
    pub package: &'a [u8],
    pub file: &'a [u8],
}

impl ClassView<'_> {
    /// Whether any fact was learnt.
    pub(crate) fn has_any(&self) -> bool
        ensures { result ≡ has_any (facts_shown self.now) }
    {
        self.tag.is_some()
            || self.source.is_some()
            || self.methods.is_some()
            || self.fields.is_some()
            || self.above.is_some()
    }
}

/// The key of a class that is listed so and has this source; `None` exactly where one of them is not known, the source
/// is absent, or the signature is not that of a class.
pub(crate) fn key_view<'a>(
    loaded: Option<&'a Loaded>,
    source: Option<&'a Option<Blob>>,
) -> Option<KeyView<'a>>
    ensures { option_map key_shown result ≡ key_from (option_copied loaded.entry) (option_copied source.entry) }
{
    let loaded = loaded?;
    let file = source?.as_ref()?;
    Some(KeyView {
        package: package_in(loaded.signature.as_slice())?,
        file: file.as_slice(),
    })
}
