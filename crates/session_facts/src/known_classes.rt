//! What was learnt of a class, and what that makes of it for breakpoints: it is watched, its source is listed, or a
//! function names it.
ghost use Rattle.std.specs.Prelude.{◌≡◌, ◌||◌, None, is_some, option_copied, option_map};
ghost use Rattle.class_tables.specs.Lookups.{found_in};
ghost use Rattle.machine_model.specs.Classes.{counts, is_keyed};
ghost use Rattle.session_facts.specs.ClassPlanning.{watched_in};
ghost use Rattle.wish_sets.specs.Places.{key_by};
ghost use Rattle.wish_sets.specs.Wished.{is_named};

use class_tables::{Classes, package_in};
use jdwp_values::{ClassId, Method};
use wire_core::Blob;
use wish_sets::Wishes;

/// The source of a class, where it was learnt; it may be absent.
pub fn known_source(classes: &Classes, class: ClassId) -> Option<Option<&Blob>>
    ensures { option_map option_copied result ≡ (found_in classes.now).source class }
{
    classes.class(class)?.source
}

/// The methods of a class, where they were learnt.
pub fn known_methods(classes: &Classes, class: ClassId) -> Option<&[Method]>
    ensures { option_copied result ≡ (found_in classes.now).methods class }
{
    Some(classes.class(class)?.methods?.as_slice())
}

/// The signature of a class, where it was learnt.
pub fn known_signature(classes: &Classes, class: ClassId) -> Option<&Blob>
    ensures { option_copied result ≡ option_map (λ loaded. loaded.signature) ((found_in classes.now).loaded class) }
{
    classes.class(class)?.signature
}

/// Whether the fields of a class were learnt.
pub fn knows_fields(classes: &Classes, class: ClassId) -> bool
    ensures { result ≡ is_some ((found_in classes.now).fields class) }
{
    match classes.class(class) {
        None => false,
        Some(view) => view.fields.is_some(),
    }
}

/// Whether the class that a class extends was learnt.
pub fn knows_above(classes: &Classes, class: ClassId) -> bool
    ensures { result ≡ is_some ((found_in classes.now).above class) }
{
    match classes.class(class) {
        None => false,
        Some(view) => view.above.is_some(),
    }
}

/// The signature of a class that is prepared, in a package that is watched.
pub fn watched_signature<'a>(
    classes: &'a Classes,
    wishes: &Wishes,
    class: ClassId,
) -> Option<&'a [u8]>
    ensures { option_copied result ≡ watched_in wishes.now.wanted ((found_in classes.now).loaded class) }
{
    let view = classes.class(class)?;
    if !view.prepared {
        return None;
    }
    let signature = view.signature?.as_slice();
    let path = package_in(signature)?;
    if wishes.is_watched(path) {
        Some(signature)
    } else {
        None
    }
}

/// Whether the source of a class is listed.
pub fn is_keyed(wishes: &Wishes, signature: &[u8], source: Option<&Blob>) -> bool
    ensures { result ≡ is_keyed wishes.now.wanted (key_by signature.now (option_copied source.entry)) }
{
    let Some(file) = source else {
        return false;
    };
    match package_in(signature) {
        None => false,
        Some(path) => wishes.is_listed(path, file.as_slice()),
    }
}

/// Whether a method counts: of a class whose source is listed each does, of another those that a function names.
pub fn counts(keyed: bool, wishes: &Wishes, signature: &[u8], method: &Method) -> bool
    ensures { result ≡ counts keyed wishes.now.wanted signature.now method.now }
{
    keyed || wishes.is_named(signature, Some(method.name.as_slice()))
}

/// Whether breakpoints may be bound in a class: its source is listed, or a function names it.
pub fn is_bound(keyed: bool, wishes: &Wishes, signature: &[u8]) -> bool
    ensures { result ≡ (keyed || is_named wishes.now.wanted signature.now None) }
{
    keyed || wishes.is_named(signature, None)
}
