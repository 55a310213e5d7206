//! Whether a class is known as it is found, so that what is known already is not copied again.
ghost use Rattle.std.specs.Prelude.{◌≡◌, IsTrue, Some, map, option_copied};
ghost use Rattle.class_tables.specs.Lookups.{found_in};
ghost use Rattle.class_tables.specs.Views.{facts_shown};
ghost use Rattle.wish_sets.specs.Shown.{shown_facts};
ghost use Rattle.wish_sets.specs.Wanted.{class_found, method_found, methods_found};

use crate::facts::{KnownClass, KnownMethod};
use class_tables::{ClassView, Classes};
use jdwp_values::{ClassId, Line, LineTable, Method};
use wire_core::{Blob, List};

// Whether two lists of bytes are one.
fn same_bytes(a: &Blob, b: &Blob) -> bool
    ensures { IsTrue result → a.now ≡ b.now }
{
    a.as_slice() == b.as_slice()
}

// Whether a source that is found is the one that is known; or neither is there.
fn is_source(found: Option<&Blob>, known: &Option<Blob>) -> bool
    ensures { IsTrue result → option_copied found.entry ≡ known.now }
{
    match (found, known) {
        (Some(found), Some(known)) => same_bytes(found, known),
        (None, None) => true,
        (Some(_), None) => false,
        (None, Some(_)) => false,
    }
}

// Whether two lists of lines are one.
fn same_lines(a: &[Line], b: &[Line]) -> bool
    ensures { IsTrue result → a.now ≡ b.now }
{
    if a.len() != b.len() {
        return false;
    }
    for at in 0..a.len() {
        if a[at] != b[at] {
            return false;
        }
    }
    true
}

// Whether a line table that is found is the one that is known; or neither is there.
fn is_table(found: Option<&LineTable>, known: &Option<LineTable>) -> bool
    ensures { IsTrue result → option_copied found.entry ≡ known.now }
{
    match (found, known) {
        (Some(found), Some(known)) => {
            found.start == known.start
                && found.end == known.end
                && same_lines(found.lines.as_slice(), known.lines.as_slice())
        }
        (None, None) => true,
        (Some(_), None) => false,
        (None, Some(_)) => false,
    }
}

// Whether a method is known as it is found.
fn is_method(classes: &Classes, class: ClassId, method: &Method, known: &KnownMethod) -> bool
    ensures { IsTrue result → method_found (found_in classes.now) class method.now ≡ known.now }
{
    method.id == known.id
        && same_bytes(&method.name, &known.name)
        && is_table(classes.lines(class, method.id).flatten(), &known.lines)
}

// Whether methods are known as they are found.
#[tactic(auto, using(crate::proofs::AlikeLaws::one_more_alike))]
fn are_methods(classes: &Classes, class: ClassId, methods: &[Method], known: &[KnownMethod]) -> bool
    ensures { IsTrue result → map (method_found (found_in classes.now) class) methods.now ≡ known.now }
{
    if methods.len() != known.len() {
        return false;
    }
    for at in 0..methods.len() {
        if !is_method(classes, class, &methods[at], &known[at]) {
            return false;
        }
    }
    true
}

// Whether the methods of a class are known as they are found; none are known where none were found.
fn are_methods_found(
    classes: &Classes,
    class: ClassId,
    methods: Option<&List<Method>>,
    known: &[KnownMethod],
) -> bool
    ensures { IsTrue result
        → methods_found (found_in classes.now) class (option_copied methods.entry) ≡ known.now }
{
    match methods {
        Some(methods) => are_methods(classes, class, methods.as_slice(), known),
        None => known.is_empty(),
    }
}

// Whether what is shown of a class is what is known of it.
fn is_shown(classes: &Classes, class: ClassId, view: &ClassView<'_>, known: &KnownClass) -> bool
    ensures { IsTrue result
        → shown_facts (found_in classes.now) class (facts_shown view.now) ≡ Some known.now }
{
    let (Some(tag), Some(signature)) = (view.tag, view.signature) else {
        return false;
    };
    tag == known.tag
        && view.prepared == known.prepared
        && same_bytes(signature, &known.signature)
        && is_source(view.source.flatten(), &known.source)
        && are_methods_found(classes, class, view.methods, known.methods.as_slice())
}

/// Whether a class is known as it is found now.
pub(crate) fn is_found(classes: &Classes, class: ClassId, known: &KnownClass) -> bool
    ensures { IsTrue result → class_found (found_in classes.now) class ≡ Some known.now }
{
    match classes.class(class) {
        Some(view) => is_shown(classes, class, &view, known),
        None => false,
    }
}
