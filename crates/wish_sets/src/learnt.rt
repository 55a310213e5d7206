//! What is known of a class is copied, as it is now.
ghost use Rattle.std.specs.Prelude.{◌≡◌, ◌++◌, IfOk, OnOk, map, option_copied, option_map};
ghost use Rattle.std.specs.Option.{option_flatten};
ghost use Rattle.class_tables.specs.Lookups.{found_in};
ghost use Rattle.wish_sets.specs.Wanted.{class_found, method_found, methods_found};

use crate::facts::{KnownClass, KnownMethod};
use class_tables::Classes;
use jdwp_values::{ClassId, LineTable, Method};
use std::alloc::Global;
use wire_core::{Blob, List, NoMemory};

// A copy of bytes.
fn copy_of(alloc: Global, bytes: Option<&Blob>) -> Result<Option<Blob>, NoMemory>
    ensures { IfOk result (λ copy. copy ≡ option_copied bytes.entry) }
{
    match bytes {
        Some(bytes) => Ok(Some(Blob::from_slice(alloc, bytes.as_slice())?)),
        None => Ok(None),
    }
}

// A copy of a method's lines.
fn lines_of(alloc: Global, lines: Option<&LineTable>) -> Result<Option<LineTable>, NoMemory>
    ensures { IfOk result (λ copy. copy ≡ option_copied lines.entry) }
{
    match lines {
        Some(table) => Ok(Some(LineTable {
            start: table.start,
            end: table.end,
            lines: List::from_slice(alloc, table.lines.as_slice())?,
        })),
        None => Ok(None),
    }
}

// What is known of a method.
fn method_found(
    alloc: Global,
    classes: &Classes,
    class: ClassId,
    method: &Method,
) -> Result<KnownMethod, NoMemory>
    ensures { IfOk result (λ found. found ≡ method_found (found_in classes.now) class method.now) }
{
    Ok(KnownMethod {
        id: method.id,
        name: Blob::from_slice(alloc, method.name.as_slice())?,
        lines: lines_of(alloc, classes.lines(class, method.id).flatten())?,
    })
}

// What is known of methods.
fn methods_among(
    alloc: Global,
    classes: &Classes,
    class: ClassId,
    methods: &[Method],
) -> Result<List<KnownMethod>, NoMemory>
    ensures { IfOk result (λ found. found ≡ map (method_found (found_in classes.now) class) methods.now) }
{
    let mut found = List::new(alloc);
    for method in methods {
        found.push(method_found(alloc, classes, class, method)?)?;
    }
    Ok(found)
}

// What is known of a class's methods.
fn methods_found(
    alloc: Global,
    classes: &Classes,
    class: ClassId,
    methods: Option<&List<Method>>,
) -> Result<List<KnownMethod>, NoMemory>
    ensures { IfOk result (λ found.
        found ≡ methods_found (found_in classes.now) class (option_copied methods.entry)) }
{
    match methods {
        Some(methods) => methods_among(alloc, classes, class, methods.as_slice()),
        None => Ok(List::new(alloc)),
    }
}

/// A copy of what is known of a class, if it was loaded.
pub(crate) fn class_found(
    alloc: Global,
    classes: &Classes,
    class: ClassId,
) -> Result<Option<KnownClass>, NoMemory>
    ensures { IfOk result (λ found. found ≡ class_found (found_in classes.now) class) }
{
    let Some(view) = classes.class(class) else {
        return Ok(None);
    };
    let (Some(tag), Some(signature)) = (view.tag, view.signature) else {
        return Ok(None);
    };
    Ok(Some(KnownClass {
        tag,
        signature: Blob::from_slice(alloc, signature.as_slice())?,
        prepared: view.prepared,
        source: copy_of(alloc, view.source.flatten())?,
        methods: methods_found(alloc, classes, class, view.methods)?,
    }))
}
