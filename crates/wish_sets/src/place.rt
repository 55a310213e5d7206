//! The locations at which entries are bound.
ghost use Rattle.std.specs.Prelude.{◌≡◌, ◌++◌, suc, Some, drop, map, filter_map, flat_map, IfOk, OnOk, option_copied, option_map};
ghost use Rattle.class_tables.specs.Views.{binding_entries};
ghost use Rattle.wish_sets.specs.Places.{line_location, line_locations, entry_places, list_places, is_of_key, key_of};
ghost use Rattle.wish_sets.specs.Places.{code_start, method_location, function_locations, function_places, places_in};
ghost use Rattle.wish_sets.specs.Places.{location_at, places};
ghost use Rattle.wish_sets.specs.Counts.{function_places_in, list_places_in};
ghost use Rattle.wish_sets.specs.Kept.{wanted_by};
ghost use Rattle.wish_sets.specs.Wanted.{nothing_wanted};

use crate::entry::{FunctionEntry, LineEntry};
use crate::facts::{KnownClass, KnownMethod};
use crate::names::{key_file, key_package, method_named};
use crate::spelling::names_class;
use crate::wants::Wants;
use class_tables::{line_start, package_in};
use indexmap::IndexMap;
use jdwp_values::{ClassId, Line, LineTable, Location, MethodId};
use std::alloc::Global;
use wire_core::{List, NoMemory, Text};

/// An entry that has a location: its id, whether it is one of a source's lines, and the location.
#[derive(Clone, Copy)]
pub(crate) struct Place {
    pub(crate) id: u64,
    pub(crate) line: bool,
    pub(crate) at: Location,
}

// A location in a method of a class.
fn location_at(class: ClassId, facts: &KnownClass, method: MethodId, index: u64) -> Location
    ensures { result ≡ location_at class facts.now method index }
{
    Location {
        tag: facts.tag,
        class,
        method,
        index,
    }
}

// The entries that a breakpoint may bind to: none in a native method.
fn binding_entries(lines: &Option<LineTable>) -> &[Line]
    ensures { result.now ≡ binding_entries (Some lines.now) }
{
    match lines {
        Some(table) if table.start >= 0 => table.lines.as_slice(),
        _ => &[],
    }
}

// The location at which a line begins in a method.
fn line_location(
    class: ClassId,
    facts: &KnownClass,
    line: i32,
    method: &KnownMethod,
) -> Option<Location>
    ensures { result ≡ line_location class facts.now line method.now }
{
    let index = line_start(line, binding_entries(&method.lines))?;
    Some(location_at(class, facts, method.id, index))
}

// Adds each location of a line that a plain entry has.
fn add_entry_places(
    places: &mut List<Place>,
    class: ClassId,
    facts: &KnownClass,
    entry: LineEntry,
) -> Result<(), NoMemory>
    ensures { OnOk result (places.new ≡ places.old ++ entry_places class facts.now entry) }
{
    if !entry.plain {
        return Ok(());
    }
    for method in facts.methods.as_slice() {
        if let Some(at) = line_location(class, facts, entry.line, method) {
            places.push(Place {
                id: entry.id,
                line: true,
                at,
            })?;
        }
    }
    Ok(())
}

// Whether a class is of a source, by its key.
fn is_of_key(key: &Text, facts: &KnownClass) -> bool
    ensures { result ≡ is_of_key key.now (key_of facts.now) }
{
    match (&facts.source, package_in(facts.signature.as_slice())) {
        (Some(file), Some(package)) => {
            key_package(key) == package && key_file(key) == file.as_slice()
        }
        _ => false,
    }
}

// Adds those of a list, where the class is of its source.
fn add_list_places(
    places: &mut List<Place>,
    class: ClassId,
    facts: &KnownClass,
    key: &Text,
    entries: &[LineEntry],
) -> Result<(), NoMemory>
    ensures { OnOk result (places.new ≡ places.old ++ list_places class facts.now (key.now, entries.now)) }
{
    if !is_of_key(key, facts) {
        return Ok(());
    }
    for entry in entries {
        add_entry_places(places, class, facts, *entry)?;
    }
    Ok(())
}

// Adds those of all lists.
fn add_lists_places(
    places: &mut List<Place>,
    class: ClassId,
    facts: &KnownClass,
    lists: &[(Text, List<LineEntry>)],
) -> Result<(), NoMemory>
    ensures { OnOk result (places.new ≡ places.old ++ flat_map (list_places class facts.now) lists.now) }
{
    for list in lists {
        add_list_places(places, class, facts, &list.0, list.1.as_slice())?;
    }
    Ok(())
}

// The first index of a method's code, nowhere in a native method.
fn code_start(lines: &Option<LineTable>) -> Option<u64>
    ensures { result ≡ code_start lines.now }
{
    match lines {
        Some(table) if table.start >= 0 => Some(table.start.unsigned_abs()),
        _ => None,
    }
}

// The location at which a method begins, where it has this name.
fn method_location(
    class: ClassId,
    facts: &KnownClass,
    name: &[u8],
    method: &KnownMethod,
) -> Option<Location>
    ensures { result ≡ method_location class facts.now name.now method.now }
{
    if name != method.name.as_slice() {
        return None;
    }
    let index = code_start(&method.lines)?;
    Some(location_at(class, facts, method.id, index))
}

// Adds each location of a plain function.
fn add_function_places(
    places: &mut List<Place>,
    class: ClassId,
    facts: &KnownClass,
    entry: &FunctionEntry,
) -> Result<(), NoMemory>
    ensures { OnOk result (places.new ≡ places.old ++ function_places class facts.now entry.now) }
{
    if !entry.plain || !names_class(facts.signature.as_slice(), &entry.name) {
        return Ok(());
    }
    let name = method_named(&entry.name);
    for method in facts.methods.as_slice() {
        if let Some(at) = method_location(class, facts, name, method) {
            places.push(Place {
                id: entry.id,
                line: false,
                at,
            })?;
        }
    }
    Ok(())
}

// Adds those of all functions.
fn add_functions_places(
    places: &mut List<Place>,
    class: ClassId,
    facts: &KnownClass,
    functions: &[FunctionEntry],
) -> Result<(), NoMemory>
    ensures { OnOk result (places.new ≡ places.old ++ flat_map (function_places class facts.now) functions.now) }
{
    for entry in functions {
        add_function_places(places, class, facts, entry)?;
    }
    Ok(())
}

/// Adds those in a class, none before it is prepared.
pub(crate) fn add_class_places(
    places: &mut List<Place>,
    lists: &[(Text, List<LineEntry>)],
    functions: &[FunctionEntry],
    class: ClassId,
    facts: &KnownClass,
) -> Result<(), NoMemory>
    ensures { OnOk result (places.new ≡ places.old
        ++ places_in (record nothing_wanted { lists = lists.now; functions = functions.now }) (class, facts.now)) }
{
    if !facts.prepared {
        return Ok(());
    }
    add_lists_places(places, class, facts, lists)?;
    add_functions_places(places, class, facts, functions)
}

// Adds those in the class at a place, if there is one.
fn add_places_at(places: &mut List<Place>, wants: &Wants, at: usize) -> Result<(), NoMemory>
    ensures { OnOk result (places.new ++ flat_map (places_in (wanted_by wants.now)) (drop (suc at) wants.now.classes.entries)
        ≡ places.old ++ flat_map (places_in (wanted_by wants.now)) (drop at wants.now.classes.entries)) }
{
    let Some((class, facts)) = wants.classes.get_index(at) else {
        return Ok(());
    };
    add_class_places(
        places,
        &wants.lists,
        wants.functions.as_slice(),
        *class,
        facts,
    )?;
    Ok(())
}

/// The places of all entries, class by class; `NoMemory` comes where memory is refused.
pub(crate) fn places(alloc: Global, wants: &Wants) -> Result<List<Place>, NoMemory>
    ensures { IfOk result (λ found. found ≡ places (wanted_by wants.now)) }
{
    let mut found = List::new(alloc);
    for at in 0..wants.classes.len() {
        add_places_at(&mut found, wants, at)?;
    }
    Ok(found)
}

// Adds those of a list in the class at a place, if there is one.
fn add_list_places_at(
    places: &mut List<Place>,
    classes: &IndexMap<ClassId, KnownClass>,
    at: usize,
    key: &Text,
    entries: &[LineEntry],
) -> Result<(), NoMemory>
    ensures { OnOk result
        (places.new ++ flat_map (list_places_in (key.now, entries.now)) (drop (suc at) classes.now.entries)
        ≡ places.old ++ flat_map (list_places_in (key.now, entries.now)) (drop at classes.now.entries)) }
{
    let Some((class, facts)) = classes.get_index(at) else {
        return Ok(());
    };
    add_list_places_in(places, *class, facts, key, entries)?;
    Ok(())
}

// Adds those of a list in a class, none before it is prepared.
fn add_list_places_in(
    places: &mut List<Place>,
    class: ClassId,
    facts: &KnownClass,
    key: &Text,
    entries: &[LineEntry],
) -> Result<(), NoMemory>
    ensures { OnOk result (places.new ≡ places.old ++ list_places_in (key.now, entries.now) (class, facts.now)) }
{
    if !facts.prepared {
        return Ok(());
    }
    add_list_places(places, class, facts, key, entries)
}

/// The places of a list, class by class; `NoMemory` comes where memory is refused.
pub(crate) fn list_places(
    alloc: Global,
    classes: &IndexMap<ClassId, KnownClass>,
    key: &Text,
    entries: &[LineEntry],
) -> Result<List<Place>, NoMemory>
    ensures { IfOk result (λ found.
        found ≡ flat_map (list_places_in (key.now, entries.now)) classes.now.entries) }
{
    let mut found = List::new(alloc);
    for at in 0..classes.len() {
        add_list_places_at(&mut found, classes, at, key, entries)?;
    }
    Ok(found)
}

// Adds those of functions in a class, none before it is prepared.
fn add_functions_places_in(
    places: &mut List<Place>,
    class: ClassId,
    facts: &KnownClass,
    functions: &[FunctionEntry],
) -> Result<(), NoMemory>
    ensures { OnOk result (places.new ≡ places.old ++ function_places_in functions.now (class, facts.now)) }
{
    if !facts.prepared {
        return Ok(());
    }
    add_functions_places(places, class, facts, functions)
}

// Adds those of functions in the class at a place, if there is one.
fn add_functions_places_at(
    places: &mut List<Place>,
    classes: &IndexMap<ClassId, KnownClass>,
    at: usize,
    functions: &[FunctionEntry],
) -> Result<(), NoMemory>
    ensures { OnOk result
        (places.new ++ flat_map (function_places_in functions.now) (drop (suc at) classes.now.entries)
        ≡ places.old ++ flat_map (function_places_in functions.now) (drop at classes.now.entries)) }
{
    let Some((class, facts)) = classes.get_index(at) else {
        return Ok(());
    };
    add_functions_places_in(places, *class, facts, functions)?;
    Ok(())
}

/// The places of functions, class by class; `NoMemory` comes where memory is refused.
pub(crate) fn functions_places(
    alloc: Global,
    classes: &IndexMap<ClassId, KnownClass>,
    functions: &[FunctionEntry],
) -> Result<List<Place>, NoMemory>
    ensures { IfOk result (λ found. found ≡ flat_map (function_places_in functions.now) classes.now.entries) }
{
    let mut found = List::new(alloc);
    for at in 0..classes.len() {
        add_functions_places_at(&mut found, classes, at, functions)?;
    }
    Ok(found)
}
