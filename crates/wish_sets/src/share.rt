//! What a list, the functions and a class wish, each by itself, so that what is wished changes by these parts.
ghost use Rattle.std.specs.Prelude.{◌≡◌, ◌↔◌, ◌++◌, [], IsTrue, Some, bytes_eq, map, IfOk, OnOk, option_copied};
ghost use Rattle.std.specs.List.{position_from};
ghost use Rattle.std.specs.Map.{lookup};
ghost use Rattle.wish_sets.specs.Counts.{class_share, function_share, list_entry_watches, list_share, listed_share};
ghost use Rattle.wish_sets.specs.Counts.{option_share};
ghost use Rattle.wish_sets.specs.Forming.{function_watches};
ghost use Rattle.wish_sets.specs.Names.{package_named};
ghost use Rattle.wish_sets.specs.Wanted.{nothing_wanted};
ghost use Rattle.wish_sets.specs.declared.wish.Wish.TheVariants as wishes;

use crate::entry::{FunctionEntry, LineEntry};
use crate::facts::KnownClass;
use crate::names::{has_class, key_package, package_name, package_named};
use crate::place::{Place, add_class_places, functions_places, list_places};
use crate::wants::Wants;
use crate::wish::Wish;
use indexmap::IndexMap;
use jdwp_values::{ClassId, lossy};
use std::alloc::Global;
use wire_core::{List, NoMemory, Text};

/// The entries that are listed: those of sources, and functions.
#[derive(Clone, Copy)]
pub(crate) struct Entries<'a> {
    pub(crate) lists: &'a [(Text, List<LineEntry>)],
    pub(crate) functions: &'a [FunctionEntry],
}

/// What is wished more, and what is wished less, each as often as it is.
#[derive(Drop)]
pub(crate) struct Shift {
    pub(crate) added: Vec<Wish>,
    pub(crate) taken: Vec<Wish>,
}

impl Shift {
    /// Nothing is wished more or less; it takes no memory.
    pub(crate) fn new(alloc: Global) -> Shift
        ensures added { result.added.items ≡ [] }
        ensures taken { result.taken.items ≡ [] }
    {
        Shift {
            added: Vec::new(alloc),
            taken: Vec::new(alloc),
        }
    }

    /// Nothing is wished more or less.
    pub(crate) fn is_nothing(&self) -> bool
        ensures { IsTrue result ↔ ((self.now.added.items ≡ []) × (self.now.taken.items ≡ [])) }
    {
        self.added.is_empty() && self.taken.is_empty()
    }
}

// Adds the package of a source, once for each entry.
fn add_list_watches(
    found: &mut Vec<Wish>,
    alloc: Global,
    key: &Text,
    entries: &[LineEntry],
) -> Result<(), NoMemory>
    ensures { OnOk result (found.new.items ≡ found.old.items ++ list_entry_watches (key.now, entries.now)) }
{
    for _entry in entries {
        found.push(Wish::Watch(package_name(alloc, key_package(key))?))?;
    }
    Ok(())
}

// The package of a function's class, as a text.
fn package_text(alloc: Global, function: &Text) -> Result<Text, NoMemory>
    ensures { IfOk result (λ name. name ≡ package_named function.now) }
{
    let _ = function.as_str();
    lossy(alloc, package_named(function))
}

// Adds the packages of functions that name a class.
fn add_function_watches(
    found: &mut Vec<Wish>,
    alloc: Global,
    functions: &[FunctionEntry],
) -> Result<(), NoMemory>
    ensures { OnOk result (found.new.items ≡ found.old.items ++ function_watches functions.now) }
{
    for entry in functions {
        if has_class(&entry.name) {
            found.push(Wish::Watch(package_text(alloc, &entry.name)?))?;
        }
    }
    Ok(())
}

// Adds the breakpoints at some places.
fn add_stops(found: &mut Vec<Wish>, places: &[Place]) -> Result<(), NoMemory>
    ensures { OnOk result (found.new.items ≡ found.old.items ++ map (λ place. wishes.Stop place.at) places.now) }
{
    for place in places {
        found.push(Wish::Stop(place.at))?;
    }
    Ok(())
}

/// What a list wishes; `NoMemory` comes where memory is refused.
pub(crate) fn list_share(
    alloc: Global,
    classes: &IndexMap<ClassId, KnownClass>,
    key: &Text,
    entries: &[LineEntry],
) -> Result<Vec<Wish>, NoMemory>
    ensures { IfOk result (λ found. found.items ≡ list_share classes.now.entries (key.now, entries.now)) }
{
    let mut found = Vec::new(alloc);
    add_list_watches(&mut found, alloc, key, entries)?;
    let places = list_places(alloc, classes, key, entries)?;
    add_stops(&mut found, places.as_slice())?;
    Ok(found)
}

/// What functions wish; `NoMemory` comes where memory is refused.
pub(crate) fn function_share(
    alloc: Global,
    classes: &IndexMap<ClassId, KnownClass>,
    functions: &[FunctionEntry],
) -> Result<Vec<Wish>, NoMemory>
    ensures { IfOk result (λ found. found.items ≡ function_share classes.now.entries functions.now) }
{
    let mut found = Vec::new(alloc);
    add_function_watches(&mut found, alloc, functions)?;
    let places = functions_places(alloc, classes, functions)?;
    add_stops(&mut found, places.as_slice())?;
    Ok(found)
}

/// Adds what is wished in a class; `NoMemory` comes where memory is refused.
pub(crate) fn add_class_share(
    found: &mut Vec<Wish>,
    alloc: Global,
    entries: Entries<'_>,
    class: ClassId,
    facts: &KnownClass,
) -> Result<(), NoMemory>
    ensures { OnOk result (found.new.items ≡ found.old.items
        ++ class_share
        (record nothing_wanted { lists = entries.entry.lists.now; functions = entries.entry.functions.now })
        (class, facts.now)) }
{
    let mut places = List::new(alloc);
    add_class_places(&mut places, entries.lists, entries.functions, class, facts)?;
    add_stops(found, places.as_slice())
}

/// Adds what is wished in a class that may not be known; `NoMemory` comes where memory is refused.
pub(crate) fn add_known_share(
    found: &mut Vec<Wish>,
    alloc: Global,
    entries: Entries<'_>,
    class: ClassId,
    facts: Option<&KnownClass>,
) -> Result<(), NoMemory>
    ensures { OnOk result (found.new.items ≡ found.old.items
        ++ option_share
        (record nothing_wanted { lists = entries.entry.lists.now; functions = entries.entry.functions.now }) class
        (option_copied facts.entry)) }
{
    match facts {
        Some(facts) => add_class_share(found, alloc, entries, class, facts),
        None => Ok(()),
    }
}

// What the list of a source wishes that stands at a place, nothing where there is none.
fn share_at(
    alloc: Global,
    wants: &Wants,
    at: Option<usize>,
    key: &Text,
) -> Result<Vec<Wish>, NoMemory>
    requires { at ≡ position_from (λ list. bytes_eq key.now list.0) 0 wants.now.lists.items }
    ensures { IfOk result (λ found. found.items
        ≡ listed_share wants.now.classes.entries key.now (lookup (bytes_eq key.now) wants.now.lists.items)) }
{
    match at {
        Some(at) => list_at_share(alloc, &wants.classes, &wants.lists, at, key),
        None => Ok(Vec::new(alloc)),
    }
}

// What the list at a place wishes, nothing where there is none.
fn list_at_share(
    alloc: Global,
    classes: &IndexMap<ClassId, KnownClass>,
    lists: &[(Text, List<LineEntry>)],
    at: usize,
    key: &Text,
) -> Result<Vec<Wish>, NoMemory>
    requires { Some at ≡ position_from (λ list. bytes_eq key.now list.0) 0 lists.now }
    ensures { IfOk result (λ found. found.items
        ≡ listed_share classes.now.entries key.now (lookup (bytes_eq key.now) lists.now)) }
{
    if at >= lists.len() {
        return Ok(Vec::new(alloc));
    }
    list_share(alloc, classes, key, lists[at].1.as_slice())
}

/// What is wished more and less where the list of a source is replaced; `NoMemory` comes where memory is refused.
pub(crate) fn lines_shift(
    alloc: Global,
    wants: &Wants,
    at: Option<usize>,
    key: &Text,
    entries: &[LineEntry],
) -> Result<Shift, NoMemory>
    requires { at ≡ position_from (λ list. bytes_eq key.now list.0) 0 wants.now.lists.items }
    ensures added { IfOk result (λ shift.
        shift.added.items ≡ list_share wants.now.classes.entries (key.now, entries.now)) }
    ensures taken { IfOk result (λ shift. shift.taken.items
        ≡ listed_share wants.now.classes.entries key.now (lookup (bytes_eq key.now) wants.now.lists.items)) }
{
    let added = list_share(alloc, &wants.classes, key, entries)?;
    let taken = share_at(alloc, wants, at, key)?;
    Ok(Shift { added, taken })
}

/// What is wished more and less where the functions are replaced; `NoMemory` comes where memory is refused.
pub(crate) fn functions_shift(
    alloc: Global,
    wants: &Wants,
    entries: &[FunctionEntry],
) -> Result<Shift, NoMemory>
    ensures added { IfOk result (λ shift.
        shift.added.items ≡ function_share wants.now.classes.entries entries.now) }
    ensures taken { IfOk result (λ shift.
        shift.taken.items ≡ function_share wants.now.classes.entries wants.now.functions) }
{
    let added = function_share(alloc, &wants.classes, entries)?;
    let taken = function_share(alloc, &wants.classes, wants.functions.as_slice())?;
    Ok(Shift { added, taken })
}
