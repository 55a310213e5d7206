//! What a session asks of what is wanted: which packages are watched, which sources are listed, and what is named.
ghost use Rattle.std.specs.Prelude.{◌≡◌, ◌&&◌, ◌-◌, bytes_eq, drop, length, option_copied};
ghost use Rattle.std.specs.List.{list_any};
ghost use Rattle.wish_sets.specs.declared.wish.Wish.TheVariants as wishes;
ghost use Rattle.wish_sets.specs.Names.{key_parts, same_key, package_name};
ghost use Rattle.wish_sets.specs.Order.{has_wish, is_wish};
ghost use Rattle.wish_sets.specs.Slots.{wishes_in};
ghost use Rattle.wish_sets.specs.Wished.{has_entries, names};

use crate::entry::{FunctionEntry, LineEntry};
use crate::names::{key_file, key_package, method_named};
use crate::slot::Slot;
use crate::spelling::{is_package_name, names_class};
use crate::wish::Wish;
use wire_core::{List, Text};

// Whether a wish watches a package, by its path.
fn is_watch_of(wish: &Wish, path: &[u8]) -> bool
    ensures { result ≡ is_wish (wishes.Watch (package_name path.now)) wish.now }
{
    match wish {
        Wish::Watch(name) => is_package_name(path, name.as_bytes()),
        _ => false,
    }
}

/// Whether one of those that are wished watches a package, by its path.
pub(crate) fn watches(slots: &[Slot], path: &[u8]) -> bool
    ensures { result ≡ has_wish (wishes_in slots.now) (wishes.Watch (package_name path.now)) }
{
    for slot in slots {
        if slot.wished && is_watch_of(&slot.wish, path) {
            return true;
        }
    }
    false
}

// Whether a key ends with a file.
fn ends_with(key: &[u8], file: &[u8]) -> bool
    ensures { result ≡ bytes_eq (drop (length key.now - length file.now) key.now) file.now }
{
    let start = key.len().saturating_sub(file.len());
    &key[start..] == file
}

// Whether a list with an entry at least is that of a source, by its package and its file.
fn is_list_of(list: &(Text, List<LineEntry>), path: &[u8], file: &[u8]) -> bool
    ensures { result ≡ has_entries list.now
        && same_key (key_parts list.now.0) (record { package_path = path.now; file = file.now }) }
{
    let (key, entries) = list;
    // Most lists are those of other files, and the end of the key tells most of these at once.
    if ends_with(key.as_bytes(), file) {
        !entries.is_empty() && key_package(key) == path && key_file(key) == file
    } else {
        false
    }
}

/// Whether a source is listed, by its package and its file.
pub(crate) fn is_listed(lists: &[(Text, List<LineEntry>)], path: &[u8], file: &[u8]) -> bool
    ensures { result ≡ list_any (λ list. has_entries list
        && same_key (key_parts list.0) (record { package_path = path.now; file = file.now })) lists.now }
{
    lists.iter().any(|list| is_list_of(list, path, file))
}

// Whether a function names a class, and a method where one is given.
fn names(signature: &[u8], method: Option<&[u8]>, entry: &FunctionEntry) -> bool
    ensures { result ≡ names signature.now (option_copied method.entry) entry.now }
{
    if !names_class(signature, &entry.name) {
        return false;
    }
    match method {
        Some(method) => method == method_named(&entry.name),
        None => true,
    }
}

/// Whether a function names a class, and a method where one is given.
pub(crate) fn is_named(functions: &[FunctionEntry], signature: &[u8], method: Option<&[u8]>) -> bool
    ensures { result ≡ list_any (names signature.now (option_copied method.entry)) functions.now }
{
    functions
        .iter()
        .any(|entry| names(signature, method, entry))
}
