//! Whether a text is the name of a package or of a class, by the path that a signature has.
ghost use Rattle.std.specs.Prelude.{◌≡◌, ◌∷◌, bytes_eq, drop, option_map, option_copied};
ghost use Rattle.std.specs.Str.{is_utf8};
ghost use Rattle.jdwp_values.specs.Lossy.{continued};
ghost use Rattle.class_tables.specs.Signatures.{class_path, package_in};
ghost use Rattle.wish_sets.specs.Names.{dotted, is_text, package_name, name_in, names_class};
ghost use Rattle.wish_sets.specs.Spelling.{dot_for, rest_behind, rest_behind_replaced, gone_on};

use crate::names::{class_named, has_class, package_named};
use class_tables::{class_path, package_in};
use wire_core::Text;

// A byte of a path, as it stands in a name.
fn dot_for(byte: u8) -> u8
    ensures { result ≡ dot_for byte }
{
    if byte == b'/' { b'.' } else { byte }
}

// Whether bytes are well-formed UTF-8.
fn is_text(bytes: &[u8]) -> bool
    ensures { result ≡ is_utf8 bytes.now }
{
    match std::str::from_utf8(bytes) {
        Ok(_) => true,
        Err(_) => false,
    }
}

// How many of the bytes behind the first go on with the well-formed sequence that it begins in a name, where it begins
// one.
fn continued(first: u8, rest: &[u8]) -> Option<usize>
    ensures { result ≡ continued (dot_for first) (dotted rest.now) }
{
    let first = dot_for(first);
    if is_text(&[first]) {
        return Some(0);
    }
    let [second, rest @ ..] = rest else {
        return None;
    };
    let second = dot_for(*second);
    if is_text(&[first, second]) {
        return Some(1);
    }
    let [third, rest @ ..] = rest else {
        return None;
    };
    let third = dot_for(*third);
    if is_text(&[first, second, third]) {
        return Some(2);
    }
    let [fourth, ..] = rest else {
        return None;
    };
    let fourth = dot_for(*fourth);
    if is_text(&[first, second, third, fourth]) {
        Some(3)
    } else {
        None
    }
}

// The rest of a name behind the byte at its front, where it is this one.
fn rest_behind(name: &[u8], byte: u8) -> Option<&[u8]>
    ensures { option_copied result ≡ rest_behind name.now byte }
{
    match name {
        [first, rest @ ..] if *first == byte => Some(rest),
        _ => None,
    }
}

// The rest of a name behind U+FFFD at its front.
fn rest_behind_replaced(name: &[u8]) -> Option<&[u8]>
    ensures { option_copied result ≡ rest_behind_replaced name.now }
{
    match name {
        [0xEF, 0xBF, 0xBD, rest @ ..] => Some(rest),
        _ => None,
    }
}

// Where a byte of a path goes on with a name, as so many bytes go on with a sequence that began before it: how many go
// on with it behind the byte, and the rest of the name.
fn go_on<'a>(byte: u8, path: &[u8], pending: usize, name: &'a [u8]) -> Option<(usize, &'a [u8])>
    ensures { option_map (λ next. (next.0, next.1.now)) result ≡ gone_on byte path.now pending name.now }
{
    if pending > 0 {
        return Some((pending - 1, rest_behind(name, dot_for(byte))?));
    }
    match continued(byte, path) {
        Some(count) => Some((count, rest_behind(name, dot_for(byte))?)),
        None => Some((0, rest_behind_replaced(name)?)),
    }
}

/// Whether a text is the name of a package or of a class, by its path. It takes no memory.
pub(crate) fn is_package_name(path: &[u8], name: &[u8]) -> bool
    ensures { result ≡ bytes_eq name.now (package_name path.now) }
{
    let mut path = path;
    let mut name = name;
    let mut pending = 0;
    while let Some((byte, rest)) = path.split_first() {
        let Some((count, behind)) = go_on(*byte, rest, pending, name) else {
            return false;
        };
        pending = count;
        name = behind;
        path = rest;
    }
    name.is_empty()
}

// Whether a text is the name of what stands under a path, where there is one.
fn is_name_of(path: Option<&[u8]>, name: &[u8]) -> bool
    ensures { result ≡ is_text name.now (option_map package_name (option_copied path.entry)) }
{
    match path {
        Some(path) => is_package_name(path, name),
        None => false,
    }
}

/// Whether a function names the class of a signature. It takes no memory.
pub(crate) fn names_class(signature: &[u8], function: &Text) -> bool
    ensures { result ≡ names_class signature.now function.now }
{
    has_class(function)
        && is_name_of(class_path(signature), class_named(function))
        && is_name_of(package_in(signature), package_named(function))
}
