//! The names of packages, sources, classes and functions.
ghost use Rattle.std.specs.Prelude.{◌≡◌, ◌-◌, ◌<◌, ◌≤◌, ◌==◌, not, IfOk, IsUtf8, length, slice_index_or};
ghost use Rattle.std.specs.List.{before_last, after_last, suffix_len};
ghost use Rattle.wish_sets.specs.Names.{dotted, package_name, package_named, key_parts, class_named, method_named};
ghost use Rattle.wish_sets.specs.Names.{has_class};

use jdwp_values::lossy;
use std::alloc::{AllocError, Global};
use wire_core::{NoMemory, Text};

// The place behind the last byte of this kind, 0 where there is none.
fn end_of_last(bytes: &[u8], last: u8) -> usize
    ensures place { result ≡ length bytes.now - suffix_len (λ byte. not (byte == last)) bytes.now }
    ensures within { result ≤ length bytes.now }
    ensures found { 0 < result → slice_index_or bytes.now (result - 1) 0 ≡ last }
{
    let mut end = bytes.len();
    while end > 0 && bytes[end - 1] != last {
        end -= 1;
    }
    end
}

/// What stands before the last byte of this kind, nothing where there is none.
pub(crate) fn before_last(bytes: &[u8], last: u8) -> &[u8]
    ensures front { result.now ≡ before_last (λ byte. byte == last) bytes.now }
    ensures utf8 { last < 128 → IsUtf8 bytes.now → IsUtf8 result.now }
{
    let end = end_of_last(bytes, last);
    if end == 0 {
        &bytes[..0]
    } else {
        &bytes[..end - 1]
    }
}

/// What stands behind the last byte of this kind, all where there is none.
pub(crate) fn after_last(bytes: &[u8], last: u8) -> &[u8]
    ensures { result.now ≡ after_last (λ byte. byte == last) bytes.now }
{
    &bytes[end_of_last(bytes, last)..]
}

/// The path of the package of a source, by its key (DAP specification, Types, Source, path).
pub fn key_package(key: &Text) -> &[u8]
    ensures { result.now ≡ (key_parts key.now).package_path }
{
    before_last(key.as_bytes(), b'/')
}

/// The file of a source, by its key (DAP specification, Types, Source, path).
pub fn key_file(key: &Text) -> &[u8]
    ensures { result.now ≡ (key_parts key.now).file }
{
    after_last(key.as_bytes(), b'/')
}

/// The name of the class of a function.
pub(crate) fn class_named(function: &Text) -> &[u8]
    ensures name { result.now ≡ class_named function.now }
    ensures utf8 { IsUtf8 function.now → IsUtf8 result.now }
{
    before_last(function.as_bytes(), b'.')
}

/// The name of the method of a function.
pub(crate) fn method_named(function: &Text) -> &[u8]
    ensures { result.now ≡ method_named function.now }
{
    after_last(function.as_bytes(), b'.')
}

/// The package of the class of a function.
pub(crate) fn package_named(function: &Text) -> &[u8]
    ensures name { result.now ≡ package_named function.now }
    ensures utf8 { IsUtf8 function.now → IsUtf8 result.now }
{
    before_last(class_named(function), b'.')
}

/// Whether a function names a class.
pub(crate) fn has_class(function: &Text) -> bool
    ensures { result ≡ has_class function.now }
{
    function.as_bytes().iter().any(|byte| *byte == b'.')
}

// A path with `.` for `/`.
fn dotted(alloc: Global, path: &[u8]) -> Result<Vec<u8>, AllocError>
    ensures { IfOk result (λ bytes. bytes.items ≡ dotted path.now) }
{
    path.iter()
        .map(|byte| if *byte == b'/' { b'.' } else { *byte })
        .collect(alloc)
}

/// The name of a package, from the path that a signature has.
pub(crate) fn package_name(alloc: Global, path: &[u8]) -> Result<Text, NoMemory>
    ensures { IfOk result (λ name. name ≡ package_name path.now) }
{
    let bytes = dotted(alloc, path)?;
    lossy(alloc, bytes.as_slice())
}
