//! Names of types.
ghost use Rattle.std.specs.Prelude.{◌≡◌, ◌++◌, IfOk, map, option_copied};
ghost use Rattle.value_views.specs.Names.{primitive_of, primitive_in, class_path, dotted, plain_name, element_in};
ghost use Rattle.value_views.specs.Names.{dot_for, brackets, class_name};

use jdwp_values::lossy;
use std::alloc::{AllocError, Global};
use wire_core::{NoMemory, Text};

// The primitive type of a byte.
fn primitive_of(byte: u8) -> Option<&'static str>
    ensures { option_copied result ≡ primitive_of byte }
{
    match byte {
        b'B' => Some("byte"),
        b'C' => Some("char"),
        b'D' => Some("double"),
        b'F' => Some("float"),
        b'I' => Some("int"),
        b'J' => Some("long"),
        b'S' => Some("short"),
        b'Z' => Some("boolean"),
        b'V' => Some("void"),
        _ => None,
    }
}

// The primitive type in a signature.
fn primitive_in(signature: &[u8]) -> Option<&'static str>
    ensures { option_copied result ≡ primitive_in signature.now }
{
    match signature {
        [byte] => primitive_of(*byte),
        _ => None,
    }
}

// The path in a class's signature.
fn class_path(signature: &[u8]) -> Option<&[u8]>
    ensures { option_copied result ≡ class_path signature.now }
{
    match signature {
        [b'L', path @ .., b';'] => Some(path),
        _ => None,
    }
}

// A byte of a class's path, as it stands in the class's name.
fn dot_for(byte: u8) -> u8
    ensures { result ≡ dot_for byte }
{
    if byte == b'/' { b'.' } else { byte }
}

// A class's path with `.` for `/`.
fn with_dots(alloc: Global, path: &[u8]) -> Result<Vec<u8>, AllocError>
    ensures { IfOk result (λ bytes. bytes.items ≡ map dot_for path.now) }
{
    path.iter().map(|byte| dot_for(*byte)).collect(alloc)
}

// A class's path with `.` for `/`, as text.
fn dotted(alloc: Global, path: &[u8]) -> Result<Text, NoMemory>
    ensures { IfOk result (λ name. name ≡ dotted path.now) }
{
    let bytes = with_dots(alloc, path)?;
    lossy(alloc, bytes.as_slice())
}

// The name of a type that is no array.
fn plain_name(alloc: Global, signature: &[u8]) -> Result<Text, NoMemory>
    ensures { IfOk result (λ name. name ≡ plain_name signature.now) }
{
    if let Some(name) = primitive_in(signature) {
        return Text::from_str(alloc, name);
    }
    match class_path(signature) {
        Some(path) => dotted(alloc, path),
        None => lossy(alloc, signature),
    }
}

// The signature of an array's elements.
fn element_in(signature: &[u8]) -> Option<&[u8]>
    ensures { option_copied result ≡ element_in signature.now }
{
    match signature {
        [b'[', rest @ ..] => Some(rest),
        _ => None,
    }
}

// The signature of what an array has in all its dimensions, and how many these are.
fn innermost(signature: &[u8]) -> (&[u8], usize)
    ensures { class_name signature.now ≡ plain_name result.0.now ++ brackets result.1 }
{
    let mut element = signature;
    let mut dimensions = 0;
    while let Some(rest) = element_in(element) {
        element = rest;
        dimensions += 1;
    }
    (element, dimensions)
}

/// The name of a type by its signature: a primitive type's, a class's with `.` between the parts of its path, an
/// array's with `[]` behind that of its elements; another signature's own text. Bytes that begin no character are shown
/// as U+FFFD. `NoMemory` comes where memory is refused (JNI specification, Types and Data Structures, Type Signatures).
pub fn class_name(alloc: Global, signature: &[u8]) -> Result<Text, NoMemory>
    ensures { IfOk result (λ name. name ≡ class_name signature.now) }
{
    let (element, dimensions) = innermost(signature);
    let name = plain_name(alloc, element)?;
    let mut text = String::from_str(alloc, name.as_str())?;
    for _dimension in 0..dimensions {
        text.push_str("[]")?;
    }
    Ok(Text::from_string(text))
}
