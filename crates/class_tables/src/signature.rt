ghost use Rattle.std.specs.Prelude.{◌≡◌};
ghost use Rattle.std.specs.Option.{option_copied};
ghost use Rattle.class_tables.specs.Signatures.{class_path, package_of, package_in};

/// The path of the package in a class's signature, empty in the default package; `None` exactly where the signature is
/// not that of a class (JNI specification, Types and Data Structures, Type Signatures).
pub fn package_in(signature: &[u8]) -> Option<&[u8]>
    ensures { option_copied result ≡ package_in signature.now }
{
    Some(package_of(class_path(signature)?))
}

/// The path in a class's signature; `None` exactly where it is not that of a class, as an array's and a primitive type's
/// (JNI specification, Types and Data Structures, Type Signatures).
pub fn class_path(signature: &[u8]) -> Option<&[u8]>
    ensures { option_copied result ≡ class_path signature.now }
{
    match signature {
        [b'L', path @ .., b';'] => Some(path),
        _ => None,
    }
}

// The package of a class's path: what stands before its last `/`.
fn package_of(path: &[u8]) -> &[u8]
    ensures { result.now ≡ package_of path.now }
{
    let mut end = path.len();
    while end > 0 {
        end -= 1;
        if path[end] == b'/' {
            return &path[..end];
        }
    }
    &path[..0]
}
