//! The bytes that names, blanks and indices are made of.
ghost use Rattle.std.specs.Prelude.{◌≡◌, ◌+◌, ◌*◌, ◌<◌, ◌≤◌};
ghost use Rattle.std.specs.Char.{digit_value};
ghost use Rattle.std.specs.Option.{SomeIff};
ghost use Rattle.field_exprs.specs.Grammar.{is_blank, begins_name, is_in_name};

// Whether a byte is a space or a tab.
pub(crate) fn is_blank(byte: u8) -> bool
    ensures { result ≡ is_blank byte }
{
    byte == b' ' || byte == b'\t'
}

// Whether a name may begin with a byte; those above ASCII are parts of other characters.
pub(crate) fn begins_name(byte: u8) -> bool
    ensures { result ≡ begins_name byte }
{
    byte.is_ascii_alphabetic() || byte == b'_' || byte == b'$' || byte >= 0x80
}

// Whether a byte may stand in a name.
pub(crate) fn is_in_name(byte: u8) -> bool
    ensures { result ≡ is_in_name byte }
{
    begins_name(byte) || byte.is_ascii_digit()
}

// The number that a digit makes of the digits before it; None where the byte is no digit or it is above all indices.
pub(crate) fn with_digit(before: u32, byte: u8) -> Option<u32>
    requires { before ≤ 2147483647 }
    ensures { SomeIff result ((digit_value byte < 10) × (before * 10 + digit_value byte ≤ 2147483647))
        (before * 10 + digit_value byte) }
{
    if !byte.is_ascii_digit() {
        return None;
    }
    let number = u64::from(before) * 10 + u64::from(byte - b'0');
    if number > i32::MAX as u64 {
        None
    } else {
        Some(number as u32)
    }
}
