//! Chars of the target read from texts.
ghost use Rattle.std.specs.Prelude.{◌≡◌, ◌≢◌, ◌++◌, List, ℕ, codes, MatchOption};
ghost use Rattle.std.specs.Int.{is_in_range};
ghost use Rattle.value_views.specs.Chars.{hex_value, escaped_in, behind_backslash, unquoted};
ghost use Rattle.value_views.specs.Reads.{char_in};

// The value of a digit in lower-case hexadecimal.
fn hex_value(byte: u8) -> Option<u16>
    ensures { result ≡ hex_value byte }
{
    match byte {
        b'0'..=b'9' => Some(u16::from(byte - b'0')),
        b'a'..=b'f' => Some(u16::from(byte - b'a') + 10),
        _ => None,
    }
}

// Whether a char is shown as itself, or behind `\`.
fn is_printing(char: u16) -> bool
    ensures { result ≡ is_in_range 32 126 char }
{
    32 <= char && char <= 126
}

// The char of four digits.
fn escaped_in(digits: &[u8]) -> Option<u16>
    ensures { result ≡ escaped_in digits.now }
{
    let [a, b, c, d] = digits else {
        return None;
    };
    let first = hex_value(*a)? * 16 + hex_value(*b)?;
    let number = (first * 16 + hex_value(*c)?) * 16 + hex_value(*d)?;
    if is_printing(number) {
        None
    } else {
        Some(number)
    }
}

// The char behind `\`.
fn behind_backslash(bytes: &[u8]) -> Option<u16>
    ensures { result ≡ behind_backslash bytes.now }
{
    match bytes {
        [b'\''] => Some(39),
        [b'\\'] => Some(92),
        [b'u', digits @ ..] => escaped_in(digits),
        _ => None,
    }
}

// The char between quotes.
fn unquoted(inside: &[u8]) -> Option<u16>
    ensures { result ≡ unquoted inside.now }
{
    match inside {
        [b'\\', bytes @ ..] => behind_backslash(bytes),
        [b'\''] => None,
        [byte] => {
            let char = u16::from(*byte);
            if is_printing(char) { Some(char) } else { None }
        }
        _ => None,
    }
}

// What stands between quotes.
fn between_quotes(text: &str) -> Option<&str>
    ensures { MatchOption result ((inside : List ℕ) → text.now ≢ codes "'" ++ inside ++ codes "'")
        (λ inside. text.now ≡ codes "'" ++ inside.now ++ codes "'") }
{
    let Some(rest) = text.strip_prefix('\'') else {
        return None;
    };
    rest.strip_suffix('\'')
}

// The char that a text is.
pub(crate) fn char_in(text: &str) -> Option<u16>
    ensures { result ≡ char_in text.now }
{
    match between_quotes(text) {
        Some(inside) => unquoted(inside.as_bytes()),
        None => None,
    }
}
