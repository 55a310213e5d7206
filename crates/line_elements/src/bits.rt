//! Bits of a value as text, and the bits that a text is.
ghost use Rattle.std.specs.Prelude.{◌≡◌, IfOk};
ghost use Rattle.line_elements.specs.Bits.{bits_text, digit_of, with_digit, number_on, is_bare, number_of, bits_of};

use std::alloc::Global;
use wire_core::{NoMemory, Text};

/// The text of bits: `0x`, and lower-case hexadecimal digits without leading zeros. `NoMemory` comes where memory is
/// refused.
#[tactic(auto, unfolding(crate::specs::Bits::bits_text))]
pub fn bits_text(alloc: Global, bits: u64) -> Result<Text, NoMemory>
    ensures { IfOk result (λ text. text ≡ bits_text bits) }
{
    Ok(Text::from_string(format!(in alloc; "0x{bits:x}")?))
}

/// The bits that a text is; `None` where it is spelled otherwise than `bits_text` spells a number.
#[tactic(auto, unfolding(crate::specs::Bits::bits_of))]
pub fn bits_of(text: &str) -> Option<u64>
    ensures { result ≡ bits_of text.now }
{
    match text.as_bytes() {
        [b'0', b'x', digits @ ..] => number_of(digits),
        _ => None,
    }
}

// The number of one to sixteen digits without leading zeros.
fn number_of(digits: &[u8]) -> Option<u64>
    ensures { result ≡ number_of digits.now }
{
    if is_bare(digits) {
        number_in(digits)
    } else {
        None
    }
}

// Whether there is a digit, and no zero in front of another.
fn is_bare(digits: &[u8]) -> bool
    ensures { result ≡ is_bare digits.now }
{
    match digits {
        [] => false,
        [_only] => true,
        [first, ..] => *first != b'0',
    }
}

// The number that digits are.
fn number_in(digits: &[u8]) -> Option<u64>
    ensures { result ≡ number_on 0 digits.now }
{
    let mut number = 0;
    for digit in digits {
        number = with_digit(number, *digit)?;
    }
    Some(number)
}

// The number that a digit more makes, where it has 64 bits.
fn with_digit(number: u64, digit: u8) -> Option<u64>
    ensures { result ≡ with_digit number digit }
{
    if number < 1 << 60 {
        Some(number * 16 + u64::from(digit_of(digit)?))
    } else {
        None
    }
}

// The value of a digit, where the letters are lower-case.
fn digit_of(byte: u8) -> Option<u8>
    ensures { result ≡ digit_of byte }
{
    match byte {
        b'0'..=b'9' => Some(byte - b'0'),
        b'a'..=b'f' => Some(byte - b'a' + 10),
        _ => None,
    }
}
