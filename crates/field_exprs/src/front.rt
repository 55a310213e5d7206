//! What stands at the front of a text, and what is left behind it.
ghost use Rattle.std.specs.Prelude.{◌≡◌, ◌≢◌, List, ℕ, ◌∷◌, ◌≤◌, ◌<◌, ◌+◌, length, take, MatchOption};
ghost use Rattle.std.specs.List.{prefix_len};
ghost use Rattle.std.specs.Str.Parse.{digits_value};
ghost use Rattle.field_exprs.specs.Grammar.{is_blank, begins_name, is_in_name, BeginsIndex};
ghost use Rattle.field_exprs.specs.Reading.{Stops, Skips, IsWordBefore, IsIndexBefore};

use crate::bytes::{begins_name, is_blank, is_in_name, with_digit};

// The most digits of an index.
const MOST_DIGITS: usize = 10;

// The number of blanks at the front.
fn blanks_len(bytes: &[u8]) -> usize
    ensures { result ≡ prefix_len is_blank bytes.now }
{
    bytes.iter().take_while(|byte| is_blank(**byte)).count()
}

// What is left behind the blanks at the front.
pub(crate) fn skip_blanks(text: &str) -> &str
    ensures { Skips is_blank text.now result.now }
{
    let (_, left) = text.split_at(blanks_len(text.as_bytes()));
    left
}

// What stands behind a sign at the front; None exactly where the text begins otherwise.
pub(crate) fn behind(text: &str, sign: char) -> Option<&str>
    requires { sign < 128 }
    ensures { MatchOption result ((rest : List ℕ) → text.now ≢ sign ∷ rest) (λ left. text.now ≡ sign ∷ left.now) }
{
    text.strip_prefix(sign)
}

// The number of bytes at the front that may stand in a name.
fn word_len(bytes: &[u8]) -> usize
    ensures { result ≡ prefix_len is_in_name bytes.now }
{
    bytes.iter().take_while(|byte| is_in_name(**byte)).count()
}

// The word at the front, and what is left; None exactly where none begins there.
pub(crate) fn split_word(text: &str) -> Option<(&str, &str)>
    ensures { MatchOption result (Stops begins_name text.now)
        (λ parts. IsWordBefore text.now parts.0.now parts.1.now) }
{
    let first = *text.as_bytes().first()?;
    if begins_name(first) {
        Some(text.split_at(word_len(text.as_bytes())))
    } else {
        None
    }
}

// How many digits at the front an index may begin with, and their value.
fn index_len(bytes: &[u8]) -> (usize, u32)
    ensures within { result.0 ≤ length bytes.now }
    ensures begins { BeginsIndex (take result.0 bytes.now) }
    ensures value { result.1 ≡ digits_value 10 (take result.0 bytes.now) }
    ensures longest { result.0 < length bytes.now → ¬ BeginsIndex (take (result.0 + 1) bytes.now) }
{
    let mut value = 0;
    for (end, byte) in bytes.iter().enumerate() {
        if end == MOST_DIGITS {
            return (end, value);
        }
        let Some(next) = with_digit(value, *byte) else {
            return (end, value);
        };
        value = next;
    }
    (bytes.len(), value)
}

// The digits at the front that an index may begin with, their value, and what is left.
pub(crate) fn split_index(text: &str) -> (&str, u32, &str)
    ensures parts { IsIndexBefore text.now result.0.now result.2.now }
    ensures value { result.1 ≡ digits_value 10 result.0.now }
{
    let (end, value) = index_len(text.as_bytes());
    let (digits, left) = text.split_at(end);
    (digits, value, left)
}
