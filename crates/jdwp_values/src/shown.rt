//! Strings of the target as text, whatever bytes they have.

ghost use Rattle.std.specs.Prelude.{◌≡◌, ◌++◌, ◌∷◌, List, ℕ, IfOk, IsUtf8};
ghost use Rattle.std.specs.Str.{StartsWithNoChar};
ghost use Rattle.std.specs.Str.Lossy.{replacement_bytes};
ghost use Rattle.jdwp_values.specs.Lossy.{lossy};

use std::alloc::Global;
use wire_core::{NoMemory, Text};

/// The longest well-formed text at the front, and the bytes behind it.
fn text_at_front(bytes: &[u8]) -> (&str, &[u8])
    ensures parts { bytes.now ≡ result.0.now ++ result.1.now }
    ensures text { IsUtf8 result.0.now }
    ensures behind { StartsWithNoChar result.1.now }
{
    match std::str::from_utf8(bytes) {
        Ok(text) => (text, &[]),
        Err(fault) => {
            let (front, behind) = bytes.split_at(fault.valid_up_to());
            match std::str::from_utf8(front) {
                Ok(text) => (text, behind),
                Err(_) => unreachable!(),
            }
        }
    }
}

/// The text of a string's bytes: each byte that begins no well-formed UTF-8 sequence is shown as U+FFFD. `NoMemory`
/// comes where memory is refused (JDWP, Detailed Command Information, common data types, string).
pub fn lossy(alloc: Global, bytes: &[u8]) -> Result<Text, NoMemory>
    ensures { IfOk result (λ text. text ≡ lossy bytes.now) }
{
    let mut shown = String::new(alloc);
    let mut rest = bytes;
    while !rest.is_empty() {
        let (text, behind) = text_at_front(rest);
        shown.push_str(text)?;
        let [_, next @ ..] = behind else {
            break;
        };
        shown.push(char::REPLACEMENT_CHARACTER)?;
        rest = next;
    }
    Ok(Text::from_string(shown))
}

/// Well-formed UTF-8 is shown as it is, also where other bytes follow.
pub fn well_formed_text_is_shown_as_it_is()
    ensures alone { (text : List ℕ) → IsUtf8 text → lossy text ≡ text }
    ensures in_front { (text rest : List ℕ) → IsUtf8 text → lossy (text ++ rest) ≡ text ++ lossy rest }
{}

/// A byte that begins no character is shown as U+FFFD, and what follows it as if it stood alone.
pub fn a_byte_that_begins_no_character_is_replaced()
    ensures { (byte : ℕ) (rest : List ℕ) → StartsWithNoChar (byte ∷ rest)
        → lossy (byte ∷ rest) ≡ replacement_bytes ++ lossy rest }
{}
