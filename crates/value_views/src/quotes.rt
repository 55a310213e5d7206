//! Strings of the target in quotes.
ghost use Rattle.std.specs.Prelude.{◌≡◌, ◌++◌, ◌<◌, ◌^◌, length, take, flat_map, string_bytes, IfOk, OnOk, nat_lt};
ghost use Rattle.std.specs.Str.{chars};
ghost use Rattle.value_views.specs.Quotes.{escaped, quoted_char, shown_chars, quoted, quote};

use jdwp_values::lossy;
use std::alloc::Global;
use wire_core::{NoMemory, Text};

// How many characters of a string are shown.
const SHOWN_CHARS: usize = 1000;

// A character by its number.
pub(crate) fn escaped(alloc: Global, code: u32) -> Result<String, NoMemory>
    ensures { IfOk result (λ text. string_bytes text ≡ escaped code) }
{
    Ok(format!(in alloc; "\\u{code:04x}")?)
}

// Adds a character as it is shown in quotes.
fn push_char(alloc: Global, shown: &mut String, char: char) -> Result<(), NoMemory>
    ensures { OnOk result (string_bytes shown.new ≡ string_bytes shown.old ++ quoted_char char) }
{
    match char {
        '"' => shown.push_str("\\\"")?,
        '\\' => shown.push_str("\\\\")?,
        '\n' => shown.push_str("\\n")?,
        '\r' => shown.push_str("\\r")?,
        '\t' => shown.push_str("\\t")?,
        _ => {
            if char.is_ascii_control() {
                shown.push_str(escaped(alloc, u32::from(char))?.as_str())?
            } else {
                shown.push(char)?
            }
        }
    }
    Ok(())
}

// Adds the first characters of a text as they are shown in quotes.
fn push_chars(alloc: Global, shown: &mut String, text: &str) -> Result<(), NoMemory>
    ensures { OnOk result (string_bytes shown.new
        ≡ string_bytes shown.old ++ flat_map quoted_char (take shown_chars (chars text.now))) }
{
    for char in text.chars().take(SHOWN_CHARS) {
        push_char(alloc, shown, char)?;
    }
    Ok(())
}

// Whether a text has more characters than are shown.
fn is_cut(text: &str) -> bool
    ensures { result ≡ nat_lt shown_chars (length (chars text.now)) }
{
    text.chars().nth(SHOWN_CHARS).is_some()
}

/// A string of the target in quotes, by its bytes: the first 1,000 characters of its text, and `...` behind the quotes
/// where it has more. Bytes that begin no character count as U+FFFD. `"` and `\` stand behind `\`; line feed, carriage
/// return and tab are `\n`, `\r` and `\t`, another control character of ASCII `\u` and four hexadecimal digits.
/// `NoMemory` comes where memory is refused (Java Language Specification, Lexical Structure, Escape Sequences).
#[tactic(auto, unfolding(crate::specs::Quotes::quote))]
pub fn quote(alloc: Global, bytes: &[u8]) -> Result<Text, NoMemory>
    ensures { IfOk result (λ text. text ≡ quote bytes.now) }
{
    let text = lossy(alloc, bytes)?;
    let mut shown = String::from_str(alloc, "\"")?;
    push_chars(alloc, &mut shown, text.as_str())?;
    shown.push('"')?;
    if is_cut(text.as_str()) {
        shown.push_str("...")?;
    }
    Ok(Text::from_string(shown))
}
