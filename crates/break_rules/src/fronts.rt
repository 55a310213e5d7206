//! What stands between blanks or behind a sign, and the digits of a number.
ghost use Rattle.std.specs.Prelude.{◌≡◌, ◌^◌, ◌-◌, true, length, min, nat_le, reverse};
ghost use Rattle.std.specs.Char.{is_ascii_digit};
ghost use Rattle.std.specs.List.{list_all, prefix_len};
ghost use Rattle.std.specs.Str.Parse.{digits_value};
ghost use Rattle.field_exprs.specs.Grammar.{is_blank};
ghost use Rattle.field_exprs.specs.Parsing.{behind};
ghost use Rattle.break_rules.specs.Fronts.{HasDigits, IsBehind, IsSignIn};
ghost use Rattle.break_rules.specs.Grammar.{longest_rule};
ghost use Rattle.break_rules.specs.Parsing.{core_of, has_digits};

// The most bytes of a text that is read as a rule.
const LONGEST_RULE: usize = 4096;

// Whether a byte is a space or a tab.
fn is_blank(byte: u8) -> bool
    ensures { result ≡ is_blank byte }
{
    byte == b' ' || byte == b'\t'
}

// The number of blanks at the front.
fn blanks_before(bytes: &[u8]) -> usize
    ensures { result ≡ prefix_len is_blank bytes.now }
{
    bytes.iter().take_while(|byte| is_blank(**byte)).count()
}

// The number of blanks at the end.
fn blanks_behind(bytes: &[u8]) -> usize
    ensures { result ≡ prefix_len is_blank (reverse bytes.now) }
{
    bytes
        .iter()
        .rev()
        .take_while(|byte| is_blank(**byte))
        .count()
}

// What is left behind the blanks at the front.
pub(crate) fn skip_blanks(text: &str) -> &str
    ensures { result.now ≡ behind is_blank text.now }
{
    let (_, left) = text.split_at(blanks_before(text.as_bytes()));
    left
}

// What stands between the blanks before it and behind it.
pub(crate) fn core_of(bytes: &[u8]) -> &[u8]
    ensures { result.now ≡ core_of bytes.now }
{
    let (_, rest) = bytes.split_at(blanks_before(bytes));
    let (core, _) = rest.split_at(rest.len() - blanks_behind(rest));
    core
}

// The number that digits are, or 2^64 - 1 where it is greater.
fn value_of(digits: &[u8]) -> u64
    requires { list_all is_ascii_digit digits.now ≡ true }
    ensures { result ≡ min (digits_value 10 digits.now) (2 ^ 64 - 1) }
{
    let mut value: u64 = 0;
    for digit in digits {
        value = value
            .saturating_mul(10)
            .saturating_add(u64::from(*digit - b'0'));
    }
    value
}

// Whether all bytes are digits.
fn are_digits(bytes: &[u8]) -> bool
    ensures { result ≡ list_all is_ascii_digit bytes.now }
{
    bytes.iter().all(|byte| byte.is_ascii_digit())
}

// Whether a text is digits, at most so many.
fn has_digits(most: usize, bytes: &[u8]) -> bool
    ensures { result ≡ has_digits most bytes.now }
{
    !bytes.is_empty() && bytes.len() <= most && are_digits(bytes)
}

// The number of a text that is digits, at most so many, or 2^64 - 1 where it is greater; None exactly where it isn't.
pub(crate) fn digits_in(most: usize, bytes: &[u8]) -> Option<u64>
    ensures { HasDigits most bytes.now result }
{
    if has_digits(most, bytes) {
        Some(value_of(bytes))
    } else {
        None
    }
}

// Whether a text isn't too long for a rule.
pub(crate) fn is_short(text: &str) -> bool
    ensures { result ≡ nat_le (length text.now) longest_rule }
{
    text.len() <= LONGEST_RULE
}

// What a text has behind a sign that it begins with.
pub(crate) fn behind_sign<'a>(sign: &str, text: &'a str) -> Option<&'a str>
    ensures { IsBehind sign.now text.now result }
{
    text.strip_prefix(sign)
}

// The first of these signs that a text begins with: what it means, and what stands behind it.
pub(crate) fn sign_in<'a, A: Copy>(signs: &[(&str, A)], text: &'a str) -> Option<(A, &'a str)>
    ensures { IsSignIn signs.now text.now result }
{
    for (sign, meaning) in signs {
        if let Some(rest) = behind_sign(sign, text) {
            return Some((*meaning, rest));
        }
    }
    None
}
