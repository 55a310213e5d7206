//! Texts read as conditions.
ghost use Rattle.std.specs.Prelude.{◌≡◌, take};
ghost use Rattle.std.specs.List.{prefix_len};
ghost use Rattle.field_exprs.specs.Parsing.{behind, parsed};
ghost use Rattle.break_rules.specs.Parsing.{IsRead, condition_of, is_sign, negative, no_sign, path_of, positive, side_of};
ghost use Rattle.break_rules.specs.Parsing.{sides_by, sides_of, two_sides, whole_in};

use crate::fronts::{core_of, digits_in, is_short, sign_in};
use crate::rule::{Comparison, Condition, Part, RuleFault};
use field_exprs::{ExprFault, parse};
use std::alloc::Global;
use wire_core::Text;

// The most digits of a whole number.
const MOST_DIGITS: usize = 20;

// How comparisons are written, a sign before those that it begins.
const COMPARISONS: [(&str, Comparison); 6] = [
    ("==", Comparison::Equal),
    ("!=", Comparison::Unequal),
    ("<=", Comparison::LessEqual),
    ("<", Comparison::Less),
    (">=", Comparison::GreaterEqual),
    (">", Comparison::Greater),
];

// A number from 0 on, if it has 64 bits.
fn positive(n: u64) -> Option<i64>
    ensures { result ≡ positive n }
{
    if n < 1 << 63 { Some(n as i64) } else { None }
}

// The negative of a number, if it has 64 bits.
fn negative(n: u64) -> Option<i64>
    ensures { result ≡ negative n }
{
    if n < 1 << 63 {
        Some(-(n as i64))
    } else if n == 1 << 63 {
        Some(i64::MIN)
    } else {
        None
    }
}

// The whole number of 64 bits that a text is, if it is one.
fn whole_in(bytes: &[u8]) -> Option<i64>
    ensures { result ≡ whole_in bytes.now }
{
    match bytes {
        [] => None,
        [b'-', digits @ ..] => negative(digits_in(MOST_DIGITS, digits)?),
        _ => positive(digits_in(MOST_DIGITS, bytes)?),
    }
}

// The side that an expression is.
fn path_of(alloc: Global, text: &str) -> Result<Part, RuleFault>
    ensures { IsRead (path_of (parsed text.now)) result }
{
    let copy = Text::from_str(alloc, text)?;
    match parse(alloc, &copy) {
        Ok(expr) => Ok(Part::Path(expr)),
        Err(ExprFault::NoMemory) => Err(RuleFault::NoMemory),
        Err(ExprFault::At(_)) => Err(RuleFault::Outside),
    }
}

// A side of a condition: a word that stands for a value, a number, or an expression.
fn side_of(alloc: Global, text: &str) -> Result<Part, RuleFault>
    ensures { IsRead (side_of text.now) result }
{
    let core = core_of(text.as_bytes());
    if core == b"true".as_slice() {
        return Ok(Part::Truth(true));
    }
    if core == b"false".as_slice() {
        return Ok(Part::Truth(false));
    }
    if core == b"null".as_slice() {
        return Ok(Part::Null);
    }
    match whole_in(core) {
        Some(n) => Ok(Part::Number(n)),
        None => path_of(alloc, text),
    }
}

// Whether a byte begins or ends a comparison.
fn is_sign(byte: u8) -> bool
    ensures { result ≡ is_sign byte }
{
    byte == b'=' || byte == b'!' || byte == b'<' || byte == b'>'
}

// The number of bytes before the first sign.
fn side_len(bytes: &[u8]) -> usize
    ensures { result ≡ prefix_len no_sign bytes.now }
{
    bytes.iter().take_while(|byte| !is_sign(**byte)).count()
}

// What stands before the first sign, and what from it on.
fn split_sides(text: &str) -> (&str, &str)
    ensures front { result.0.now ≡ take (prefix_len no_sign text.now) text.now }
    ensures behind { result.1.now ≡ behind no_sign text.now }
{
    text.split_at(side_len(text.as_bytes()))
}

// A condition of this side alone, or with what stands from the first sign on.
fn with_rest(alloc: Global, left: Part, rest: &str) -> Result<Condition, RuleFault>
    ensures { IsRead (sides_by left rest.now) result }
{
    if rest.is_empty() {
        return Ok(Condition { left, rest: None });
    }
    match sign_in(&COMPARISONS, rest) {
        Some((comparison, other)) => compared(alloc, left, comparison, other),
        None => Err(RuleFault::Outside),
    }
}

// A condition of two sides.
fn compared(
    alloc: Global,
    left: Part,
    comparison: Comparison,
    other: &str,
) -> Result<Condition, RuleFault>
    ensures { IsRead (two_sides left comparison (side_of other.now)) result }
{
    let right = side_of(alloc, other)?;
    Ok(Condition {
        left,
        rest: Some((comparison, right)),
    })
}

// The condition that a text of any length is.
fn sides_of(alloc: Global, text: &str) -> Result<Condition, RuleFault>
    ensures { IsRead (sides_of text.now) result }
{
    let (front, rest) = split_sides(text);
    let left = side_of(alloc, front)?;
    with_rest(alloc, left, rest)
}

/// The condition that a text is: a side alone, or two with `==`, `!=`, `<`, `<=`, `>` or `>=` between them. A side is a
/// whole number of 64 bits, `true`, `false`, `null`, or an expression as `field_exprs` reads it, between spaces and tabs
/// (DAP specification, Types, SourceBreakpoint, condition; Java Language Specification, Expressions, Relational
/// Operators and Equality Operators). `Outside` comes exactly where a text is none, or is longer than 4,096 bytes, unless
/// memory is refused; `NoMemory` comes where it is.
#[tactic(auto, unfolding(crate::specs::Parsing::condition_of))]
pub fn parse_condition(alloc: Global, text: &Text) -> Result<Condition, RuleFault>
    ensures { IsRead (condition_of text.now) result }
{
    let whole = text.as_str();
    if is_short(whole) {
        sides_of(alloc, whole)
    } else {
        Err(RuleFault::Outside)
    }
}
