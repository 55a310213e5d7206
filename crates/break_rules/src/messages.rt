//! Texts read as log messages.
ghost use Rattle.std.specs.Prelude.{◌≡◌, length, take};
ghost use Rattle.std.specs.List.{prefix_len};
ghost use Rattle.field_exprs.specs.Parsing.{behind, parsed};
ghost use Rattle.break_rules.specs.Fronts.{IsBraced, IsPieceRead};
ghost use Rattle.break_rules.specs.Parsing.{IsRead, not_closed, not_open, path_piece, pieces_at, template_of};

use crate::fronts::{behind_sign, is_short};
use crate::rule::{Piece, RuleFault, Template};
use field_exprs::{ExprFault, parse};
use std::alloc::Global;
use wire_core::{List, Text};

// The number of bytes before the first `{`.
fn plain_len(bytes: &[u8]) -> usize
    ensures { result ≡ prefix_len not_open bytes.now }
{
    bytes.iter().take_while(|byte| **byte != b'{').count()
}

// The number of bytes before the first `}`.
fn inner_len(bytes: &[u8]) -> usize
    ensures { result ≡ prefix_len not_closed bytes.now }
{
    bytes.iter().take_while(|byte| **byte != b'}').count()
}

// What stands before the first `{`, and what from it on.
fn split_plain(text: &str) -> (&str, &str)
    ensures front { result.0.now ≡ take (prefix_len not_open text.now) text.now }
    ensures behind { result.1.now ≡ behind not_open text.now }
{
    text.split_at(plain_len(text.as_bytes()))
}

// What stands before the first `}`, and what from it on.
fn split_inner(text: &str) -> (&str, &str)
    ensures front { result.0.now ≡ take (prefix_len not_closed text.now) text.now }
    ensures behind { result.1.now ≡ behind not_closed text.now }
{
    text.split_at(inner_len(text.as_bytes()))
}

// The piece at the front, and what is left behind it; None at the end of a text.
fn piece_at<'a>(alloc: Global, text: &'a str) -> Result<Option<(Piece, &'a str)>, RuleFault>
    ensures { IsPieceRead text.now result }
{
    if text.is_empty() {
        return Ok(None);
    }
    match behind_sign("{", text) {
        Some(inside) => Ok(Some(in_braces(alloc, inside)?)),
        None => {
            let (front, rest) = split_plain(text);
            Ok(Some((Piece::Plain(Text::from_str(alloc, front)?), rest)))
        }
    }
}

// The expression behind a `{`, and what is left behind its `}`.
fn in_braces<'a>(alloc: Global, inside: &'a str) -> Result<(Piece, &'a str), RuleFault>
    ensures { IsBraced inside.now result }
{
    let (inner, left) = split_inner(inside);
    let path = path_of(alloc, inner)?;
    match behind_sign("}", left) {
        Some(rest) => Ok((path, rest)),
        None => Err(RuleFault::Outside),
    }
}

// The piece that an expression is.
fn path_of(alloc: Global, text: &str) -> Result<Piece, RuleFault>
    ensures { IsRead (path_piece (parsed text.now)) result }
{
    let copy = Text::from_str(alloc, text)?;
    match parse(alloc, &copy) {
        Ok(expr) => Ok(Piece::Path(expr)),
        Err(ExprFault::NoMemory) => Err(RuleFault::NoMemory),
        Err(ExprFault::At(_)) => Err(RuleFault::Outside),
    }
}

// The pieces of a text.
fn pieces_of(alloc: Global, text: &str) -> Result<List<Piece>, RuleFault>
    ensures { IsRead (pieces_at (length text.now) text.now) result }
{
    let mut found = List::new(alloc);
    let mut rest = text;
    while let Some((piece, left)) = piece_at(alloc, rest)? {
        found.push(piece)?;
        rest = left;
    }
    Ok(found)
}

/// The log message that a text is: plain text, and expressions in braces as `field_exprs` reads them, each up to the next
/// `}` (DAP specification, Types, SourceBreakpoint, logMessage). `Outside` comes exactly where an expression is none or
/// has no `}`, or the text is longer than 4,096 bytes, unless memory is refused; `NoMemory` comes where it is.
#[tactic(auto, unfolding(crate::specs::Parsing::template_of))]
pub fn parse_log(alloc: Global, text: &Text) -> Result<Template, RuleFault>
    ensures { IsRead (template_of text.now) result }
{
    let whole = text.as_str();
    if !is_short(whole) {
        return Err(RuleFault::Outside);
    }
    let pieces = pieces_of(alloc, whole)?;
    Ok(Template { pieces })
}
