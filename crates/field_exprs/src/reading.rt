//! Texts read as expressions.
ghost use Rattle.std.specs.Prelude.{◌≡◌, IfOk, IfErr};
ghost use Rattle.field_exprs.specs.Grammar.{IsWord, IsHead, IsExpr};
ghost use Rattle.field_exprs.specs.Parsing.{IsParsed};
ghost use Rattle.field_exprs.specs.Reading.{IsAccepted, told_place, IsRead};
ghost use Rattle.field_exprs.specs.Sticking.{IsStuck};

use crate::expr::{Expr, ExprFault, Head};
use crate::front::{skip_blanks, split_word};
use crate::steps::read_steps;
use crate::stuck::Stuck;
use std::alloc::Global;
use wire_core::{NoMemory, Text};

// The most bytes of a text that is read as an expression.
const LONGEST_TEXT: u32 = 4096;

// The head that a word is.
fn head_of(alloc: Global, word: &str) -> Result<Head, NoMemory>
    requires { IsWord word.now }
    ensures { IfOk result (λ head. IsHead word.now head) }
{
    if word == "this" {
        Ok(Head::This)
    } else {
        Ok(Head::Name(Text::from_str(alloc, word)?))
    }
}

// Reads an expression of any length.
fn read<'a>(alloc: Global, text: &'a str) -> Result<Expr, Stuck<'a>>
    ensures ok { IfOk result (λ e. IsExpr text.now e) }
    ensures err { IfErr result (λ stuck. IsStuck IsAccepted text.now stuck) }
{
    let rest = skip_blanks(text);
    let Some((word, left)) = split_word(rest) else {
        return Err(Stuck::Before(rest));
    };
    let steps = read_steps(alloc, left)?;
    let head = head_of(alloc, word)?;
    Ok(Expr { head, steps })
}

// A place as it is told, in 32 bits.
fn told(place: usize) -> u32
    ensures { result ≡ told_place place }
{
    place.min(u32::MAX as usize) as u32
}

/// The expression that a text is: a name or `this`, then any number of `.` with a name and `[` with an index and `]`,
/// between spaces and tabs (Java Language Specification, Expressions, Field Access Expressions and Array Access
/// Expressions). A name has letters, digits, `_`, `$` and characters outside ASCII, and begins with no digit; an index
/// has 1 to 10 digits and is at most 2^31 - 1.
///
/// `At` tells the byte behind the longest front that begins an expression where the text is none, and 4,096 where it is
/// one of more bytes. `NoMemory` comes where memory is refused.
pub fn parse(alloc: Global, text: &Text) -> Result<Expr, ExprFault>
    ensures read { IsRead text.now result }
    ensures parsed { IsParsed text.now result }
{
    let whole = text.as_str();
    match read(alloc, whole) {
        Ok(expr) => {
            if whole.len() > LONGEST_TEXT as usize {
                Err(ExprFault::At(LONGEST_TEXT))
            } else {
                Ok(expr)
            }
        }
        Err(Stuck::NoMemory) => Err(ExprFault::NoMemory),
        Err(Stuck::Before(left)) => Err(ExprFault::At(told(whole.len() - left.len()))),
    }
}
