//! The steps of an expression, and the blanks behind them.
ghost use Rattle.std.specs.Prelude.{◌≡◌, ◌≢◌, List, ℕ, [], ◌∷◌, ◌++◌, IfOk, IfErr, MatchOption};
ghost use Rattle.field_exprs.specs.declared.expr.Hop.{Hop};
ghost use Rattle.field_exprs.specs.Grammar.{AreSteps};
ghost use Rattle.field_exprs.specs.Reading.{IsTail, IsHopBefore};
ghost use Rattle.field_exprs.specs.Sticking.{IsStuck, IsHopRead};

use crate::expr::Hop;
use crate::front::{behind, skip_blanks, split_index, split_word};
use crate::stuck::Stuck;
use std::alloc::Global;
use wire_core::{List, Text};

// Reads the field behind a `.`, adds it to the steps found, and gives what is left.
fn read_field<'a>(alloc: Global, text: &'a str, found: &mut List<Hop>) -> Result<&'a str, Stuck<'a>>
    ensures ok { IfOk result (λ left. (hop : Hop) × IsHopBefore (46 ∷ text.now) left.now hop
        × (found.new ≡ found.old ++ hop ∷ [])) }
    ensures err { IfErr result (λ stuck. IsStuck (λ rest. IsTail (46 ∷ rest)) text.now stuck) }
{
    let Some((word, left)) = split_word(text) else {
        return Err(Stuck::Before(text));
    };
    if word == "this" {
        return Err(Stuck::Before(left));
    }
    found.push(Hop::Field(Text::from_str(alloc, word)?))?;
    Ok(left)
}

// Reads the index and the `]` behind a `[`, adds the element to the steps found, and gives what is left.
fn read_index<'a>(text: &'a str, found: &mut List<Hop>) -> Result<&'a str, Stuck<'a>>
    ensures ok { IfOk result (λ left. (hop : Hop) × IsHopBefore (91 ∷ text.now) left.now hop
        × (found.new ≡ found.old ++ hop ∷ [])) }
    ensures err { IfErr result (λ stuck. IsStuck (λ rest. IsTail (91 ∷ rest)) text.now stuck) }
{
    let (digits, index, left) = split_index(text);
    if digits.is_empty() {
        return Err(Stuck::Before(left));
    }
    let Some(rest) = behind(left, ']') else {
        return Err(Stuck::Before(left));
    };
    found.push(Hop::Index(index))?;
    Ok(rest)
}

// Reads the hop at the front, adds it to the steps found, and gives what is left; None exactly where none begins there.
fn read_hop<'a>(
    alloc: Global,
    text: &'a str,
    found: &mut List<Hop>,
) -> Result<Option<&'a str>, Stuck<'a>>
    ensures ok { IfOk result (λ left. IsHopRead found.old found.new text.now left) }
    ensures err { IfErr result (λ stuck. IsStuck IsTail text.now stuck) }
{
    if let Some(rest) = behind(text, '.') {
        return read_field(alloc, rest, found).map(Some);
    }
    if let Some(rest) = behind(text, '[') {
        return read_index(rest, found).map(Some);
    }
    Ok(None)
}

// Reads steps up to the end of a text.
pub(crate) fn read_steps<'a>(alloc: Global, text: &'a str) -> Result<List<Hop>, Stuck<'a>>
    ensures ok { IfOk result (λ hops. AreSteps text.now hops) }
    ensures err { IfErr result (λ stuck. IsStuck IsTail text.now stuck) }
{
    let mut found = List::new(alloc);
    let mut rest = text;
    while let Some(left) = read_hop(alloc, rest, &mut found)? {
        rest = left;
    }
    let left = skip_blanks(rest);
    if left.is_empty() {
        Ok(found)
    } else {
        Err(Stuck::Before(left))
    }
}
