//! Expressions printed as texts.
ghost use Rattle.std.specs.Prelude.{◌≡◌, ◌++◌, string_bytes, IfOk, OnOk};
ghost use Rattle.field_exprs.specs.Printing.{hop_text, head_text, print};

use crate::expr::{Expr, Head, Hop};
use std::alloc::Global;
use wire_core::{NoMemory, Text};

// Adds a hop to what is printed.
fn print_hop(alloc: Global, printed: &mut String, hop: &Hop) -> Result<(), NoMemory>
    ensures { OnOk result (string_bytes printed.new ≡ string_bytes printed.old ++ hop_text hop.now) }
{
    match hop {
        Hop::Field(name) => {
            printed.push('.')?;
            printed.push_str(name.as_str())?;
        }
        Hop::Index(index) => {
            let digits = format!(in alloc; "[{index}]")?;
            printed.push_str(digits.as_str())?;
        }
    }
    Ok(())
}

/// An expression as a text, with no blanks and with no needless digits. The text is read again as the same expression,
/// where some text is read as it. `NoMemory` comes where memory is refused.
pub fn print(alloc: Global, expr: &Expr) -> Result<Text, NoMemory>
    ensures { IfOk result (λ text. text ≡ print expr.now) }
{
    let mut printed = match &expr.head {
        Head::This => String::from_str(alloc, "this")?,
        Head::Name(name) => String::from_str(alloc, name.as_str())?,
    };
    for hop in expr.steps.as_slice() {
        print_hop(alloc, &mut printed, hop)?;
    }
    Ok(Text::from_string(printed))
}
