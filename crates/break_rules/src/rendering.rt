//! What a log message says.
ghost use Rattle.std.specs.Prelude.{◌≡◌, IfOk};
ghost use Rattle.break_rules.specs.Rendering.{rendered};

use crate::rule::{Piece, Template};
use std::alloc::Global;
use wire_core::{List, NoMemory, Text};

/// The text of a log message: its pieces one behind the other, and in the places of its expressions the texts of their
/// values, in order (DAP specification, Types, SourceBreakpoint, logMessage). A place without a text says nothing.
/// `NoMemory` comes where memory is refused.
pub fn render_log(alloc: Global, template: &Template, values: &List<Text>) -> Result<Text, NoMemory>
    ensures { IfOk result (λ text. text ≡ rendered template.now values.now) }
{
    let mut text = String::new(alloc);
    let mut left = values.as_slice();
    for piece in template.pieces.as_slice() {
        match (piece, left) {
            (Piece::Plain(plain), _) => text.push_str(plain.as_str())?,
            (Piece::Path(_), [value, rest @ ..]) => {
                text.push_str(value.as_str())?;
                left = rest;
            }
            (Piece::Path(_), []) => {}
        }
    }
    Ok(Text::from_string(text))
}
