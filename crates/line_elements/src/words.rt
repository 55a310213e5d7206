//! Texts of a line that are kept as texts.
ghost use Rattle.std.specs.Prelude.{◌≡◌, IfOk};
ghost use Rattle.serde_json.specs.Find.{as_str};
ghost use Rattle.serde_json.specs.View.{view};

use serde_json::Value;
use std::alloc::Global;
use wire_core::{NoMemory, Text};

/// A text.
pub(crate) fn word(alloc: Global, value: &Value) -> Result<Option<Text>, NoMemory>
    ensures { IfOk result (λ text. text ≡ as_str (view value.now)) }
{
    match value.as_str() {
        Some(text) => Ok(Some(Text::from_str(alloc, text)?)),
        None => Ok(None),
    }
}
