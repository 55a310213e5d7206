//! Texts and sides of a line.
ghost use Rattle.std.specs.Prelude.{◌≡◌, IfOk};
ghost use Rattle.serde_json.specs.View.{view};
ghost use Rattle.line_elements.specs.Numbers.{text_data, text_or_null_data};
ghost use Rattle.line_elements.specs.Values.{side_name};

use jdwp_values::lossy;
use serde_json::{Value as Json, json};
use std::alloc::Global;
use wire_core::{Blob, NoMemory, Side};

/// Bytes as a text.
pub(crate) fn text_value(alloc: Global, bytes: &[u8]) -> Result<Json, NoMemory>
    ensures { IfOk result (λ value. view value ≡ text_data bytes.now) }
{
    let text = lossy(alloc, bytes)?;
    Ok(json!(in alloc; text.as_str())?)
}

/// Bytes as a text, or null where there are none.
pub(crate) fn text_or_null_value(alloc: Global, bytes: &Option<Blob>) -> Result<Json, NoMemory>
    ensures { IfOk result (λ value. view value ≡ text_or_null_data bytes.now) }
{
    match bytes {
        Some(bytes) => text_value(alloc, bytes.as_slice()),
        None => Ok(Json::Null),
    }
}

/// A side's name.
pub(crate) fn side_name(side: Side) -> &'static str
    ensures { result.now ≡ side_name side }
{
    match side {
        Side::Client => "client",
        Side::Target => "target",
    }
}
