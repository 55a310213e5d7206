//! The row that a JSON value is.
ghost use Rattle.std.specs.Prelude.{◌≡◌, IfOk, option_and_then};
ghost use Rattle.serde_json.specs.Find.{as_str};
ghost use Rattle.serde_json.specs.View.{view, items_view};
ghost use Rattle.line_elements.specs.Parts.{Found, Tells};
ghost use Rattle.script_rows.specs.Rows.{kind_of, kind_row, row_in, row_of_items, row_of, whole};

use crate::kinds::{Kind, kind_of};
use crate::move_rows::{move_row, turn_row};
use crate::rows::Row;
use crate::world_rows::world_row;
use line_elements::{Elements, LineFault, Version};
use serde_json::Value;
use std::alloc::Global;
use wire_core::NoMemory;

/// The row that a line's JSON value is in a script of this version; None exactly where it isn't an array that a row
/// gives, with elements of the kinds and ranges that stand in `Rows.antt`. `NoMemory` comes where memory is refused.
pub fn read_row(alloc: Global, version: Version, value: &Value) -> Result<Option<Row>, NoMemory>
    ensures { IfOk result (λ row. row ≡ row_of version (view value.now)) }
{
    match value.as_array() {
        Some(elements) => read_elements(alloc, version, elements.as_slice()),
        None => Ok(None),
    }
}

fn read_elements(
    alloc: Global,
    version: Version,
    elements: &[Value],
) -> Result<Option<Row>, NoMemory>
    ensures { IfOk result (λ row. row ≡ row_of_items version (items_view elements.now)) }
{
    let [name, parts @ ..] = elements else {
        return Ok(None);
    };
    let Some(kind) = line_kind(name) else {
        return Ok(None);
    };
    match row_in(alloc, version, kind, parts) {
        Ok(row) => Ok(Some(row)),
        Err(LineFault::NoMemory) => Err(NoMemory),
        Err(LineFault::BadShape) => Ok(None),
    }
}

fn line_kind(name: &Value) -> Option<Kind>
    ensures { result ≡ option_and_then kind_of (as_str (view name.now)) }
{
    kind_of(name.as_str()?)
}

#[tactic(auto, unfolding(crate::specs::Rows::row_in))]
fn row_in(alloc: Global, version: Version, kind: Kind, parts: &[Value]) -> Result<Row, LineFault>
    ensures { Found result (row_in version kind (items_view parts.now)) }
{
    let mut elements = Elements::new(parts);
    let row = kind_row(alloc, version, kind, &mut elements)?;
    whole(row, &elements)
}

#[tactic(auto, using(crate::proofs::WholeLaws::whole_at_end, crate::proofs::WholeLaws::whole_before_end))]
fn whole(row: Row, left: &Elements<'_>) -> Result<Row, LineFault>
    ensures { Found result (whole row left.now) }
{
    if left.is_empty() {
        Ok(row)
    } else {
        Err(LineFault::BadShape)
    }
}

fn kind_row(
    alloc: Global,
    version: Version,
    kind: Kind,
    elements: &mut Elements<'_>,
) -> Result<Row, LineFault>
    ensures { Tells (λ x. x) (kind_row version kind elements.old) elements.new result }
{
    match kind {
        Kind::World(kind) => world_row(alloc, version, kind, elements),
        Kind::Move(kind) => Ok(Row::Move(move_row(alloc, version, kind, elements)?)),
        Kind::Turn(kind) => Ok(Row::Turn(turn_row(alloc, kind, elements)?)),
    }
}
