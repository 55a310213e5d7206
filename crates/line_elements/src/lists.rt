//! Lists of a line, and the elements that they have.
ghost use Rattle.std.specs.Prelude.{◌≡◌, IfOk};
ghost use Rattle.serde_json.specs.View.{view, items_view};
ghost use Rattle.line_elements.specs.Values.{each_of, list_of, lines_of};

use crate::values;
use crate::version::Version;
use jdwp_values::{Line, Value};
use serde_json::Value as Json;
use slot_values::SlotValue;
use std::alloc::Global;
use wire_core::{List, NoMemory};

/// What a list of a line is made of.
pub(crate) trait Element: Drop {
    ghost use Rattle.std.specs.Prelude.{◌≡◌, Option};
    ghost use Rattle.serde_json.specs.Data.{Data};
    ghost use Rattle.serde_json.specs.View.{view};
    ghost use Rattle.line_elements.specs.declared.version.Version.{Version};

    ghost read_of: { Version → Data → Option Self };

    /// Reads one that is spelled in this version.
    fn read(version: Version, value: &Json) -> Option<Self>
        ensures { result ≡ read_of version (view value.now) };
}

impl Element for Value {
    ghost use Rattle.line_elements.specs.Values.{value_of};

    ghost read_of = { value_of };

    fn read(version: Version, value: &Json) -> Option<Value> {
        values::value(version, value)
    }
}

impl Element for SlotValue {
    ghost use Rattle.line_elements.specs.Values.{slot_of};

    ghost read_of = { slot_of };

    fn read(version: Version, value: &Json) -> Option<SlotValue> {
        values::slot(version, value)
    }
}

impl Element for Line {
    ghost use Rattle.line_elements.specs.Values.{line_of};

    ghost read_of = { λ version. line_of };

    // A line has no value, and one spelling.
    fn read(_version: Version, value: &Json) -> Option<Line> {
        values::line(value)
    }
}

fn each<T: Element>(
    alloc: Global,
    version: Version,
    elements: &[Json],
) -> Result<Option<List<T>>, NoMemory>
    ensures { IfOk result (λ list. list ≡ each_of (T.read_of version) (items_view elements.now)) }
{
    let mut list = List::new(alloc);
    for element in elements {
        match T::read(version, element) {
            Some(item) => list.push(item)?,
            None => return Ok(None),
        }
    }
    Ok(Some(list))
}

/// A list, each of whose elements is of the kind.
pub(crate) fn list<T: Element>(
    alloc: Global,
    version: Version,
    value: &Json,
) -> Result<Option<List<T>>, NoMemory>
    ensures { IfOk result (λ list. list ≡ list_of (T.read_of version) (view value.now)) }
{
    match value.as_array() {
        Some(elements) => each(alloc, version, elements.as_slice()),
        None => Ok(None),
    }
}

/// A method's lines, or null.
pub(crate) fn lines(alloc: Global, value: &Json) -> Result<Option<Option<List<Line>>>, NoMemory>
    ensures { IfOk result (λ lines. lines ≡ lines_of (view value.now)) }
{
    if value.is_null() {
        return Ok(Some(None));
    }
    match list(alloc, Version::Second, value)? {
        Some(lines) => Ok(Some(Some(lines))),
        None => Ok(None),
    }
}
