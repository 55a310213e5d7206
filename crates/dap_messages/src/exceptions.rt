ghost use Rattle.std.specs.Prelude.{◌≡◌};
ghost use Rattle.serde_json.specs.View.{view};
ghost use Rattle.dap_messages.specs.Arguments.{IsRead};
ghost use Rattle.dap_messages.specs.Exceptions.{filters_at, has_filter};

use crate::arguments::{Argument, Refused, given, texts_in};
use serde_json::Value;
use std::alloc::Global;
use wire_core::{List, Text};

/// The filters, which must be there.
pub(crate) fn filters_at(alloc: Global, arguments: &Value) -> Result<List<Text>, Refused>
    ensures { IsRead result (filters_at (view arguments.now)) }
{
    match given(arguments, Argument::Filters).and_then(Value::as_array) {
        Some(items) => texts_in(alloc, Argument::Filters, items.as_slice()),
        None => Err(Refused::Broken(Argument::Filters)),
    }
}

/// Whether a filter is one of these.
pub(crate) fn has_filter(filters: &[Text], name: &str) -> bool
    ensures { result ≡ has_filter name.now filters.now }
{
    filters.iter().any(|filter| filter.as_str() == name)
}
