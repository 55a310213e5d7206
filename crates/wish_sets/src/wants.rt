//! What a session wants to stop at.
ghost use Rattle.std.specs.Prelude.{◌≡◌, ◌<◌, bytes_eq, length, IfSome};
ghost use Rattle.std.specs.List.{position_from};
ghost use Rattle.wish_sets.specs.Kept.{wanted_by};
ghost use Rattle.wish_sets.specs.Wanted.{nothing_wanted};

use crate::entry::{FunctionEntry, LineEntry};
use crate::facts::KnownClass;
use crate::wish::StepWish;
use indexmap::IndexMap;
use jdwp_values::ClassId;
use std::alloc::Global;
use wire_core::{List, Text};

/// What the client listed last, the step in flight, and the classes as they were last made known.
#[derive(Drop)]
pub(crate) struct Wants {
    pub(crate) lists: Vec<(Text, List<LineEntry>)>,
    pub(crate) functions: List<FunctionEntry>,
    pub(crate) caught: bool,
    pub(crate) uncaught: bool,
    pub(crate) step: Option<StepWish>,
    pub(crate) classes: IndexMap<ClassId, KnownClass>,
}

impl Wants {
    /// Nothing was asked for yet; it takes no memory.
    pub(crate) fn new(alloc: Global) -> Wants
        ensures { wanted_by result ≡ nothing_wanted }
    {
        Wants {
            lists: Vec::new(alloc),
            functions: List::new(alloc),
            caught: false,
            uncaught: false,
            step: None,
            classes: IndexMap::new(alloc),
        }
    }
}

/// The place of the list of a source, by its key.
pub(crate) fn list_at(lists: &[(Text, List<LineEntry>)], key: &Text) -> Option<usize>
    ensures place { result ≡ position_from (λ list. bytes_eq key.now list.0) 0 lists.now }
    ensures within { IfSome result (λ place. place < length lists.now) }
{
    lists
        .iter()
        .position(|list| key.as_bytes() == list.0.as_bytes())
}
