//! What a look-up comes to by what was replied so far.
ghost use Rattle.std.specs.Prelude.{◌≡◌};
ghost use Rattle.machine_model.specs.declared.parts.Finding.{Finding as AFinding};
ghost use Rattle.talk_look_ups.specs.Planning.{lacks_or, need_or};

use machine_model::{Finding, Want};
use std::collections::VecDeque;

/// What a look-up comes to.
#[derive(Drop)]
pub enum Need {
    /// It has found something.
    Has(Finding),
    /// The target refused what it can't do without, by the reply at this place in the order of sending (JDWP, Error
    /// Constants).
    Fails { place: usize, code: u16 },
    /// It lacks the answers to these.
    Lacks { first: Want, others: VecDeque<Want> },
}

/// What lacks these, where there are any.
pub(crate) fn lacks(mut wants: VecDeque<Want>) -> Option<Need>
    ensures { (found : AFinding) → lacks_or wants.items found ≡ need_or result found }
{
    let first = wants.pop_front()?;
    Some(Need::Lacks {
        first,
        others: wants,
    })
}
