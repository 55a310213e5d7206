//! What look-ups come to, one by one and side by side.
ghost use Rattle.std.specs.Prelude.{◌≡◌, ◌∷◌, ◌++◌, IfOk};
ghost use Rattle.machine_model.specs.Plans.{after, beside, beside_fault, beside_lack, beside_value, has};
ghost use Rattle.look_ups.specs.Needs.{need_of, need_with};

use machine_model::Want;
use std::collections::VecDeque;
use wire_core::{List, NoMemory};

/// What a look-up comes to: it has found something; the target refused what it can't do without, by the reply at this
/// place in the order of sending; or it lacks the answers to these.
#[derive(Drop)]
pub enum Need<T> {
    Has(T),
    Fails { place: usize, code: u16 },
    Lacks { first: Want, others: VecDeque<Want> },
}

fn beside_value<A: Drop, B: Drop>(value: A, second: Need<B>) -> Need<(A, B)>
    ensures { need_of result ≡ beside_value value (need_of second) }
{
    match second {
        Need::Has(other) => Need::Has((value, other)),
        Need::Fails { place, code } => Need::Fails { place, code },
        Need::Lacks { first, others } => Need::Lacks { first, others },
    }
}

fn beside_fault<A: Drop, B: Drop>(place: usize, code: u16, second: Need<B>) -> Need<(A, B)>
    ensures { need_of result ≡ beside_fault (record { place = place; code = code }) (need_of second) }
{
    match second {
        Need::Has(_) => Need::Fails { place, code },
        Need::Fails {
            place: other,
            code: another,
        } => {
            if place <= other {
                Need::Fails { place, code }
            } else {
                Need::Fails {
                    place: other,
                    code: another,
                }
            }
        }
        Need::Lacks { .. } => Need::Fails { place, code },
    }
}

// Wants before others.
fn before(mut wants: VecDeque<Want>, mut others: VecDeque<Want>) -> Result<VecDeque<Want>, NoMemory>
    ensures { IfOk result (λ all. all.items ≡ wants.items ++ others.items) }
{
    while let Some(want) = wants.pop_back() {
        others.push_front(want)?;
    }
    Ok(others)
}

fn beside_lack<A: Drop, B: Drop>(
    first: Want,
    others: VecDeque<Want>,
    second: Need<B>,
) -> Result<Need<(A, B)>, NoMemory>
    ensures { IfOk result (λ found. need_of found ≡ beside_lack first others.items (need_of second)) }
{
    match second {
        Need::Has(_) => Ok(Need::Lacks { first, others }),
        Need::Fails { place, code } => Ok(Need::Fails { place, code }),
        Need::Lacks {
            first: other,
            others: mut more,
        } => {
            more.push_front(other)?;
            Ok(Need::Lacks {
                first,
                others: before(others, more)?,
            })
        }
    }
}

/// Two look-ups side by side: an error beats what is lacking, and of two errors the first in order of sending counts.
/// The time is that of the first's wants. `NoMemory` comes where memory is refused.
pub fn both<A: Drop, B: Drop>(first: Need<A>, second: Need<B>) -> Result<Need<(A, B)>, NoMemory>
    ensures { IfOk result (λ found. need_of found ≡ beside (need_of first) (need_of second)) }
{
    match first {
        Need::Has(value) => Ok(beside_value(value, second)),
        Need::Fails { place, code } => Ok(beside_fault(place, code, second)),
        Need::Lacks { first, others } => beside_lack(first, others, second),
    }
}

/// A look-up beside others: its value stands before theirs. The time is that of its own wants. `NoMemory` comes where
/// memory is refused.
pub fn beside_others<T: Drop>(
    first: Need<T>,
    others: Need<VecDeque<T>>,
) -> Result<Need<VecDeque<T>>, NoMemory>
    ensures { IfOk result (λ found. need_with (λ values. values.items) found
        ≡ after (beside (need_of first) (need_with (λ values. values.items) others))
        (λ two. has (two.0 ∷ two.1))) }
{
    match both(first, others)? {
        Need::Has((value, mut values)) => {
            values.push_front(value)?;
            Ok(Need::Has(values))
        }
        Need::Fails { place, code } => Ok(Need::Fails { place, code }),
        Need::Lacks { first, others } => Ok(Need::Lacks { first, others }),
    }
}

/// Values as a list, in their order.
pub fn listed<T: Drop>(found: Need<VecDeque<T>>) -> Need<List<T>>
    ensures { need_of result ≡ need_with (λ values. values.items) found }
{
    match found {
        Need::Has(values) => Need::Has(List::from_vec(Vec::from(values))),
        Need::Fails { place, code } => Need::Fails { place, code },
        Need::Lacks { first, others } => Need::Lacks { first, others },
    }
}
