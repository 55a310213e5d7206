//! What a look-up comes to whose errors are handed on in place of failing it.
ghost use Rattle.std.specs.Prelude.{◌≡◌, ◌==◌, IfOk, map};
ghost use Rattle.machine_model.specs.Caught.{handed_on, soft};
ghost use Rattle.machine_model.specs.Plans.{refusal_by};
ghost use Rattle.look_ups.specs.Needs.{need_of};

use crate::need::Need;
use machine_model::Want;
use std::alloc::Global;
use std::collections::VecDeque;
use std::marker::Model;
use wire_core::NoMemory;

/// Why a question has no answer: its thread isn't there, or something else is wrong (JDWP, Error Constants,
/// INVALID_THREAD). Contracts see it as the definitions do.
#[derive(Drop)]
pub struct Refusal {
    pub no_thread: bool,
}

impl Model for Refusal {
    ghost use Rattle.machine_model.specs.Plans as plans;

    ghost Value = { plans.Refusal };

    ghost view = { λ r. plans.refusal_by r.no_thread };
}

// What is lacking may be refused.
fn soft(want: Want) -> Want
    ensures { result ≡ soft want }
{
    match want {
        Want::Must(question) => Want::May(question),
        Want::May(question) => Want::May(question),
        Want::Fact(question) => Want::Fact(question),
    }
}

fn all_soft(alloc: Global, mut wants: VecDeque<Want>) -> Result<VecDeque<Want>, NoMemory>
    ensures { IfOk result (λ all. all.items ≡ map soft wants.items) }
{
    let mut all = VecDeque::new(alloc);
    while let Some(want) = wants.pop_front() {
        all.push_back(soft(want))?;
    }
    Ok(all)
}

fn handed(code: u16) -> Refusal
    ensures { result ≡ refusal_by (code == 10) }
{
    Refusal {
        no_thread: code == 10,
    }
}

/// The same look-up, which no error fails: a value is a value, the error that decides is handed on as what it says, and
/// what is lacking may be refused. The time is that of what is lacking. `NoMemory` comes where memory is refused (JDWP,
/// Error Constants).
pub fn handed_on<T: Drop>(
    alloc: Global,
    found: Need<T>,
) -> Result<Need<Result<T, Refusal>>, NoMemory>
    ensures { IfOk result (λ handed. need_of handed ≡ handed_on (need_of found)) }
{
    match found {
        Need::Has(value) => Ok(Need::Has(Ok(value))),
        Need::Fails { code, .. } => Ok(Need::Has(Err(handed(code)))),
        Need::Lacks { first, others } => Ok(Need::Lacks {
            first: soft(first),
            others: all_soft(alloc, others)?,
        }),
    }
}
