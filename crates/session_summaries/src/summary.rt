ghost use Rattle.std.specs.Prelude.{◌≡◌, IfOk};
ghost use Rattle.run_logs.specs.Runs.{entries_of};
ghost use Rattle.session_summaries.specs.Summaries.{summary_of};

use crate::entries::{said_by_client, told_to_client};
use crate::requests::count_requests;
use crate::told::sum_told;
use run_logs::Run;
use std::alloc::Global;
use wire_core::NoMemory;

/// How many requests a session log has, up to a `disconnect`, how many responses, events and stops are told in it, and
/// the sum of the values that it shows for variables named `n` (DAP specification, Base Protocol, ProtocolMessage).
#[derive(Clone, Copy, Debug, Drop, PartialEq, Eq)]
pub struct Summary {
    pub requests: u64,
    pub responses: u64,
    pub events: u64,
    pub stops: u64,
    pub sum: u64,
}

/// The summary of a session log. `NoMemory` comes where memory is refused, or a number has no room in 64 bits.
pub fn summary_of(alloc: Global, log: &[Run]) -> Result<Summary, NoMemory>
    ensures { IfOk result (λ summary. summary ≡ summary_of (entries_of log.now)) }
{
    let said = said_by_client(alloc, log)?;
    let told = told_to_client(alloc, log)?;
    let requests = count_requests(alloc, said.as_slice())?;
    let told = sum_told(alloc, told.as_slice())?;
    Ok(Summary {
        requests,
        responses: told.responses,
        events: told.events,
        stops: told.stops,
        sum: told.sum,
    })
}
