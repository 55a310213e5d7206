//! What waits for its turn, and where a session stands with its target.

use dap_messages::Request;
use jdwp_events::Composite;
use wire_core::Blob;

/// Where a session stands with its target: nothing is asked of it yet; it is attached; or it is gone.
#[derive(Clone, Copy, PartialEq, Eq)]
pub enum Phase {
    Fresh,
    Attached,
    Gone,
}

/// What waits for its turn: a request of the client; what happened in the target at one time; or the target's end (DAP
/// specification, Base Protocol, Request; JDWP, Event command set, Composite).
#[derive(Drop)]
pub enum Item {
    Request(Request),
    /// Its packet stands at this offset, in bytes, in the target's stream.
    Composite { at: u64, composite: Composite },
    /// A composite that came before the sizes of ids were known: its body waits to be read.
    Raw { at: u64, body: Blob },
    TargetEnd,
}
