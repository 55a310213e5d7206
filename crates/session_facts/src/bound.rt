//! The breakpoints that the client knows to be verified.
ghost use Rattle.std.specs.Prelude.{◌≡◌, ◌∷◌, [], OnOk};
ghost use Rattle.machine_model.specs.Breakpoints.{has_id, is_verified, with_id, with_told};

use dap_messages::{Breakpoint, BreakpointStatus};
use indexmap::IndexSet;
use std::alloc::Global;
use std::marker::Model;
use wire_core::NoMemory;

/// The ids of the breakpoints that were told to be verified, in the order of the telling.
#[derive(Drop)]
pub struct BoundIds {
    ids: IndexSet<u64>,
}

impl Model for BoundIds {
    ghost use Rattle.std.specs.Prelude.{ℕ, List};

    ghost Value = { List ℕ };

    ghost view = { λ b. b.ids.keys };
}

fn is_verified(status: BreakpointStatus) -> bool
    ensures { result ≡ is_verified status }
{
    matches!(status, BreakpointStatus::Verified)
}

impl BoundIds {
    /// None was told; it takes no memory.
    pub fn new(alloc: Global) -> BoundIds
        ensures { result ≡ [] }
    {
        BoundIds {
            ids: IndexSet::new(alloc),
        }
    }

    /// A breakpoint is told to be verified: its id stands behind those that were told before, once. `NoMemory` comes
    /// where memory is refused.
    pub fn add(&mut self, id: u64) -> Result<(), NoMemory>
        ensures { OnOk result (self.new ≡ with_id self.old id) }
    {
        self.ids.insert(id)?;
        Ok(())
    }

    /// A breakpoint is told, which may be verified. `NoMemory` comes where memory is refused.
    pub fn add_told(&mut self, breakpoint: Breakpoint) -> Result<(), NoMemory>
        ensures { OnOk result (self.new ≡ with_told self.old (breakpoint ∷ [])) }
    {
        if is_verified(breakpoint.status) {
            return self.add(breakpoint.id);
        }
        Ok(())
    }

    /// Whether a breakpoint was told to be verified.
    pub fn has(&self, id: u64) -> bool
        ensures { result ≡ has_id self.now id }
    {
        self.ids.contains(&id)
    }
}
