ghost use Rattle.std.specs.Prelude.{◌≡◌, ◌+◌, ◌<◌, ◌^◌};
ghost use Rattle.suspend_ledger.specs.Suspensions.{composite, suspended, resumed, with_happening};

use jdwp_events::Policy;
use std::marker::Model;

/// How many suspensions of the whole target a session holds: the target runs again once each of them is undone (JDWP,
/// VirtualMachine command set, Suspend and Resume).
///
/// Contracts see the number. No call takes memory.
#[derive(Debug, Drop)]
pub struct Ledger {
    held: u64,
}

impl Model for Ledger {
    ghost use Rattle.std.specs.Prelude.{ℕ};

    ghost Value = { ℕ };

    ghost view = { λ l. l.held };
}

impl Ledger {
    /// The ledger of a session that has just begun: nothing is held.
    pub fn new() -> Ledger
        ensures { result ≡ 0 }
    {
        Ledger { held: 0 }
    }

    /// Enters a composite under its policy: one more is held under `All`, and no more under another. With it fewer than
    /// 2^63 are held (JDWP, Event command set, Composite).
    pub fn composite(&mut self, policy: Policy)
        requires { with_happening (composite policy) self.old < 2 ^ 63 }
        ensures { self.new ≡ with_happening (composite policy) self.old }
    {
        if policy == Policy::All {
            self.held += 1;
        }
    }

    /// Enters a Suspend that the target accepted: one more is held, and with it fewer than 2^63 (JDWP, VirtualMachine
    /// command set, Suspend).
    pub fn suspended(&mut self)
        requires { with_happening suspended self.old < 2 ^ 63 }
        ensures { self.new ≡ with_happening suspended self.old }
    {
        self.held += 1;
    }

    /// Enters a Resume that was sent while something was held: one less is held (JDWP, VirtualMachine command set,
    /// Resume).
    pub fn resumed(&mut self)
        requires { 0 < self.old }
        ensures { self.new ≡ with_happening resumed self.old }
    {
        self.held -= 1;
    }

    /// How many are held.
    pub fn held(&self) -> u64
        ensures { result ≡ self.now }
    {
        self.held
    }
}
