//! The classes that were met on the way upwards.
ghost use Rattle.std.specs.Prelude.{◌≡◌, ◌∷◌, ◌++◌, ◌==◌, [], false, IfOk, OnErr, OnOk};
ghost use Rattle.std.specs.List.{list_any};

use indexmap::IndexSet;
use std::alloc::Global;
use std::marker::Model;
use wire_core::NoMemory;

/// The ids of the classes that were met, each once, in their order. Contracts see that list.
#[derive(Drop)]
pub struct MetClasses {
    classes: IndexSet<u64>,
}

impl Model for MetClasses {
    ghost use Rattle.std.specs.Prelude.{ℕ, List};

    ghost Value = { List ℕ };

    ghost view = { λ m. m.classes.keys };
}

impl MetClasses {
    /// None was met; it takes no memory.
    pub fn new(alloc: Global) -> MetClasses
        ensures { result ≡ [] }
    {
        MetClasses {
            classes: IndexSet::new(alloc),
        }
    }

    /// Whether a class was met.
    pub fn has(&self, class: u64) -> bool
        ensures { result ≡ list_any (λ other. other == class) self.now }
    {
        self.classes.contains(&class)
    }

    /// A class is met that wasn't. `NoMemory` comes where memory is refused; then no more was met than before.
    pub fn add(&mut self, class: u64) -> Result<(), NoMemory>
        requires { list_any (λ other. other == class) self.old ≡ false }
        ensures ok { OnOk result (self.new ≡ self.old ++ class ∷ []) }
        ensures err { OnErr result (self.new ≡ self.old) }
    {
        self.classes.insert(class)?;
        Ok(())
    }

    /// Their ids, in the order in which they were met. `NoMemory` comes where memory is refused.
    pub fn listed(&self, alloc: Global) -> Result<Vec<u64>, NoMemory>
        ensures { IfOk result (λ listed. listed.items ≡ self.now) }
    {
        Ok(self.classes.iter().copied().collect(alloc)?)
    }
}
