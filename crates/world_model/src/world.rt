ghost use Rattle.std.specs.Prelude.{◌≡◌};

use crate::rows::{
    Installed, Put, StepStart, WorldArray, WorldClass, WorldField, WorldFrame, WorldMethod,
    WorldObject, WorldString, WorldThread, WorldVariable,
};
use jdwp_values::IdSizes;
use wire_core::List;

/// The world of a target: its program, and the debugger's hold on it (JDWP, Detailed Command Information).
#[derive(Debug, Drop)]
pub struct World {
    pub sizes: IdSizes,
    pub classes: List<WorldClass>,
    pub methods: List<WorldMethod>,
    pub variables: List<WorldVariable>,
    pub fields: List<WorldField>,
    pub objects: List<WorldObject>,
    pub arrays: List<WorldArray>,
    pub strings: List<WorldString>,
    pub puts: List<Put>,
    pub threads: List<WorldThread>,
    pub frames: List<WorldFrame>,
    pub requests: List<Installed>,
    /// Of each request for a step, where its thread stood as it was set.
    pub steps: List<StepStart>,
    /// The number that the next event request gets, unless that is in use.
    pub next_request: u32,
    /// How often all threads are suspended (JDWP, VirtualMachine command set, Suspend).
    pub count: u64,
    pub dead: bool,
}

impl World {
    /// How many suspensions of all threads it has (JDWP, VirtualMachine command set, Suspend and Resume).
    pub fn held(&self) -> u64
        ensures { result ≡ self.now.count }
    {
        self.count
    }

    /// The event requests that are installed, in the order in which they were set (JDWP, EventRequest command set).
    pub fn requests(&self) -> &List<Installed>
        ensures { result.now ≡ self.now.requests }
    {
        &self.requests
    }

    /// Whether the target has ended (JDWP, Event command set, Composite, VMDeath).
    pub fn is_dead(&self) -> bool
        ensures { result ≡ self.now.dead }
    {
        self.dead
    }
}
