//! A session over whole messages, and what it is seen as.
ghost use Rattle.std.specs.Prelude.{◌≡◌, ◌<◌, ◌≤◌, length, IfErr, IfOk, OnOk};
ghost use Rattle.bridge_core.specs.Calls.{in_phase};
ghost use Rattle.bridge_core.specs.Cores.{IsReady, fresh_core, with_machine};
ghost use Rattle.bridge_core.specs.Going.{awaits_nothing, rests};
ghost use Rattle.session_endings.specs.declared.ending.Ending.TheVariants.{Flood as floods};

use crate::machine::Machine;
use crate::words::Words;
use machine_model::Phase;
use pending_table::Pending;
use session_endings::{Ending, Limits};
use std::alloc::Global;
use std::marker::Model;
use wire_core::{Blob, NoMemory, Side};

/// A message that has to go out: the side that gets it, and its bytes.
#[derive(Drop)]
pub struct Out {
    pub side: Side,
    pub bytes: Blob,
}

/// A session over whole messages, which has to be spent by `finish`. Contracts see it as the translation machine, the
/// number of messages that the client was told, the commands without a reply, and the last words that are left.
pub struct Core {
    pub(crate) machine: Machine,
    pub(crate) told: u64,
    pub(crate) commands: Pending,
    pub(crate) limit: u32,
    pub(crate) words: Option<Words>,
}

impl Model for Core {
    ghost use Rattle.bridge_core.specs.Cores.{CoreState};

    ghost Value = { CoreState };

    ghost view = { λ c. record {
      machine = c.machine;
      told = c.told;
      commands = c.commands;
      limit = c.limit;
      words = c.words;
    } };
}

impl Core {
    /// A session that has heard and told nothing.
    pub fn new(alloc: Global, limits: &Limits) -> Result<Core, NoMemory>
        ensures fresh { IfOk result (λ core. core ≡ fresh_core limits.now.waiting) }
        ensures ready { IfOk result IsReady }
    {
        Ok(Core {
            machine: Machine::new(alloc)?,
            told: 0,
            commands: Pending::new(),
            limit: limits.waiting,
            words: None,
        })
    }

    /// Whether a `disconnect` was heard, after which nothing more of the client is (DAP specification, Disconnect
    /// request).
    pub fn is_closing(&self) -> bool
        ensures { result ≡ self.now.machine.closing }
    {
        self.machine.is_closing()
    }

    /// Whether the target's handshake was taken up (JDWP, JDWP Start Up).
    pub fn is_greeted(&self) -> bool
        ensures { result ≡ self.now.machine.state.greeting_heard }
    {
        self.machine.is_greeted()
    }

    /// Where the session stands with its target: not attached yet, attached, or left behind by it.
    pub fn phase(&self) -> Phase
        ensures { result ≡ self.now.machine.state.phase }
    {
        self.machine.state.phase()
    }

    /// The message that was handed out last couldn't be sent whole: the session stands with its target as it did before.
    pub fn unsent(&mut self, before: Phase)
        ensures { self.new ≡ with_machine self.old (in_phase before self.old.machine) }
    {
        self.machine.state.return_to(before);
    }

    /// Whether nothing is pending: no command without a reply, and no handshake; of a target that is gone nothing is.
    pub fn at_rest(&self) -> bool
        requires { IsReady self.now }
        ensures { result ≡ rests self.now.machine }
    {
        self.machine.is_gone() || self.awaits_nothing()
    }

    /// Gives the session up.
    pub fn finish(self) {
        let Core {
            machine,
            told: _,
            commands: _,
            limit: _,
            words: _,
        } = self;
        machine.finish();
    }
}

impl Core {
    // There is room for what came.
    pub(crate) fn make_room(&self) -> Result<(), Ending>
        ensures ok { OnOk result (length self.now.machine.waiting ≤ self.now.limit) }
        ensures err { IfErr result (λ ending. (ending ≡ floods)
            × (self.now.limit < length self.now.machine.waiting)) }
    {
        if self.machine.waiting.len() as u64 > self.limit as u64 {
            return Err(Ending::Flood);
        }
        Ok(())
    }

    // Whether no command is without a reply, and no handshake is awaited.
    fn awaits_nothing(&self) -> bool
        ensures { result ≡ awaits_nothing self.now }
    {
        self.commands.is_empty() && !self.machine.awaits_greeting()
    }
}
