//! Commands that came and were not served.
ghost use Rattle.std.specs.Prelude.{◌≡◌, [], ◌∷◌, ◌++◌, remove, slice_get, MatchOption, OnOk, OnErr};

use jdwp_commands::Asked;
use std::alloc::Global;
use std::marker::Model;
use wire_core::NoMemory;

/// A command that came: the id of its packet, and what it asks (JDWP, JDWP Packets, command packet).
#[derive(Debug, Drop)]
pub struct Command {
    pub id: u32,
    pub asked: Asked,
}

/// The commands that were not served, in the order in which they came.
#[derive(Debug, Drop)]
pub(crate) struct Unserved {
    commands: Vec<Command>,
}

impl Model for Unserved {
    ghost use Rattle.std.specs.Prelude.{List};
    ghost use Rattle.target_server.specs.declared.commands.Command.{Command as ACommand};

    ghost Value = { List ACommand };

    ghost view = { λ u. u.commands.items };
}

impl Unserved {
    /// No command came; it takes no memory.
    pub(crate) fn new(alloc: Global) -> Unserved
        ensures { result ≡ [] }
    {
        Unserved {
            commands: Vec::new(alloc),
        }
    }

    /// A command comes; where memory is refused the others stay.
    pub(crate) fn push(&mut self, command: Command) -> Result<(), NoMemory>
        ensures ok { OnOk result (self.new ≡ self.old ++ command ∷ []) }
        ensures err { OnErr result (self.new ≡ self.old) }
    {
        self.commands.push(command)?;
        Ok(())
    }

    /// Takes the command at a place out, from 0; the others keep their order.
    pub(crate) fn take(&mut self, place: usize) -> Option<Command>
        ensures taken { result ≡ slice_get self.old place }
        ensures others { MatchOption result (self.new ≡ self.old) (λ _. self.new ≡ remove self.old place) }
    {
        if place >= self.commands.len() {
            return None;
        }
        Some(self.commands.remove(place))
    }
}
