//! What the client says, and the target's handshake and end.
ghost use Rattle.std.specs.Prelude.{◌≡◌, IfErr, OnOk};
ghost use Rattle.machine_model.specs.Runs.{greeting_heard};
ghost use Rattle.bridge_core.specs.Calls.{Refuses, RefusesEnd, Takes, without_target};
ghost use Rattle.bridge_core.specs.Cores.{IsReady, with_machine};

use crate::session::Core;
use dap_messages::{Incoming, ReadFault, read_request};
use session_endings::{ClientFault, Ending};
use std::alloc::Global;

impl Core {
    /// Hears the body of a frame of the client, whose first byte stands at this offset in its stream (DAP overview, Base
    /// protocol).
    pub fn client_body(&mut self, alloc: Global, at: u64, body: &[u8]) -> Result<(), Ending>
        requires { IsReady self.old }
        ensures ok { OnOk result (Takes self.old body.now self.new) }
        ensures ready { OnOk result (IsReady self.new) }
        ensures err { IfErr result (Refuses self.old body.now at self.new) }
    {
        if self.machine.is_closing() {
            return Ok(());
        }
        match read_request(alloc, body) {
            Ok(Incoming::Request(request)) => {
                self.machine.hear(request)?;
                self.make_room()
            }
            Ok(Incoming::Ignored) => Ok(()),
            Err(ReadFault::NoMemory) => Err(Ending::NoMemory),
            Err(ReadFault::NotJson) => Err(Ending::BadClient {
                fault: ClientFault::NotJson,
                at,
            }),
            Err(ReadFault::NotAMessage) => Err(Ending::BadClient {
                fault: ClientFault::NotAMessage,
                at,
            }),
        }
    }

    /// The target's handshake came (JDWP, JDWP Start Up).
    pub fn target_greeted(&mut self)
        requires { IsReady self.old }
        ensures same { self.new ≡ with_machine self.old (greeting_heard self.old.machine) }
        ensures ready { IsReady self.new }
    {
        self.machine.greet();
    }

    /// The target's stream ended.
    pub fn target_shut(&mut self, alloc: Global) -> Result<(), Ending>
        requires { IsReady self.old }
        ensures ok { OnOk result (self.new ≡ without_target self.old) }
        ensures ready { OnOk result (IsReady self.new) }
        ensures err { IfErr result (RefusesEnd self.old self.new) }
    {
        self.machine.end(alloc)?;
        self.make_room()
    }
}
