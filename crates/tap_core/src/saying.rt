//! What a tap says: the calls that do what is due.
ghost use Rattle.std.specs.Prelude.{◌≡◌, ◌∷◌, ℕ, IfOk, List, Some, slice_get};
ghost use Rattle.jdwp_commands.specs.Commands.{number_of, spell_command};
ghost use Rattle.jdwp_packets.specs.Packets.{command_packet, handshake, packet_bytes};
ghost use Rattle.tap_core.specs.Cores.{Unheard, state_in};
ghost use Rattle.tap_core.specs.Saying.{Decides, IsSaid, Speaks};
ghost use Rattle.tap_core.specs.Names.{a_question, Ask as AnAsk, Client as to_debugger};
ghost use Rattle.tap_core.specs.Names.{DebuggerCommand as ACommand, IdSizes as Used, Target as to_target};
ghost use Rattle.tap_model.specs.States.{Said, greets, hands};
ghost use Rattle.tap_model.specs.Steps.{Step, due, passed_on, question_command, sizes_command};

use crate::deciding::Next;
use crate::packets::{command_bytes, next_command, next_packet, owner_of};
use crate::tap::TapCore;
use jdwp_values::IdSizes;
use std::alloc::Global;
use tap_model::{Ask, Owner};
use tap_questions::question_bytes;
use wire_core::{Blob, NoMemory, Side};

// What both sides say first (JDWP, JDWP Start Up).
const HANDSHAKE: [u8; 14] = *b"JDWP-Handshake";

/// A message that has to go out: the side that gets it, and its bytes.
#[derive(Debug, Drop)]
pub struct Out {
    pub side: Side,
    pub bytes: Blob,
}

// The bytes of the handshake.
fn greeting(alloc: Global) -> Result<Blob, NoMemory>
    ensures { IfOk result (λ bytes. bytes ≡ handshake) }
{
    Blob::from_slice(alloc, &HANDSHAKE)
}

// The bytes of the question of this number, under this id; there are such where it is there and fit.
fn question_at(
    alloc: Global,
    asks: &[Ask],
    sizes: Option<IdSizes>,
    n: usize,
    id: u32,
) -> Result<Blob, NoMemory>
    ensures { (used : Used) (ask : AnAsk) → sizes ≡ Some used → slice_get asks.now n ≡ Some ask
        → IfOk result (λ bytes. bytes ≡ packet_bytes (command_packet id
        (number_of (a_question ask.question)).0 (number_of (a_question ask.question)).1
        (spell_command used (a_question ask.question)))) }
{
    let Some(used) = sizes else {
        return Err(NoMemory);
    };
    if n >= asks.len() {
        return Err(NoMemory);
    }
    match question_bytes(alloc, used, id, &asks[n].question) {
        Ok(Some(bytes)) => Ok(bytes),
        Ok(None) => Err(NoMemory),
        Err(refused) => Err(refused),
    }
}

impl TapCore {
    /// Does what is due: its bytes are to go out, to its side. What the questions have come to stays, also where memory
    /// is refused.
    pub fn say(&mut self, alloc: Global, asks: &[Ask], next: Next) -> Result<Out, NoMemory>
        ensures said { (unheard : Unheard) (what : Said) → due asks.now (state_in self.old unheard) ≡ Step.says what
            → Decides (Step.says what) next
            → IfOk result (λ out. IsSaid what (state_in self.old unheard) out (state_in self.new unheard)) }
        ensures kept { self.new.asking.answers ≡ self.old.asking.answers }
    {
        match next {
            Next::Greet(Side::Target) => self.greet_target(alloc),
            Next::Greet(Side::Client) => self.greet_debugger(alloc),
            Next::AskSizes => self.ask_sizes(alloc),
            Next::PassOn => self.pass_on(alloc),
            Next::HandOn => self.hand_on(),
            Next::AskNext => self.ask_next(alloc, asks),
            Next::Floods => Err(NoMemory),
            Next::Rests => Err(NoMemory),
        }
    }

    // The target is greeted (JDWP, JDWP Start Up).
    fn greet_target(&mut self, alloc: Global) -> Result<Out, NoMemory>
        ensures said { IfOk result (λ out. Speaks (greets to_target) self.old out self.new) }
        ensures kept { self.new.asking ≡ self.old.asking }
    {
        let bytes = greeting(alloc)?;
        self.target_greeted = true;
        Ok(Out {
            side: Side::Target,
            bytes,
        })
    }

    // The debugger is greeted.
    fn greet_debugger(&mut self, alloc: Global) -> Result<Out, NoMemory>
        ensures said { IfOk result (λ out. Speaks (greets to_debugger) self.old out self.new) }
        ensures kept { self.new.asking ≡ self.old.asking }
    {
        let bytes = greeting(alloc)?;
        self.debugger_greeted = true;
        Ok(Out {
            side: Side::Client,
            bytes,
        })
    }

    // The sizes of ids are asked for (JDWP, VirtualMachine command set, IDSizes).
    fn ask_sizes(&mut self, alloc: Global) -> Result<Out, NoMemory>
        ensures said { IfOk result (λ out. Speaks (sizes_command self.old.sent) self.old out self.new) }
        ensures kept { self.new.asking.answers ≡ self.old.asking.answers }
    {
        let bytes = command_bytes(alloc, self.sent.next_id(), 1, 7, &[])?;
        self.sent.send(Owner::Sizes)?;
        self.asking.ask_sizes();
        Ok(Out {
            side: Side::Target,
            bytes,
        })
    }

    // The next command of the debugger's is passed on.
    fn pass_on(&mut self, alloc: Global) -> Result<Out, NoMemory>
        ensures said { (command : ACommand) (others : List ACommand) → self.old.commands ≡ command ∷ others
            → IfOk result (λ out. Speaks (passed_on self.old.sent command) self.old out self.new) }
        ensures kept { self.new.asking ≡ self.old.asking }
    {
        let Some(command) = next_command(&mut self.commands) else {
            return Err(NoMemory);
        };
        let id = self.sent.next_id();
        let bytes = command_bytes(
            alloc,
            id,
            command.set,
            command.command,
            command.body.as_slice(),
        )?;
        self.sent.send(owner_of(&command))?;
        Ok(Out {
            side: Side::Target,
            bytes,
        })
    }

    // The next packet for the debugger is handed on.
    fn hand_on(&mut self) -> Result<Out, NoMemory>
        ensures said { (bytes : List ℕ) (others : List (List ℕ)) → self.old.packets ≡ bytes ∷ others
            → IfOk result (λ out. Speaks (hands bytes) self.old out self.new) }
        ensures kept { self.new.asking ≡ self.old.asking }
    {
        match next_packet(&mut self.packets) {
            Some(bytes) => Ok(Out {
                side: Side::Client,
                bytes,
            }),
            None => Err(NoMemory),
        }
    }

    // The next question is asked.
    fn ask_next(&mut self, alloc: Global, asks: &[Ask]) -> Result<Out, NoMemory>
        ensures said { (sizes : Used) (n : ℕ) (left : List ℕ) (ask : AnAsk) → self.old.asking.sizes ≡ Some sizes
            → self.old.asking.left ≡ n ∷ left → slice_get asks.now n ≡ Some ask
            → IfOk result (λ out. Speaks (question_command self.old.sent sizes n ask.question) self.old out self.new) }
        ensures kept { self.new.asking.answers ≡ self.old.asking.answers }
    {
        let Some(n) = self.asking.next() else {
            return Err(NoMemory);
        };
        let bytes = question_at(alloc, asks, self.asking.sizes(), n, self.sent.next_id())?;
        self.sent.send(Owner::Question(n))?;
        Ok(Out {
            side: Side::Target,
            bytes,
        })
    }
}
