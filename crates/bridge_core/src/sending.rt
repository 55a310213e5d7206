//! What goes out: the machine's next message, as bytes.
ghost use Rattle.std.specs.Prelude.{◌≡◌, [], false, IfErr, IfNone, IfOk, IfSome, OnErr, OnOk};
ghost use Rattle.jdwp_packets.specs.Packets.{command_packet, handshake, packet_bytes};
ghost use Rattle.bridge_core.specs.Cores.{IsReady};
ghost use Rattle.bridge_core.specs.Going.{Comes, IsSent, IsStep, IsTold, MaySend, is_hidden};
ghost use Rattle.bridge_core.specs.Calls.{Finds, IsIdle, Sends, finish_ending};
ghost use Rattle.target_bodies.specs.Hearing.{MayBe};
ghost use Rattle.wire_core.specs.declared.outside.Side.TheVariants.{Target};

use crate::session::{Core, Out};
use dap_messages::Told;
use jdwp_commands::Asked;
use jdwp_packets::write_command;
use machine_model::Finish;
use message_bodies::{framed, packed, serving};
use session_endings::{Ending, TargetFault};
use session_facts::wire_effect;
use std::alloc::Global;
use talk_plans::Next;
use target_bodies::bad_body;
use wire_core::{Blob, NoMemory, Side};

// What goes to the target first (JDWP, JDWP Start Up).
const HANDSHAKE: [u8; 14] = *b"JDWP-Handshake";

// The set and the number of the command that lets a target run on (JDWP, VirtualMachine command set, Dispose).
const MACHINE_SET: u8 = 1;

const DISPOSE: u8 = 6;

impl Core {
    /// The next message that has to go out, or nothing where nothing has to until something comes. The session ends
    /// where it is over, or where the number of a message would reach 2^63, for which it has no memory.
    pub fn out(&mut self, alloc: Global) -> Result<Option<Out>, Ending>
        requires { IsReady self.old }
        ensures rest { IfOk result (λ out. IfNone out (IsIdle self.old self.new)) }
        ensures sends { IfOk result (λ out. IfSome out (λ o. Sends self.old o.side o.bytes self.new)) }
        ensures ready { OnOk result (IsReady self.new) }
        ensures over { IfErr result (Finds self.old self.new) }
    {
        match go(self, alloc)? {
            Next::Wait => Ok(None),
            Next::Go => unreachable!(),
            Next::Done => unreachable!(),
            Next::Tell(told) => Ok(Some(self.tell(alloc, &told)?)),
            Next::Greet => Ok(Some(greeting(alloc)?)),
            Next::Send(effect) => {
                let effect = wire_effect(alloc, &effect)?;
                Ok(Some(self.send(alloc, Asked::Effect(effect))?))
            }
            Next::Ask(question) => Ok(Some(self.send(alloc, Asked::Question(question))?)),
            Next::Over(finish) => Err(ending_of(finish)),
        }
    }

    // What is due, where the core stands.
    #[tactic(auto, using(crate::proofs::GoLaws::step_so, crate::proofs::GoLaws::full_so))]
    fn next(&mut self, alloc: Global) -> Result<Next, NoMemory>
        requires { IsReady self.old }
        ensures { IfOk result (λ next. IsStep self.old next self.new) }
    {
        let full = self.commands.is_full();
        self.machine.step(alloc, full)
    }

    /// Tells the client the next message (DAP overview, Base protocol).
    pub(crate) fn tell(&mut self, alloc: Global, told: &Told) -> Result<Out, NoMemory>
        ensures ok { IfOk result (λ out. IsTold self.old told.now out.side out.bytes self.new) }
        ensures err { OnErr result (self.new ≡ self.old) }
    {
        let bytes = framed(alloc, self.told, told)?;
        self.told += 1;
        Ok(Out {
            side: Side::Client,
            bytes,
        })
    }

    /// Sends the target a command (JDWP, JDWP Packets, command packet).
    pub(crate) fn send(&mut self, alloc: Global, asked: Asked) -> Result<Out, NoMemory>
        requires { MaySend self.old asked }
        ensures { IfOk result (λ out. IsSent self.old asked out.side out.bytes self.new) }
    {
        let sizes = serving(self.machine.sizes())?;
        let bytes = packed(alloc, sizes, self.commands.next_id(), &asked)?;
        let _ = self.commands.send(asked);
        Ok(Out {
            side: Side::Target,
            bytes,
        })
    }
}

/// The handshake (JDWP, JDWP Start Up).
pub(crate) fn greeting(alloc: Global) -> Result<Out, NoMemory>
    ensures side { IfOk result (λ out. out.side ≡ Target) }
    ensures bytes { IfOk result (λ out. out.bytes ≡ handshake) }
{
    Ok(Out {
        side: Side::Target,
        bytes: Blob::from_slice(alloc, &HANDSHAKE)?,
    })
}

/// The command that lets the target run on, with this id (JDWP, VirtualMachine command set, Dispose).
pub(crate) fn disposing(alloc: Global, id: u32) -> Result<Out, NoMemory>
    ensures side { IfOk result (λ out. out.side ≡ Target) }
    ensures bytes { IfOk result (λ out. out.bytes ≡ packet_bytes (command_packet id 1 6 [])) }
{
    Ok(Out {
        side: Side::Target,
        bytes: write_command(alloc, id, MACHINE_SET, DISPOSE, &[])?,
    })
}

// How the machine's end ends the session.
fn ending_of(finish: Finish) -> Ending
    ensures { MayBe result (finish_ending finish) }
{
    match finish {
        Finish::Done => Ending::Done,
        Finish::OneThread(at) => bad_body(TargetFault::PolicyThread, at, 0),
    }
}

// A step that nobody sees.
fn is_hidden(next: &Next) -> bool
    ensures { result ≡ is_hidden next.now }
{
    matches!(next, Next::Go | Next::Done)
}

/// Goes on to what is seen next.
pub(crate) fn go(core: &mut Core, alloc: Global) -> Result<Next, NoMemory>
    requires { IsReady core.old }
    ensures comes { IfOk result (λ next. Comes core.old next core.new) }
    ensures seen { IfOk result (λ next. is_hidden next ≡ false) }
{
    let mut next = Next::Go;
    while is_hidden(&next) {
        next = core.next(alloc)?;
    }
    Ok(next)
}
