//! A world and what lies between it and its debugger.
ghost use Rattle.std.specs.Prelude.{◌≡◌, [], ◌∷◌, ◌++◌, true, false, Ok, None, slice_get, length, take, drop};
ghost use Rattle.std.specs.Prelude.{◌^◌, IfOk, OnOk, OnErr, MatchResult, Some};
ghost use Rattle.world_model.specs.Moving.{count_behind};
ghost use Rattle.target_server.specs.Flights.{count_out, CanReply};
ghost use Rattle.target_server.specs.Joints.{joint_of, start_of, Greets, received, answered, done};
ghost use Rattle.target_server.specs.Joints.{end_of, Serves, next_move, Advances, left};

use crate::commands::{Command, Unserved};
use crate::outgoing::Outgoing;
use crate::program::Program;
use jdwp_commands::{Asked, Replied};
use jdwp_events::{Composite, Event, Policy};
use jdwp_values::{IdSizes, ThreadId};
use std::alloc::Global;
use std::marker::Model;
use wire_core::{List, NoMemory};
use world_model::{Move, MoveTrouble, World, once_more};

/// A world, its program, and what lies between it and its debugger.
#[derive(Debug, Drop)]
pub(crate) struct Link {
    world: World,
    program: Program,
    begin: Option<(ThreadId, Policy)>,
    unserved: Unserved,
    outgoing: Outgoing,
}

impl Model for Link {
    ghost use Rattle.target_server.specs.Joints.{Joint};

    ghost Value = { Joint };

    ghost view = { λ l. record {
      world = l.world;
      program = l.program;
      begin = l.begin;
      unserved = l.unserved;
      flight = l.outgoing;
    } };
}

// Events of one event.
fn of_one(alloc: Global, policy: Policy, event: Event) -> Result<Composite, NoMemory>
    ensures { IfOk result (λ c. c ≡ record { policy = policy; events = event ∷ [] }) }
{
    let mut events = List::new(alloc);
    events.push(event)?;
    Ok(Composite { policy, events })
}

// The start of a target, where it is to be told and the target has not ended.
fn start_of(
    alloc: Global,
    is_dead: bool,
    begin: Option<(ThreadId, Policy)>,
) -> Result<Option<Composite>, NoMemory>
    ensures { IfOk result (λ start. start ≡ start_of is_dead begin) }
{
    if is_dead {
        return Ok(None);
    }
    match begin {
        Some((thread, policy)) => {
            let event = Event::VMStart { request: 0, thread };
            Ok(Some(of_one(alloc, policy, event)?))
        }
        None => Ok(None),
    }
}

// The end of a target, where it has ended and had not before.
fn end_of(alloc: Global, before: bool, now: bool) -> Result<Option<Composite>, NoMemory>
    ensures { IfOk result (λ end. end ≡ end_of before now) }
{
    if !now || before {
        return Ok(None);
    }
    let event = Event::VMDeath { request: 0 };
    Ok(Some(of_one(alloc, Policy::NoThread, event)?))
}

// How often all threads are suspended behind these events. It takes no memory: `NoMemory` comes just where that would
// be 2^64 times.
fn suspended(count: u64, told: &Option<Composite>) -> Result<u64, NoMemory>
    ensures { MatchResult result (λ now. now ≡ count_behind count told.now)
        (λ _. count_behind count told.now ≡ 2 ^ 64) }
{
    match told {
        Some(composite) => if composite.policy.byte() == Policy::All.byte() {
            once_more(count)
        } else {
            Ok(count)
        },
        None => Ok(count),
    }
}

// What a world makes of a command, and replies.
#[tactic(auto, unfolding(crate::specs::Joints::answered))]
fn answer(alloc: Global, world: &mut World, asked: &Asked) -> Result<Replied, NoMemory>
    ensures { IfOk result (λ replied. answered world.old asked.now ≡ Some (world.new, replied)) }
{
    match asked {
        Asked::Question(question) => world.reply(alloc, question),
        Asked::Effect(effect) => world.apply(alloc, effect),
    }
}

// A command is done: its reply goes on its way, and behind it the target's end, where that was asked for.
fn serve(
    alloc: Global,
    world: &mut World,
    outgoing: &mut Outgoing,
    command: &Command,
) -> Result<Replied, NoMemory>
    ensures answers { IfOk result (λ reply. answered world.old command.now.asked ≡ Some (world.new, reply)) }
    ensures spelled { IfOk result (λ reply. CanReply world.new.sizes reply) }
    ensures sent { IfOk result (λ reply. outgoing.new
        ≡ done world.old world.new command.now reply outgoing.old) }
{
    let before = world.dead;
    let reply = answer(alloc, world, &command.asked)?;
    outgoing.reply(alloc, world.sizes, command.id, &reply)?;
    let end = end_of(alloc, before, world.dead)?;
    outgoing.tell_if(alloc, world.sizes, &end)?;
    Ok(reply)
}

impl Link {
    /// A world from which nothing came and to which nothing was sent; it takes no memory.
    pub(crate) fn new(
        alloc: Global,
        world: World,
        program: List<Move>,
        begin: Option<(ThreadId, Policy)>,
    ) -> Link
        ensures { result ≡ joint_of world program begin }
    {
        Link {
            world,
            program: Program::new(program),
            begin,
            unserved: Unserved::new(alloc),
            outgoing: Outgoing::new(alloc),
        }
    }

    /// The sizes of its ids.
    pub(crate) fn sizes(&self) -> IdSizes
        ensures { result ≡ self.now.world.sizes }
    {
        self.world.sizes
    }

    /// Whether the target sent its handshake.
    pub(crate) fn is_greeted(&self) -> bool
        ensures { result ≡ self.now.flight.greeted }
    {
        self.outgoing.is_greeted()
    }

    /// The debugger's handshake came: the target sends its own, then its start, and what waited for it.
    pub(crate) fn greet(&mut self, alloc: Global) -> Result<(), NoMemory>
        requires { self.old.flight.greeted ≡ false }
        ensures { OnOk result (Greets self.old self.new) }
    {
        let start = start_of(alloc, self.world.dead, self.begin)?;
        self.outgoing.shake()?;
        self.outgoing.tell_if(alloc, self.world.sizes, &start)?;
        self.outgoing.release(alloc)?;
        self.world.count = suspended(self.world.count, &start)?;
        self.begin = None;
        Ok(())
    }

    /// A command came; where memory is refused nothing changes.
    pub(crate) fn receive(&mut self, command: Command) -> Result<(), NoMemory>
        ensures ok { OnOk result (self.new ≡ received command self.old) }
        ensures err { OnErr result (self.new ≡ self.old) }
    {
        self.unserved.push(command)
    }

    /// Serves the command at a place of those that wait, from 0; `false` where there is none.
    pub(crate) fn serve_one(&mut self, alloc: Global, place: usize) -> Result<bool, NoMemory>
        ensures served { result ≡ Ok true → Serves self.old place self.new }
        ensures none { result ≡ Ok false → (slice_get self.old.unserved place ≡ None) × (self.new ≡ self.old) }
    {
        let Some(command) = self.unserved.take(place) else {
            return Ok(false);
        };
        serve(alloc, &mut self.world, &mut self.outgoing, &command)?;
        Ok(true)
    }

    /// Makes the program's next move; `false` where none can be made.
    pub(crate) fn advance(&mut self, alloc: Global) -> Result<bool, NoMemory>
        ensures made { result ≡ Ok true → Advances self.old self.new }
        ensures none { result ≡ Ok false
            → (next_move self.old.world self.old.program ≡ None) × (self.new ≡ self.old) }
    {
        let Some(next) = self.program.next() else {
            return Ok(false);
        };
        match self.world.make_move(alloc, next) {
            Ok(told) => {
                self.program.pass();
                self.outgoing.tell_if(alloc, self.world.sizes, &told)?;
                Ok(true)
            }
            Err(MoveTrouble::NoMemory) => Err(NoMemory),
            Err(MoveTrouble::Ended) => Ok(false),
            Err(MoveTrouble::Held) => Ok(false),
            Err(MoveTrouble::BadMove) => Ok(false),
        }
    }

    /// Moves the first bytes on their way out, as many as there are and have room, and answers their number.
    pub(crate) fn out(&mut self, buf: &mut [u8]) -> usize
        ensures count { result ≡ count_out (length buf.old) self.old.flight }
        ensures bytes { buf.new ≡ take result self.old.flight.bytes ++ drop result buf.old }
        ensures rest { self.new ≡ left result self.old }
    {
        self.outgoing.out(buf)
    }
}
