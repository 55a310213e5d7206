//! A scripted session: what its schedule does, line by line.
ghost use Rattle.std.specs.Prelude.{◌≡◌, ℕ, ◌<◌, ◌≤◌, true, false, [], ◌∷◌, List, length, take, drop, Ok, Some, None};
ghost use Rattle.std.specs.Prelude.{option_map, IfOk, IfSome, IfNone, OnOk, if◌then◌else◌};
ghost use Rattle.wire_core.specs.declared.links.Links.{Links as TheLinks};
ghost use Rattle.wire_core.specs.declared.outside.Side.TheVariants.{Client as client_side, Target as target_side};
ghost use Rattle.wire_core.specs.declared.outside.Entry.TheVariants.{Shut as ends};
ghost use Rattle.wire_core.specs.Outside.{entry_of};
ghost use Rattle.wire_core.specs.Links.{is_open_in, first_open, IsPossible};
ghost use Rattle.target_server.specs.Joints.{left};
ghost use Rattle.script_wires.specs.Lines.{lines_left};
ghost use Rattle.script_wires.specs.Played.{SendsTo, TakesIn};
ghost use Rattle.script_wires.specs.Playing.{beginning, start_of, coming, come, heard, with_lines};
ghost use Rattle.script_wires.specs.Plays.{playing};
ghost use Rattle.script_wires.specs.Schedules.{Gives, GivesFirst, IsStill, IsIdle, Works, ServesIf, MovesIf, Settles};
ghost use Rattle.script_wires.specs.Schedules.{Steps, Reaches, GivesIfOpen};

use crate::client::Client;
use crate::schedule::Schedule;
use jdwp_events::Policy;
use jdwp_values::ThreadId;
use script_rows::{Begin, Script, Turn};
use std::alloc::Global;
use target_server::{Target, TargetTrouble};
use wire_core::{Happening, Links, NoMemory, Side};

// So many bytes come at a time, at most.
const MOST: usize = 65_536;

/// What is left of a schedule, the client's requests, and the target.
#[derive(Drop)]
pub(crate) struct Play {
    schedule: Schedule,
    client: Client,
    target: Target,
}

// The thread and the policy of a target's start.
fn start_of(begin: Option<Begin>) -> Option<(ThreadId, Policy)>
    ensures { result ≡ start_of begin }
{
    match begin {
        Some(begin) => Some((begin.thread, begin.policy)),
        None => None,
    }
}

// Moves the first bytes on their way from a target to the front of a buffer, at most so many, and answers their number.
fn out_of(target: &mut Target, most: usize, buffer: &mut [u8]) -> usize
    requires { most ≤ length buffer.old }
    ensures count { result ≡ length (take most target.old.joint.flight.bytes) }
    ensures front { take result buffer.new ≡ take most target.old.joint.flight.bytes }
    ensures rest { target.new ≡ record target.old { joint = left result target.old.joint } }
{
    target.out(&mut buffer[..most])
}

// What is heard where so many bytes of a side came.
fn heard(side: Side, count: usize) -> Happening
    ensures entry { (bytes buffer : List ℕ) → count ≡ length bytes → take count buffer ≡ bytes
        → entry_of buffer result ≡ heard side bytes }
    ensures possible { (links : TheLinks) → (0 < count → is_open_in links side ≡ true) → count ≤ 65536
        → IsPossible links 65536 result }
{
    if count == 0 {
        Happening::Quiet
    } else {
        Happening::Bytes(side, count)
    }
}

// The end of a side that is open.
fn end_of(side: Side, links: Links) -> Option<Happening>
    ensures entry { (buffer : List ℕ) → option_map (entry_of buffer) result
        ≡ (if is_open_in links side then Some (ends side) else None) }
    ensures possible { IfSome result (IsPossible links 65536) }
{
    if links.is_open(side) {
        Some(Happening::Shut(side))
    } else {
        None
    }
}

impl Play {
    /// The play of a script at its beginning; it takes no memory.
    pub(crate) fn new(alloc: Global, script: Script) -> Play
        ensures { (links : TheLinks) → is_open_in links client_side ≡ true
            → is_open_in links target_side ≡ true → playing result links ≡ beginning script }
    {
        let Script {
            world,
            program,
            begin,
            schedule,
            turns: _,
            quiet: _,
            waiting: _,
        } = script;
        Play {
            schedule: Schedule::new(schedule),
            client: Client::new(alloc),
            target: Target::new(alloc, world, program, start_of(begin)),
        }
    }

    /// The bridge sends bytes to a side: the target takes them, as far as it takes any.
    pub(crate) fn take_in(
        &mut self,
        alloc: Global,
        side: Side,
        bytes: &[u8],
    ) -> Result<(), NoMemory>
        ensures { OnOk result ((links : TheLinks)
            → SendsTo side (playing self.old links) bytes.now (playing self.new links)) }
    {
        match side {
            Side::Client => Ok(()),
            Side::Target => self.feed(alloc, bytes),
        }
    }

    // The target takes what the bridge sends it, as far as it takes any.
    fn feed(&mut self, alloc: Global, bytes: &[u8]) -> Result<(), NoMemory>
        ensures { OnOk result ((links : TheLinks)
            → TakesIn (playing self.old links) bytes.now (playing self.new links)) }
    {
        match self.target.feed(alloc, bytes) {
            Ok(()) => Ok(()),
            Err(TargetTrouble::NoMemory) => Err(NoMemory),
            Err(TargetTrouble::Packet(_)) => Ok(()),
            Err(TargetTrouble::NotACommand { .. }) => Ok(()),
            Err(TargetTrouble::Body { .. }) => Ok(()),
        }
    }

    /// Does what the schedule says, up to the next thing that the bridge hears of; its bytes stand at the front of the
    /// buffer.
    #[tactic(auto, using(crate::proofs::WeightLaws::steps_less))]
    pub(crate) fn next(
        &mut self,
        alloc: Global,
        links: Links,
        buffer: &mut [u8],
    ) -> Result<Happening, NoMemory>
        requires room { length buffer.old ≡ 65536 }
        requires some_open { is_open_in links (first_open links) ≡ true }
        ensures reaches { IfOk result (λ happening. Reaches (playing self.old links) (entry_of buffer.new happening)
            (playing self.new links)) }
        ensures possible { IfOk result (IsPossible links 65536) }
    {
        loop {
            if let Some(happening) = self.step(alloc, links, buffer)? {
                return Ok(happening);
            }
        }
    }
}

impl Play {
    // Moves the first bytes of the client to the front of the buffer, at most so many, and answers their number.
    fn give_of_client(&mut self, most: usize, links: Links, buffer: &mut [u8]) -> usize
        requires { most ≤ length buffer.old }
        ensures count { result ≡ length (take most (coming client_side (playing self.old links))) }
        ensures front { take result buffer.new ≡ take most (coming client_side (playing self.old links)) }
        ensures rest { playing self.new links ≡ come client_side result (playing self.old links) }
        ensures open { 0 < result → is_open_in links client_side ≡ true }
    {
        if links.is_open(Side::Client) {
            self.client.out(most, buffer)
        } else {
            0
        }
    }

    // The same of the target.
    fn give_of_target(&mut self, most: usize, links: Links, buffer: &mut [u8]) -> usize
        requires { most ≤ length buffer.old }
        ensures count { result ≡ length (take most (coming target_side (playing self.old links))) }
        ensures front { take result buffer.new ≡ take most (coming target_side (playing self.old links)) }
        ensures rest { playing self.new links ≡ come target_side result (playing self.old links) }
        ensures open { 0 < result → is_open_in links target_side ≡ true }
    {
        if links.is_open(Side::Target) {
            out_of(&mut self.target, most, buffer)
        } else {
            0
        }
    }

    // The same of either side.
    fn give(&mut self, side: Side, most: usize, links: Links, buffer: &mut [u8]) -> usize
        requires { most ≤ length buffer.old }
        ensures count { result ≡ length (take most (coming side (playing self.old links))) }
        ensures front { take result buffer.new ≡ take most (coming side (playing self.old links)) }
        ensures rest { playing self.new links ≡ come side result (playing self.old links) }
        ensures open { 0 < result → is_open_in links side ≡ true }
    {
        match side {
            Side::Client => self.give_of_client(most, links, buffer),
            Side::Target => self.give_of_target(most, links, buffer),
        }
    }

    // Gives the first bytes on their way from a side, or a wait in vain.
    fn give_some(&mut self, side: Side, most: u32, links: Links, buffer: &mut [u8]) -> Happening
        requires { length buffer.old ≡ 65536 }
        ensures gives { Gives side most (playing self.old links) (Some (entry_of buffer.new result))
            (playing self.new links) }
        ensures possible { IsPossible links 65536 result }
    {
        let count = self.give(side, (most as usize).min(MOST), links, buffer);
        heard(side, count)
    }

    // The same of the client, while it is there; nothing where its side has ended.
    fn give_if_open(&mut self, most: u32, links: Links, buffer: &mut [u8]) -> Option<Happening>
        requires { length buffer.old ≡ 65536 }
        ensures gives { GivesIfOpen most (playing self.old links) (option_map (entry_of buffer.new) result)
            (playing self.new links) }
        ensures possible { IfSome result (IsPossible links 65536) }
    {
        if links.is_open(Side::Client) {
            Some(self.give_some(Side::Client, most, links, buffer))
        } else {
            None
        }
    }

    // Gives the first bytes on their way, the client's before the target's; nothing where there are none.
    fn give_first(&mut self, links: Links, buffer: &mut [u8]) -> Option<Happening>
        requires { length buffer.old ≡ 65536 }
        ensures gives { IfSome result (λ happening. GivesFirst (playing self.old links)
            (Some (entry_of buffer.new happening)) (playing self.new links)) }
        ensures still { IfNone result (IsStill (playing self.old links)) }
        ensures same { IfNone result (playing self.new links ≡ playing self.old links) }
        ensures possible { IfSome result (IsPossible links 65536) }
    {
        let count = self.give(Side::Client, MOST, links, buffer);
        if count > 0 {
            return Some(heard(Side::Client, count));
        }
        let count = self.give(Side::Target, MOST, links, buffer);
        if count > 0 {
            return Some(heard(Side::Target, count));
        }
        None
    }

    // The target serves its oldest command, or makes its next move where moves are asked for; `false` where it can do
    // neither.
    fn work(&mut self, alloc: Global, moving: bool) -> Result<bool, NoMemory>
        ensures works { result ≡ Ok true
            → (links : TheLinks) → Works moving (playing self.old links) (playing self.new links) }
        ensures idle { result ≡ Ok false → (links : TheLinks) → IsIdle moving (playing self.old links) }
        ensures same { result ≡ Ok false → self.new ≡ self.old }
    {
        if self.target.serve_one(alloc, 0)? {
            return Ok(true);
        }
        if moving {
            return self.target.advance(alloc);
        }
        Ok(false)
    }

    // Does what a line that settles does.
    fn settle(
        &mut self,
        alloc: Global,
        moving: bool,
        links: Links,
        buffer: &mut [u8],
    ) -> Result<Option<Happening>, NoMemory>
        requires { length buffer.old ≡ 65536 }
        ensures settles { IfOk result (λ said. Settles moving (drop 1 (lines_left self.old.schedule))
            (playing self.old links) (option_map (entry_of buffer.new) said) (playing self.new links)) }
        ensures possible { IfOk result (λ said. IfSome said (IsPossible links 65536)) }
    {
        match self.give_first(links, buffer) {
            Some(happening) => Ok(Some(happening)),
            None => {
                if !self.work(alloc, moving)? {
                    self.schedule.pass();
                }
                Ok(None)
            }
        }
    }

    // The target serves the command at a place, if there is one.
    fn serve(&mut self, alloc: Global, place: u32) -> Result<(), NoMemory>
        ensures { OnOk result ((links : TheLinks)
            → ServesIf place (playing self.old links) (playing self.new links)) }
    {
        let _served = self.target.serve_one(alloc, place)?;
        Ok(())
    }

    // The target's program makes its next move, if one can be made.
    fn advance(&mut self, alloc: Global) -> Result<(), NoMemory>
        ensures { OnOk result ((links : TheLinks) → MovesIf (playing self.old links) (playing self.new links)) }
    {
        let _made = self.target.advance(alloc)?;
        Ok(())
    }

    // Does what the first line says, and tells what the bridge hears of it.
    fn step(
        &mut self,
        alloc: Global,
        links: Links,
        buffer: &mut [u8],
    ) -> Result<Option<Happening>, NoMemory>
        requires room { length buffer.old ≡ 65536 }
        requires some_open { is_open_in links (first_open links) ≡ true }
        ensures steps { IfOk result (λ said. Steps (playing self.old links) (option_map (entry_of buffer.new) said)
            (playing self.new links)) }
        ensures possible { IfOk result (λ said. IfSome said (IsPossible links 65536)) }
    {
        let Some(line) = self.schedule.first() else {
            return Ok(Some(Happening::Shut(links.first())));
        };
        match line {
            Turn::Ask { command, arguments } => {
                self.client.ask(alloc, command, arguments)?;
                self.schedule.pass();
                Ok(None)
            }
            Turn::Client(most) => {
                let most = *most;
                self.schedule.pass();
                Ok(self.give_if_open(most, links, buffer))
            }
            Turn::Target(most) => {
                let most = *most;
                self.schedule.pass();
                Ok(Some(self.give_some(Side::Target, most, links, buffer)))
            }
            Turn::Serve(place) => {
                let place = *place;
                self.schedule.pass();
                self.serve(alloc, place)?;
                Ok(None)
            }
            Turn::Move => {
                self.schedule.pass();
                self.advance(alloc)?;
                Ok(None)
            }
            Turn::Settle => self.settle(alloc, true, links, buffer),
            Turn::Deliver => self.settle(alloc, false, links, buffer),
            Turn::Shut(side) => {
                let side = *side;
                self.schedule.pass();
                Ok(end_of(side, links))
            }
        }
    }
}
