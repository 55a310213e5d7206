ghost use Rattle.std.specs.Prelude.{◌≡◌, ◌+◌, ◌<◌, ◌≤◌, ◌^◌, ◌↔◌, true, false, IsOk, IfOk, OnOk, OnErr, length};
ghost use Rattle.std.specs.Prelude.{IfSome, None};
ghost use Rattle.std.specs.Result.{result_map_both};
ghost use Rattle.stop_refs.specs.Numbers.{from, begun, over, number_of, is_new, is_spent, with_thing, end, room};
ghost use Rattle.stop_refs.specs.Numbers.{look, frame, container, thing_with, next_in};

use crate::fault::{NumberFault, RefFault};
use crate::start::{Start, keep, refused};
use crate::thing::{FrameThing, Thing};
use indexmap::IndexSet;
use std::alloc::Global;
use std::marker::Model;

// The number behind the last one.
const END: u32 = 2147483648;

/// The numbers of a session while its target runs: none stands for anything, and those that were given are stale (DAP,
/// Overview, Lifetime of Objects References).
///
/// Contracts see the first number of each stop so far, and the next number.
#[derive(Debug, Drop)]
pub struct Running {
    alloc: Global,
    starts: Vec<Start>,
    stops: u64,
    next: u32,
}

impl Model for Running {
    ghost use Rattle.stop_refs.specs.Numbers.{Past};
    ghost use Rattle.stop_refs.specs.Starts.{firsts_of, IsPast};

    ghost Value = { Past };

    ghost view = { λ r. record { firsts = firsts_of 0 r.stops r.next r.starts.items; next = r.next } };

    ghost invariant = { λ r. IsPast r.stops r.next r.starts.items };
}

impl Running {
    /// Before the first stop; numbers begin at 1.
    pub fn new(alloc: Global) -> Running
        ensures { result ≡ from 1 }
    {
        Running::from_number(alloc, 1)
    }

    /// Before the first stop; numbers begin at one of 1 to 2^31.
    pub fn from_number(alloc: Global, next: u32) -> Running
        requires positive { 0 < next }
        requires within { next ≤ end }
        ensures { result ≡ from next }
    {
        Running {
            alloc,
            starts: Vec::new(alloc),
            stops: 0,
            next,
        }
    }

    /// Why a number stands for nothing: it was given in a stop that is over, or never.
    pub fn look(&self, n: u32) -> RefFault
        ensures { result ≡ look n self.now }
    {
        if n < self.next {
            refused(&self.starts, self.stops, self.next, n, self.next)
        } else {
            RefFault::Unknown(self.next)
        }
    }

    /// How many stops there were.
    pub fn stops(&self) -> u64
        ensures { result ≡ length self.now.firsts }
    {
        self.stops
    }

    /// Begins the next stop, in which nothing was told yet; with it there are fewer than 2^63. It takes no memory.
    pub fn stop(self) -> Stop
        requires { length self.firsts + 1 < 2 ^ 63 }
        ensures { result ≡ begun self }
    {
        let Running {
            alloc,
            starts,
            stops,
            next,
        } = self;
        Stop {
            alloc,
            starts,
            stops,
            first: next,
            things: IndexSet::new(alloc),
        }
    }
}

/// The numbers of a session at a stop: those that were given in it are known, and die with it (DAP, Overview, Lifetime
/// of Objects References).
///
/// A stop has to be spent, by `resume`: it can't be dropped. Contracts see what was before it, and the things that were
/// told in it, in the order in which they were first told.
#[derive(Debug)]
pub struct Stop {
    alloc: Global,
    starts: Vec<Start>,
    stops: u64,
    first: u32,
    things: IndexSet<Thing>,
}

impl Model for Stop {
    ghost use Rattle.std.specs.Prelude.{length, vec_len, vec_capacity};
    ghost use Rattle.stop_refs.specs.Numbers.{InHand};
    ghost use Rattle.stop_refs.specs.Starts.{firsts_of, IsInHand};

    ghost Value = { InHand };

    ghost view = { λ s. record {
      past = record { firsts = firsts_of 0 s.stops s.first s.starts.items; next = s.first };
      things = s.things.keys;
    } };

    ghost invariant = { λ s. IsInHand s.stops s.first (length s.things.keys) (vec_len s.starts)
        (vec_capacity s.starts) s.starts.items };
}

/// A frame of the stop in hand. It can't outlive the stop.
#[derive(Clone, Copy, Debug)]
pub struct FrameRef<'a> {
    pub thing: &'a FrameThing,
}

/// Something of the stop in hand that has variables in it: those of a frame, an object or an array. It can't outlive
/// the stop.
#[derive(Clone, Copy, Debug)]
pub struct ThingRef<'a> {
    pub thing: &'a Thing,
}

impl Stop {
    // The next number.
    fn next(&self) -> u32
        ensures number { result ≡ next_in self.now }
        ensures within { result ≤ end }
    {
        self.first + self.things.len() as u32
    }

    /// How many numbers are left: so many new things can be told.
    pub fn room(&self) -> u32
        ensures { result ≡ room self.now }
    {
        END - self.next()
    }

    /// Whether a thing was not told in this stop.
    pub fn is_new(&self, thing: &Thing) -> bool
        ensures { result ≡ is_new thing.now self.now }
    {
        !self.things.contains(thing)
    }

    /// The number of a thing that was told in this stop; `None` exactly where it wasn't.
    pub fn number_told(&self, thing: &Thing) -> Option<u32>
        ensures told { IfSome result (λ n. n ≡ number_of thing.now self.now) }
        ensures none { (result ≡ None) ↔ (is_new thing.now self.now ≡ true) }
    {
        let place = self.things.get_index_of(thing)?;
        Some(self.first + place as u32)
    }

    /// The number of a thing: the one that it already has in this stop, or the next one. `Spent` comes where it is new
    /// and no number is left, `NoMemory` only where it is new and one is left; both change nothing (DAP, Overview,
    /// Lifetime of Objects References).
    pub fn number(&mut self, thing: Thing) -> Result<u32, NumberFault>
        ensures number { IfOk result (λ n. n ≡ number_of thing self.old) }
        ensures ok { OnOk result (self.new ≡ with_thing thing self.old) }
        ensures err { OnErr result (self.new ≡ self.old) }
        ensures spent { (result ≡ Err NumberFault.Spent) ↔ (is_spent thing self.old ≡ true) }
        ensures told { is_new thing self.old ≡ false → IsOk result }
    {
        if let Some(place) = self.things.get_index_of(&thing) {
            return Ok(self.first + place as u32);
        }
        if self.room() == 0 {
            return Err(NumberFault::Spent);
        }
        if self.things.is_empty() {
            self.starts.reserve(1)?;
        }
        let (place, _) = self.things.insert_full(thing)?;
        Ok(self.first + place as u32)
    }

    // The thing that a number stands for.
    fn thing(&self, n: u32) -> Result<&Thing, RefFault>
        ensures { result_map_both (λ thing. thing.now) (λ fault. fault) result ≡ thing_with n self.now }
    {
        if n < self.first {
            return Err(refused(&self.starts, self.stops, self.first, n, self.next()));
        }
        match self.things.get_index((n - self.first) as usize) {
            Some(thing) => Ok(thing),
            None => Err(RefFault::Unknown(self.next())),
        }
    }

    /// The frame that a number stands for (DAP, Requests, Scopes, frameId); or why for none: it was never given, it was
    /// given in a stop that is over, or it stands for a container.
    pub fn frame(&self, n: u32) -> Result<FrameRef<'_>, RefFault>
        ensures { result_map_both (λ found. found.thing.now) (λ fault. fault) result ≡ frame n self.now }
    {
        match self.thing(n)? {
            Thing::Frame(thing) => Ok(FrameRef { thing }),
            _ => Err(RefFault::WrongKind),
        }
    }

    /// The container that a number stands for (DAP, Requests, Variables, variablesReference); or why for none: it was
    /// never given, it was given in a stop that is over, or it stands for a frame.
    pub fn container(&self, n: u32) -> Result<ThingRef<'_>, RefFault>
        ensures { result_map_both (λ found. found.thing.now) (λ fault. fault) result ≡ container n self.now }
    {
        match self.thing(n)? {
            Thing::Frame(_) => Err(RefFault::WrongKind),
            thing => Ok(ThingRef { thing }),
        }
    }

    /// Ends the stop: its numbers are stale from then on. It takes no memory.
    pub fn resume(self) -> Running
        ensures { result ≡ over self }
    {
        let Stop {
            alloc,
            mut starts,
            stops,
            first,
            things,
        } = self;
        let told = things.len() as u32;
        keep(&mut starts, stops, first, told);
        Running {
            alloc,
            starts,
            stops: stops + 1,
            next: first + told,
        }
    }
}
