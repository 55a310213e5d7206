//! What an event request may be wished for.

ghost use Rattle.std.specs.Prelude.{◌≡◌, ◌∷◌, [], refl, IfOk};
ghost use Rattle.std.specs.Cmp.{eq_by_cmp_equiv, partial_equiv_from_equiv, partial_order_from_total};
ghost use Rattle.std.specs.Cmp.Lexicographic.{slice_cmp};
ghost use Rattle.std.specs.Ordering.{nat_cmp, as_partial_cmp};
ghost use Rattle.wish_sets.specs.Order.{bit, is_wish, location_key, number_of_depth, wish_cmp, wish_rank, wish_said};
ghost use Rattle.wish_sets.specs.Order.{wish_total};
ghost use Rattle.wish_sets.specs.Requests.{kind_of_wish, policy_of_wish, modifiers_of_wish, package_pattern};

use jdwp_events::{EventKind, Modifier, Policy};
use jdwp_values::{ClassId, Location, ThreadId};
use std::alloc::Global;
use std::cmp::Ordering;
use wire_core::{Blob, List, NoMemory, Text};

// The size of a step that goes to another line (JDWP, Constants, StepSize).
const LINE: i32 = 1;

/// How far a step goes (JDWP, Constants, StepDepth).
#[derive(Clone, Copy, PartialEq, Eq)]
pub enum Depth {
    Into,
    Over,
    Out,
}

/// A step that is in flight: the thread that steps, and how far it goes (JDWP, EventRequest command set, Set, Step).
#[derive(Clone, Copy, PartialEq, Eq)]
pub struct StepWish {
    pub thread: ThreadId,
    pub depth: Depth,
}

/// An event request that is wished of the target: the starts of threads, their ends, the classes of a package as they
/// are prepared, a breakpoint at a location, exceptions, or a step. A package has `.` between its parts, and is empty
/// where it is the default package (JDWP, EventRequest command set, Set).
#[derive(Drop)]
pub enum Wish {
    ThreadStart,
    ThreadDeath,
    Watch(Text),
    Stop(Location),
    Thrown { caught: bool, uncaught: bool },
    Step { thread: ThreadId, depth: Depth },
}

impl Depth {
    // The depth's number.
    fn number(self) -> u8
        ensures { result ≡ number_of_depth self }
    {
        match self {
            Depth::Into => 0,
            Depth::Over => 1,
            Depth::Out => 2,
        }
    }
}

impl Wish {
    /// The kind of the events that the wish asks for (JDWP, Constants, EventKind).
    pub fn kind(&self) -> EventKind
        ensures { result ≡ kind_of_wish self.now }
    {
        match self {
            Wish::ThreadStart => EventKind::ThreadStart,
            Wish::ThreadDeath => EventKind::ThreadDeath,
            Wish::Watch(_) => EventKind::ClassPrepare,
            Wish::Stop(_) => EventKind::Breakpoint,
            Wish::Thrown { .. } => EventKind::Exception,
            Wish::Step { .. } => EventKind::SingleStep,
        }
    }

    /// What an event of the wish suspends (JDWP, Constants, SuspendPolicy).
    pub fn policy(&self) -> Policy
        ensures { result ≡ policy_of_wish self.now }
    {
        match self {
            Wish::ThreadStart => Policy::NoThread,
            Wish::ThreadDeath => Policy::NoThread,
            Wish::Watch(_) => Policy::All,
            Wish::Stop(_) => Policy::All,
            Wish::Thrown { .. } => Policy::All,
            Wish::Step { .. } => Policy::All,
        }
    }

    /// The modifiers of its event request; `NoMemory` comes where memory is refused (JDWP, EventRequest command set,
    /// Set, modifiers).
    pub fn modifiers(&self, alloc: Global) -> Result<List<Modifier>, NoMemory>
        ensures { IfOk result (λ modifiers. modifiers ≡ modifiers_of_wish self.now) }
    {
        match self {
            Wish::ThreadStart => Ok(List::new(alloc)),
            Wish::ThreadDeath => Ok(List::new(alloc)),
            Wish::Watch(name) => {
                let pattern = package_pattern(alloc, name.as_bytes())?;
                alone(alloc, Modifier::ClassMatch(pattern))
            }
            Wish::Stop(at) => alone(alloc, Modifier::LocationOnly(*at)),
            Wish::Thrown { caught, uncaught } => {
                let modifier = Modifier::ExceptionOnly {
                    class: ClassId(0),
                    caught: bit(*caught),
                    uncaught: bit(*uncaught),
                };
                alone(alloc, modifier)
            }
            Wish::Step { thread, depth } => {
                let modifier = Modifier::Step {
                    thread: *thread,
                    size: LINE,
                    depth: i32::from(depth.number()),
                };
                alone(alloc, modifier)
            }
        }
    }

    // The place of the wish's kind in wish order.
    fn rank(&self) -> u8
        ensures { result ≡ wish_rank self.now }
    {
        match self {
            Wish::ThreadStart => 0,
            Wish::ThreadDeath => 1,
            Wish::Watch(_) => 2,
            Wish::Stop(_) => 3,
            Wish::Thrown { .. } => 4,
            Wish::Step { .. } => 5,
        }
    }

    // The order of what two wishes of one kind say.
    fn cmp_said(&self, other: &Wish) -> Ordering
        ensures { wish_rank self.now ≡ wish_rank other.now
            → result ≡ slice_cmp nat_cmp (wish_said self.now) (wish_said other.now) }
    {
        match self {
            Wish::ThreadStart => Ordering::Equal,
            Wish::ThreadDeath => Ordering::Equal,
            Wish::Watch(name) => cmp_package(name, other),
            Wish::Stop(at) => cmp_location(at, other),
            Wish::Thrown { caught, uncaught } => cmp_flags(*caught, *uncaught, other),
            Wish::Step { thread, depth } => cmp_step(*thread, *depth, other),
        }
    }
}

// A list of one modifier.
fn alone(alloc: Global, modifier: Modifier) -> Result<List<Modifier>, NoMemory>
    ensures { IfOk result (λ modifiers. modifiers ≡ modifier ∷ []) }
{
    let mut modifiers = List::new(alloc);
    modifiers.push(modifier)?;
    Ok(modifiers)
}

// The pattern of a package's classes; that of the default package matches all.
fn package_pattern(alloc: Global, name: &[u8]) -> Result<Blob, NoMemory>
    ensures { IfOk result (λ pattern. pattern ≡ package_pattern name.now) }
{
    if name.is_empty() {
        return Blob::from_slice(alloc, b"*");
    }
    let mut pattern = Blob::from_slice(alloc, name)?;
    pattern.extend_from_slice(b".*")?;
    Ok(pattern)
}

// The order of a package and that of a wish to watch.
fn cmp_package(name: &Text, other: &Wish) -> Ordering
    ensures { 2 ≡ wish_rank other.now → result ≡ slice_cmp nat_cmp name.now (wish_said other.now) }
{
    match other {
        Wish::Watch(theirs) => name.as_bytes().cmp(theirs.as_bytes()),
        _ => Ordering::Equal,
    }
}

// The order of a location and that of a wish to stop.
fn cmp_location(at: &Location, other: &Wish) -> Ordering
    ensures { 3 ≡ wish_rank other.now → result ≡ slice_cmp nat_cmp (location_key at.now) (wish_said other.now) }
{
    match other {
        Wish::Stop(theirs) => location_numbers(at).cmp(&location_numbers(theirs)),
        _ => Ordering::Equal,
    }
}

// The order of two flags and those of a wish of exceptions.
fn cmp_flags(caught: bool, uncaught: bool, other: &Wish) -> Ordering
    ensures { 4 ≡ wish_rank other.now
        → result ≡ slice_cmp nat_cmp (bit caught ∷ bit uncaught ∷ []) (wish_said other.now) }
{
    match other {
        Wish::Thrown {
            caught: theirs,
            uncaught: and_theirs,
        } => [bit(caught), bit(uncaught)].cmp(&[bit(*theirs), bit(*and_theirs)]),
        _ => Ordering::Equal,
    }
}

// The order of a step and that of a wish of a step.
fn cmp_step(thread: ThreadId, depth: Depth, other: &Wish) -> Ordering
    ensures { 5 ≡ wish_rank other.now
        → result ≡ slice_cmp nat_cmp (thread.0 ∷ number_of_depth depth ∷ []) (wish_said other.now) }
{
    match other {
        Wish::Step {
            thread: theirs,
            depth: how_far,
        } => [thread.0, u64::from(depth.number())].cmp(&[theirs.0, u64::from(how_far.number())]),
        _ => Ordering::Equal,
    }
}

// The numbers by which a location stands.
fn location_numbers(at: &Location) -> [u64; 4]
    ensures { result ≡ location_key at.now }
{
    [at.class.0, at.method.0, at.index, u64::from(at.tag.byte())]
}

/// 1 where it is so.
pub(crate) fn bit(flag: bool) -> u8
    ensures { result ≡ bit flag }
{
    if flag { 1 } else { 0 }
}

impl PartialEq for Wish {
    ghost eq = { is_wish };

    ghost laws = { partial_equiv_from_equiv (eq_by_cmp_equiv wish_total) };

    fn eq(&self, other: &Wish) -> bool {
        self.cmp(other) == Ordering::Equal
    }
}

impl Eq for Wish {
    ghost laws = { eq_by_cmp_equiv wish_total };
}

impl PartialOrd for Wish {
    ghost partial_cmp = { as_partial_cmp wish_cmp };

    ghost laws = { partial_order_from_total wish_total };

    fn partial_cmp(&self, other: &Wish) -> Option<Ordering> {
        Some(self.cmp(other))
    }
}

impl Ord for Wish {
    ghost cmp = { wish_cmp };

    ghost total = { wish_total };

    ghost matches_partial_cmp = { λ a b. refl };

    ghost matches_eq = { λ a b. refl };

    fn cmp(&self, other: &Wish) -> Ordering {
        match self.rank().cmp(&other.rank()) {
            Ordering::Equal => self.cmp_said(other),
            order => order,
        }
    }
}
