//! Which requests what happens matches, and the events that tell of it.
ghost use Rattle.std.specs.Prelude.{◌≡◌, IfOk, IfSome, OnOk, ◌<◌, ◌+◌, length, map, option_copied, find, ◌==◌};
ghost use Rattle.std.specs.BTreeSet.{insert_key};
ghost use Rattle.std.specs.Ordering.{nat_cmp, on};
ghost use Rattle.world_model.specs.Emitting.{only, same_place, is_at, is_line, is_made, is_made_from, start_in};
ghost use Rattle.world_model.specs.Emitting.{is_step, is_for, is_like, signature_of, is_watch_of, watches, is_hit};
ghost use Rattle.world_model.specs.Emitting.{is_stepped, is_thrown, matches, hit_of, hit_place, is_end, unasked, hits, nowhere};
ghost use Rattle.world_model.specs.Emitting.{standing_event, prepared_event, event_of, greater, greatest};
ghost use Rattle.world_model.specs.Emitting.{composite_of, emitted};

use crate::changes::same_event;
use crate::classes::{class_in, tag_in};
use crate::happening::Happening;
use crate::rows::{Installed, StepStart};
use crate::world::World;
use jdwp_events::{Composite, Event, EventKind, Modifier, Policy};
use jdwp_values::{ClassId, Location, MethodId, ThreadId, TypeTag, lossy};
use std::alloc::Global;
use std::cmp::Ordering;
use value_views::class_name;
use wire_core::{Blob, List, NoMemory};

/// A request that is matched, or what is told unasked.
#[derive(Clone, Copy, Debug, PartialEq, Eq)]
pub(crate) struct Hit {
    request: u32,
    kind: EventKind,
    policy: Policy,
}

// The only modifier of a request.
fn only(modifiers: &[Modifier]) -> Option<&Modifier>
    ensures { option_copied result ≡ only modifiers.now }
{
    match modifiers {
        [modifier] => Some(modifier),
        _ => None,
    }
}

// Whether two places are one, tags too.
fn same_place(a: Location, b: Location) -> bool
    ensures { result ≡ same_place a b }
{
    (a.tag.byte() == b.tag.byte() && a.class.0 == b.class.0)
        && (a.method.0 == b.method.0 && a.index == b.index)
}

// Whether a modifier is that of a breakpoint at this place.
fn is_at(at: Location, modifier: &Modifier) -> bool
    ensures { result ≡ is_at at modifier.now }
{
    match modifier {
        Modifier::LocationOnly(place) => same_place(at, *place),
        _ => false,
    }
}

// Whether a line is that of a step's start.
fn is_line(line: Option<i32>, start: Option<i32>) -> bool
    ensures { result ≡ is_line line start }
{
    match line {
        Some(line) => match start {
            Some(start) => line == start,
            None => false,
        },
        None => start.is_none(),
    }
}

// Whether a step is made.
fn is_made(depth: i32, frames: usize, same: bool, start: StepStart) -> bool
    ensures { result ≡ is_made depth frames same start }
{
    if depth == 0 {
        return !(frames == start.frames && same);
    }
    frames < start.frames || (depth == 1 && (frames == start.frames && !same))
}

// The same of a step that began somewhere.
fn is_made_from(depth: i32, frames: usize, line: Option<i32>, start: Option<StepStart>) -> bool
    ensures { result ≡ is_made_from depth frames line start }
{
    match start {
        Some(start) => is_made(depth, frames, is_line(line, start.line), start),
        None => false,
    }
}

// The row of a request's step.
fn start_among(steps: &[StepStart], request: u32) -> Option<&StepStart>
    ensures { option_copied result ≡ find (λ row. row.request == request) steps.now }
{
    steps.iter().find(|row| row.request == request)
}

// Where the step of a request began.
fn start_in(world: &World, request: u32) -> Option<StepStart>
    ensures { result ≡ start_in world.now request }
{
    start_among(world.steps.as_slice(), request).copied()
}

// Whether a modifier is that of a step that is made.
fn is_step(
    thread: ThreadId,
    frames: usize,
    line: Option<i32>,
    start: Option<StepStart>,
    modifier: &Modifier,
) -> bool
    ensures { result ≡ is_step thread frames line start modifier.now }
{
    match modifier {
        Modifier::Step {
            thread: stepped,
            depth,
            ..
        } => stepped.0 == thread.0 && is_made_from(*depth, frames, line, start),
        _ => false,
    }
}

// Whether a modifier is that of such exceptions.
fn is_for(caught: bool, modifier: &Modifier) -> bool
    ensures { result ≡ is_for caught modifier.now }
{
    match modifier {
        Modifier::ExceptionOnly {
            caught: if_caught,
            uncaught: if_not,
            ..
        } => !((if caught { *if_caught } else { *if_not }) == 0),
        _ => false,
    }
}

// Whether a name is like a pattern.
fn is_like(name: &[u8], pattern: &[u8]) -> bool
    ensures { result ≡ is_like name.now pattern.now }
{
    match pattern {
        [front @ .., b'*'] => name.starts_with(front),
        [b'*', back @ ..] => name.ends_with(back),
        _ => name == pattern,
    }
}

// The signature of a class that is there.
fn signature_of(world: &World, class: ClassId) -> &[u8]
    ensures { result.now ≡ signature_of world.now class }
{
    match class_in(world, class) {
        Some(row) => row.signature.as_slice(),
        None => &[],
    }
}

// Whether a modifier is that of a watch of classes with such a name.
fn is_watch_of(alloc: Global, signature: &[u8], modifier: &Modifier) -> Result<bool, NoMemory>
    ensures { IfOk result (λ is. is ≡ is_watch_of signature.now modifier.now) }
{
    match modifier {
        Modifier::ClassMatch(pattern) => {
            let name = class_name(alloc, signature)?;
            let pattern = lossy(alloc, pattern.as_slice())?;
            Ok(is_like(name.as_str().as_bytes(), pattern.as_str().as_bytes()))
        }
        _ => Ok(false),
    }
}

// Whether a request watches a class.
fn watches(
    alloc: Global,
    world: &World,
    class: ClassId,
    request: &Installed,
) -> Result<bool, NoMemory>
    ensures { IfOk result (λ does. does ≡ watches world.now class request.now) }
{
    if !same_event(request.wish_kind, EventKind::ClassPrepare) {
        return Ok(false);
    }
    match only(request.modifiers.as_slice()) {
        Some(modifier) => is_watch_of(alloc, signature_of(world, class), modifier),
        None => Ok(false),
    }
}

// Whether a request is for a breakpoint to which a thread comes.
fn is_hit(at: Location, comes: bool, request: &Installed) -> bool
    ensures { result ≡ is_hit at comes request.now }
{
    if !comes || !same_event(request.wish_kind, EventKind::Breakpoint) {
        return false;
    }
    match only(request.modifiers.as_slice()) {
        Some(modifier) => is_at(at, modifier),
        None => false,
    }
}

// Whether a request is for a step that is made.
fn is_stepped(
    world: &World,
    thread: ThreadId,
    frames: usize,
    line: Option<i32>,
    request: &Installed,
) -> bool
    ensures { result ≡ is_stepped world.now thread frames line request.now }
{
    if !same_event(request.wish_kind, EventKind::SingleStep) {
        return false;
    }
    let start = start_in(world, request.request);
    match only(request.modifiers.as_slice()) {
        Some(modifier) => is_step(thread, frames, line, start, modifier),
        None => false,
    }
}

// Whether a request is for an exception.
fn is_thrown(caught: bool, request: &Installed) -> bool
    ensures { result ≡ is_thrown caught request.now }
{
    if !same_event(request.wish_kind, EventKind::Exception) {
        return false;
    }
    match only(request.modifiers.as_slice()) {
        Some(modifier) => is_for(caught, modifier),
        None => false,
    }
}

// Whether what happens matches a request.
fn matches(
    alloc: Global,
    world: &World,
    happened: Happening,
    request: &Installed,
) -> Result<bool, NoMemory>
    ensures { IfOk result (λ does. does ≡ matches world.now happened request.now) }
{
    match happened {
        Happening::Stands {
            thread,
            at,
            frames,
            line,
            comes,
        } => Ok(is_hit(at, comes, request) || is_stepped(world, thread, frames, line, request)),
        Happening::Throws { catch, .. } => Ok(is_thrown(catch.is_some(), request)),
        Happening::Starts(_) => Ok(same_event(request.wish_kind, EventKind::ThreadStart)),
        Happening::Dies(_) => Ok(same_event(request.wish_kind, EventKind::ThreadDeath)),
        Happening::Prepares { class, .. } => watches(alloc, world, class, request),
        Happening::Stores => Ok(false),
        Happening::Ends => Ok(false),
    }
}

// A request that is matched.
fn hit_of(request: &Installed) -> Hit
    ensures { result ≡ hit_of request.now }
{
    Hit {
        request: request.request,
        kind: request.wish_kind,
        policy: request.policy,
    }
}

// The place at which a request goes among others, by its number, where none has that.
fn hit_place(those: &[Hit], request: u32) -> Option<usize>
    ensures place { result ≡ hit_place 0 request those.now }
    ensures within { IfSome result (λ place. place < length those.now + 1) }
{
    for (at, hit) in those.iter().enumerate() {
        match request.cmp(&hit.request) {
            Ordering::Less => return Some(at),
            Ordering::Equal => return None,
            Ordering::Greater => {}
        }
    }
    Some(those.len())
}

// Adds a request, by its number, where none has that.
#[tactic(auto, using(crate::proofs::HitLaws::no_hit_place, crate::proofs::HitLaws::at_its_number))]
fn add_hit(those: &mut Vec<Hit>, hit: Hit) -> Result<(), NoMemory>
    ensures { OnOk result (those.new.items ≡ insert_key (on (λ other. other.request) nat_cmp) those.old.items hit) }
{
    if let Some(at) = hit_place(those, hit.request) {
        those.insert(at, hit)?;
    }
    Ok(())
}

// Whether the target ends.
fn is_end(happened: Happening) -> bool
    ensures { result ≡ is_end happened }
{
    matches!(happened, Happening::Ends)
}

// What is told unasked.
fn unasked(alloc: Global, happened: Happening) -> Result<Vec<Hit>, NoMemory>
    ensures { IfOk result (λ those. those.items ≡ unasked happened) }
{
    let mut those = Vec::new(alloc);
    if is_end(happened) {
        those.push(Hit {
            request: 0,
            kind: EventKind::VMDeath,
            policy: Policy::NoThread,
        })?;
    }
    Ok(those)
}

// The requests that are matched, in order of their numbers.
fn hits(alloc: Global, world: &World, happened: Happening) -> Result<Vec<Hit>, NoMemory>
    ensures { IfOk result (λ those. those.items ≡ hits world.now happened) }
{
    let mut those = unasked(alloc, happened)?;
    let requests = world.requests.as_slice();
    for request in requests {
        if matches(alloc, world, happened, request)? {
            add_hit(&mut those, hit_of(request))?;
        }
    }
    Ok(those)
}

// The place that is none.
fn nowhere() -> Location
    ensures { result ≡ nowhere }
{
    Location {
        tag: TypeTag::Class,
        class: ClassId(0),
        method: MethodId(0),
        index: 0,
    }
}

// The event of a thread that stands somewhere.
fn standing_event(thread: ThreadId, at: Location, hit: Hit) -> Event
    ensures { result ≡ standing_event thread at hit }
{
    let request = hit.request;
    if same_event(hit.kind, EventKind::Breakpoint) {
        Event::Breakpoint {
            request,
            thread,
            at,
        }
    } else {
        Event::SingleStep {
            request,
            thread,
            at,
        }
    }
}

// The event of a class, which is prepared now.
fn prepared_event(
    alloc: Global,
    world: &World,
    thread: ThreadId,
    class: ClassId,
    request: u32,
) -> Result<Event, NoMemory>
    ensures { IfOk result (λ event. event ≡ prepared_event world.now thread class request) }
{
    Ok(Event::ClassPrepare {
        request,
        thread,
        tag: tag_in(world, class),
        class,
        signature: Blob::from_slice(alloc, signature_of(world, class))?,
        status: 2,
    })
}

// The event for a request that is matched.
fn event_of(alloc: Global, world: &World, happened: Happening, hit: Hit) -> Result<Event, NoMemory>
    ensures { IfOk result (λ event. event ≡ event_of world.now happened hit) }
{
    let request = hit.request;
    match happened {
        Happening::Stands { thread, at, .. } => Ok(standing_event(thread, at, hit)),
        Happening::Throws {
            thread,
            at,
            exception,
            catch,
        } => Ok(Event::Exception {
            request,
            thread,
            at,
            exception,
            catch: catch.unwrap_or(nowhere()),
        }),
        Happening::Starts(thread) => Ok(Event::ThreadStart { request, thread }),
        Happening::Dies(thread) => Ok(Event::ThreadDeath { request, thread }),
        Happening::Prepares { thread, class } => {
            prepared_event(alloc, world, thread, class, request)
        }
        Happening::Stores => Ok(Event::VMDeath { request }),
        Happening::Ends => Ok(Event::VMDeath { request }),
    }
}

// The greater of two policies.
fn greater(a: Policy, b: Policy) -> Policy
    ensures { result ≡ greater a b }
{
    if a.byte() < b.byte() { b } else { a }
}

// The greatest policy of some requests.
fn greatest(those: &[Hit]) -> Policy
    ensures { result ≡ greatest those.now }
{
    let mut policy = Policy::NoThread;
    for hit in those {
        policy = greater(policy, hit.policy);
    }
    policy
}

// The events for some requests.
fn events_of(
    alloc: Global,
    world: &World,
    happened: Happening,
    those: &[Hit],
) -> Result<List<Event>, NoMemory>
    ensures { IfOk result (λ events. events ≡ map (event_of world.now happened) those.now) }
{
    let mut events = List::new(alloc);
    for hit in those {
        events.push(event_of(alloc, world, happened, *hit)?)?;
    }
    Ok(events)
}

// The events for some requests, if there are any.
fn composite_of(
    alloc: Global,
    world: &World,
    happened: Happening,
    those: &[Hit],
) -> Result<Option<Composite>, NoMemory>
    ensures { IfOk result (λ told. told ≡ composite_of world.now happened those.now) }
{
    if those.is_empty() {
        return Ok(None);
    }
    Ok(Some(Composite {
        policy: greatest(those),
        events: events_of(alloc, world, happened, those)?,
    }))
}

/// The events that tell what happens (JDWP, Event command set, Composite).
pub(crate) fn emitted(
    alloc: Global,
    world: &World,
    happened: Happening,
) -> Result<Option<Composite>, NoMemory>
    ensures { IfOk result (λ told. told ≡ emitted world.now happened) }
{
    let those = hits(alloc, world, happened)?;
    composite_of(alloc, world, happened, those.as_slice())
}
