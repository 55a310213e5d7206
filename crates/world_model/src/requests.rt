//! The event requests that a target installs, and their numbers.
ghost use Rattle.std.specs.Prelude.{◌≡◌};
ghost use Rattle.world_model.specs.Requests.{allowed_if, of_none, watch, breakpoint, thrown, step, line_step};
ghost use Rattle.world_model.specs.Requests.{is_package_pattern, are_flags, is_line_step, of_kind, is_of_threads};
ghost use Rattle.world_model.specs.Requests.{allowed, behind_id, is_in_use, free_id};

use crate::classes::method_at;
use crate::codes::{INVALID_THREAD, NOT_IMPLEMENTED};
use crate::found::Found;
use crate::rows::Installed;
use crate::threads::is_alive;
use crate::world::World;
use jdwp_events::{EventKind, Modifier, Policy};
use jdwp_values::ThreadId;

// The last number that a request gets.
const LAST: u32 = 2147483647;

// Allowed, or not.
fn allowed_if(allowed: bool, code: u16) -> Found<()>
    ensures { result ≡ allowed_if allowed code }
{
    if allowed { Ok(()) } else { Err(code) }
}

// Whether a pattern is that of a package's classes, or of all.
fn is_package_pattern(pattern: &[u8]) -> bool
    ensures { result ≡ is_package_pattern pattern.now }
{
    pattern == b"*".as_slice() || (pattern.len() > 2 && pattern.ends_with(b".*"))
}

// Whether one of two flags is set, for exceptions that are caught and for those that are not.
fn are_flags(caught: u8, uncaught: u8) -> bool
    ensures { result ≡ are_flags caught uncaught }
{
    caught < 2 && uncaught < 2 && caught + uncaught > 0
}

// Whether a step has the size of a line, and goes into, over or out.
fn is_line_step(size: i32, depth: i32) -> bool
    ensures { result ≡ is_line_step size depth }
{
    size == 1 && (depth == 0 || depth == 1 || depth == 2)
}

// A request with no modifier.
fn of_none(modifiers: &[Modifier]) -> Found<()>
    ensures { result ≡ of_none modifiers.now }
{
    match modifiers {
        [] => Ok(()),
        _ => Err(NOT_IMPLEMENTED),
    }
}

// The classes of a package as they are prepared.
fn watch(modifier: &Modifier) -> Found<()>
    ensures { result ≡ watch modifier.now }
{
    match modifier {
        Modifier::ClassMatch(pattern) => {
            allowed_if(is_package_pattern(pattern.as_slice()), NOT_IMPLEMENTED)
        }
        _ => Err(NOT_IMPLEMENTED),
    }
}

// A breakpoint at a location in a method that is there.
fn breakpoint(world: &World, modifier: &Modifier) -> Found<()>
    ensures { result ≡ breakpoint world.now modifier.now }
{
    match modifier {
        Modifier::LocationOnly(at) => match method_at(world, at.class, at.method) {
            Ok(_) => Ok(()),
            Err(code) => Err(code),
        },
        _ => Err(NOT_IMPLEMENTED),
    }
}

// Exceptions of each class, those that are caught, those that are not, or both.
fn thrown(modifier: &Modifier) -> Found<()>
    ensures { result ≡ thrown modifier.now }
{
    match modifier {
        Modifier::ExceptionOnly {
            class,
            caught,
            uncaught,
        } => allowed_if(
            class.0 == 0 && are_flags(*caught, *uncaught),
            NOT_IMPLEMENTED,
        ),
        _ => Err(NOT_IMPLEMENTED),
    }
}

// A step of a thread that is alive, if it is one of a line.
fn line_step(world: &World, thread: ThreadId, is_step: bool) -> Found<()>
    ensures { result ≡ line_step world.now thread is_step }
{
    if is_step {
        allowed_if(is_alive(world, thread), INVALID_THREAD)
    } else {
        Err(NOT_IMPLEMENTED)
    }
}

// A step of a line's size, of a thread that is alive.
fn step(world: &World, modifier: &Modifier) -> Found<()>
    ensures { result ≡ step world.now modifier.now }
{
    match modifier {
        Modifier::Step {
            thread,
            size,
            depth,
        } => line_step(world, *thread, is_line_step(*size, *depth)),
        _ => Err(NOT_IMPLEMENTED),
    }
}

// Which requests with one modifier are installed, by the kind of their events.
fn of_kind(world: &World, kind: EventKind, modifier: &Modifier) -> Found<()>
    ensures { result ≡ of_kind world.now kind modifier.now }
{
    match kind {
        EventKind::ClassPrepare => watch(modifier),
        EventKind::Breakpoint => breakpoint(world, modifier),
        EventKind::Exception => thrown(modifier),
        EventKind::SingleStep => step(world, modifier),
        _ => Err(NOT_IMPLEMENTED),
    }
}

// Whether events of this kind suspend nothing.
fn is_of_threads(kind: EventKind) -> bool
    ensures { result ≡ is_of_threads kind }
{
    matches!(kind, EventKind::ThreadStart | EventKind::ThreadDeath)
}

/// Which requests are installed: those of a debugger's wishes alone (JDWP, EventRequest command set, Set).
pub(crate) fn allowed(
    world: &World,
    kind: EventKind,
    policy: Policy,
    modifiers: &[Modifier],
) -> Found<()>
    ensures { result ≡ allowed world.now kind policy modifiers.now }
{
    if is_of_threads(kind) {
        return if policy.byte() == 0 {
            of_none(modifiers)
        } else {
            Err(NOT_IMPLEMENTED)
        };
    }
    if policy.byte() != 2 {
        return Err(NOT_IMPLEMENTED);
    }
    match modifiers {
        [modifier] => of_kind(world, kind, modifier),
        _ => Err(NOT_IMPLEMENTED),
    }
}

/// The number behind a request's.
pub(crate) fn behind_id(id: u32) -> u32
    ensures { result ≡ behind_id id }
{
    if id >= LAST { 1 } else { id + 1 }
}

// Whether a number is in use.
fn is_in_use(requests: &[Installed], id: u32) -> bool
    ensures { result ≡ is_in_use requests.now id }
{
    requests.iter().any(|row| row.request == id)
}

/// The number that the next request gets, unless all are in use.
pub(crate) fn free_id(world: &World) -> Option<u32>
    ensures { result ≡ free_id world.now }
{
    let requests = world.requests.as_slice();
    let mut id = world.next_request;
    for _attempt in requests {
        if !is_in_use(requests, id) {
            return Some(id);
        }
        id = behind_id(id);
    }
    if is_in_use(requests, id) {
        None
    } else {
        Some(id)
    }
}
