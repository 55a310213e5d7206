//! Where the thread of a step stands as its event request is set.
ghost use Rattle.std.specs.Prelude.{◌≡◌, option_copied, option_map};
ghost use Rattle.class_tables.specs.Lines.{entry_at};
ghost use Rattle.world_model.specs.Requests.{known_entries, line_at, line_of_frame, innermost};
ghost use Rattle.world_model.specs.Requests.{line_of_thread, frames_under};
ghost use Rattle.world_model.specs.Requests.{step_start};
ghost use Rattle.world_model.specs.Requests.{thread_of_step, stepping};

use crate::classes::{is_native, method_in};
use crate::rows::{StepStart, WorldFrame, WorldMethod};
use crate::world::World;
use class_tables::entry_at;
use jdwp_events::Modifier;
use jdwp_values::{ClassId, Line, MethodId, ThreadId};

// The entries of a method's line table: none where it is native or they are not known.
fn known_entries(row: &WorldMethod) -> &[Line]
    ensures { result.now ≡ known_entries row.now }
{
    if is_native(row) {
        return &[];
    }
    match &row.lines {
        Some(lines) => lines.as_slice(),
        None => &[],
    }
}

/// The line of a place in a method's code, where the method has lines.
pub(crate) fn line_at(world: &World, class: ClassId, method: MethodId, index: u64) -> Option<i32>
    ensures { result ≡ line_at world.now class method index }
{
    let method = method_in(world, class, method)?;
    Some(entry_at(index, known_entries(method))?.line)
}

// The line at which a frame stands.
fn line_of_frame(world: &World, row: &WorldFrame) -> Option<i32>
    ensures { result ≡ line_of_frame world.now row.now }
{
    line_at(world, row.class, row.method, row.index)
}

/// The innermost frame of a thread.
pub(crate) fn innermost(world: &World, thread: ThreadId) -> Option<&WorldFrame>
    ensures { option_copied result ≡ innermost world.now thread }
{
    world
        .frames
        .as_slice()
        .iter()
        .find(|row| row.thread.0 == thread.0)
}

// The line at which the innermost frame of a thread stands.
fn line_of_thread(world: &World, thread: ThreadId) -> Option<i32>
    ensures { result ≡ line_of_thread world.now thread }
{
    line_of_frame(world, innermost(world, thread)?)
}

/// How many frames a thread has.
pub(crate) fn frames_under(frames: &[WorldFrame], thread: ThreadId) -> usize
    ensures { result ≡ frames_under frames.now thread }
{
    frames.iter().filter(|row| row.thread.0 == thread.0).count()
}

// Where the thread of a step stands as its request is set.
fn step_start(world: &World, request: u32, thread: ThreadId) -> StepStart
    ensures { result ≡ step_start world.now request thread }
{
    StepStart {
        request,
        frames: frames_under(world.frames.as_slice(), thread),
        line: line_of_thread(world, thread),
    }
}

// The thread that a modifier says to step.
fn thread_of_step(modifier: &Modifier) -> Option<ThreadId>
    ensures { result ≡ thread_of_step modifier.now }
{
    match modifier {
        Modifier::Step { thread, .. } => Some(*thread),
        _ => None,
    }
}

// The thread of a step.
fn stepping(modifiers: &[Modifier]) -> Option<ThreadId>
    ensures { result ≡ stepping modifiers.now }
{
    match modifiers {
        [modifier, ..] => thread_of_step(modifier),
        [] => None,
    }
}

/// Where the thread of a step stands, if the request is for one.
pub(crate) fn start_of(world: &World, modifiers: &[Modifier], request: u32) -> Option<StepStart>
    ensures { result ≡ option_map (step_start world.now request) (stepping modifiers.now) }
{
    Some(step_start(world, request, stepping(modifiers)?))
}
