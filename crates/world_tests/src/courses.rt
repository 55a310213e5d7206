use crate::commands::{answer_text, reply_text, text_of};
use crate::moves::{composite_text, move_text};
use crate::rows::{add_row, head};
use jdwp_commands::Replied;
use jdwp_values::IdSizes;
use std::alloc::Global;
use std::test::Fail;
use wire_core::{List, NoMemory};
use world_model::World;

// A value that goes at the end of a scope is taken apart in the proof of that scope: large ones are let go by a call.

/// Makes a world, and asks of it what the rows of its course say: an error names the first that is told something else.
/// Lines that are empty or begin with `#` are no rows. A row is one of the world (see `rows`), or a question, and behind
/// ` => ` what has to be told:
///
/// - a command, as its set, a dot, its number and its body, is told a reply: `back` and the body of an answer, `error` and
///   its number, or `says` and the reply as its contents are printed;
/// - a move of the program (see `moves`) is told `events` and the body of a composite, or `nothing`;
/// - `stands` is told how often all threads are suspended, how many requests are installed, and whether the target has
///   ended; `starts`, where the threads stood whose steps are awaited.
pub(crate) fn check(alloc: Global, rows: &str, course: &str) -> Result<(), Fail> {
    let mut world = empty(alloc, sizes_of([8, 8, 8, 8, 8])?);
    let done = run_both(alloc, &mut world, rows, course);
    drop(world);
    done
}

fn run_both(alloc: Global, world: &mut World, rows: &str, course: &str) -> Result<(), Fail> {
    run(alloc, world, rows)?;
    run(alloc, world, course)
}

/// Adds the rows of a text to a world, and asks of it what they ask.
pub(crate) fn run(alloc: Global, world: &mut World, rows: &str) -> Result<(), Fail> {
    for row in rows.split('\n') {
        if !row.is_empty() && !row.starts_with('#') {
            run_row(alloc, world, row)?;
        }
    }
    Ok(())
}

fn run_row(alloc: Global, world: &mut World, row: &str) -> Result<(), Fail> {
    match row.split_once(" => ") {
        Some((asked, want)) => is_so(alloc, world, asked, want),
        None => add_row(alloc, world, row),
    }
}

fn is_so(alloc: Global, world: &mut World, asked: &str, want: &str) -> Result<(), Fail> {
    let wanted = wanted(alloc, world.sizes, asked, want)?;
    let told = told(alloc, world, asked)?;
    if told.as_str() != wanted.as_str() {
        return Err(format!(in alloc; "{asked} => {told}")?.into());
    }
    Ok(())
}

// What has to be told, as text.
fn wanted(alloc: Global, sizes: IdSizes, asked: &str, want: &str) -> Result<String, Fail> {
    let (word, rest) = head(want);
    match word {
        "back" => answer_text(alloc, sizes, asked, rest),
        "error" => Ok(text_of(alloc, Replied::Error(rest.parse()?))?),
        "events" => composite_text(alloc, sizes, rest),
        "nothing" => Ok("None".to_string(alloc)?),
        "says" => Ok(rest.to_string(alloc)?),
        _ => Ok(want.to_string(alloc)?),
    }
}

// What the world tells, as text.
fn told(alloc: Global, world: &mut World, asked: &str) -> Result<String, Fail> {
    if asked == "stands" {
        return standing(alloc, world);
    }
    if asked == "starts" {
        return starts(alloc, world);
    }
    if head(asked).0.contains('.') {
        return reply_text(alloc, world, asked);
    }
    move_text(alloc, world, asked)
}

fn standing(alloc: Global, world: &World) -> Result<String, Fail> {
    let held = world.held();
    let requests = world.requests().len();
    let dead = world.is_dead();
    Ok(format!(in alloc; "{held} {requests} {dead}")?)
}

fn starts(alloc: Global, world: &World) -> Result<String, Fail> {
    let starts = world.steps.as_slice();
    Ok(format!(in alloc; "{starts:?}")?)
}

/// How many bytes a field, a method, an object, a class and a frame have in their ids.
pub(crate) fn sizes_of(sizes: [u32; 5]) -> Result<IdSizes, NoMemory> {
    match IdSizes::new(sizes) {
        Ok(sizes) => Ok(sizes),
        Err(_) => Err(NoMemory),
    }
}

/// Nothing is in this world, and all threads are suspended once.
pub(crate) fn empty(alloc: Global, sizes: IdSizes) -> World {
    World {
        sizes,
        classes: List::new(alloc),
        methods: List::new(alloc),
        variables: List::new(alloc),
        fields: List::new(alloc),
        objects: List::new(alloc),
        arrays: List::new(alloc),
        strings: List::new(alloc),
        puts: List::new(alloc),
        threads: List::new(alloc),
        frames: List::new(alloc),
        requests: List::new(alloc),
        steps: List::new(alloc),
        next_request: 1,
        count: 1,
        dead: false,
    }
}
