use crate::commands::bytes_of;
use crate::rows::{head, id_of, slots_of};
use jdwp_events::{Composite, read_composite};
use jdwp_values::{ClassId, FrameId, IdSizes, MethodId, ObjectId, ThreadId};
use std::alloc::Global;
use std::test::Fail;
use wire_core::{Blob, List};
use world_model::{Move, World};

/// The events that the world tells of a move, as their contents are printed.
pub(crate) fn move_text(alloc: Global, world: &mut World, text: &str) -> Result<String, Fail> {
    let next = move_of(alloc, text)?;
    let made = world.make_move(alloc, &next);
    drop(next);
    match made {
        Ok(told) => told_text(alloc, told),
        Err(_) => Err("a move that is not made".into()),
    }
}

fn told_text(alloc: Global, told: Option<Composite>) -> Result<String, Fail> {
    let text = format!(in alloc; "{told:?}");
    drop(told);
    Ok(text?)
}

/// The events of a composite, as their contents are printed.
pub(crate) fn composite_text(alloc: Global, sizes: IdSizes, body: &str) -> Result<String, Fail> {
    let bytes = bytes_of(alloc, body)?;
    match read_composite(alloc, sizes, bytes.as_slice()) {
        Ok(composite) => told_text(alloc, Some(composite)),
        Err(_) => Err("no composite".into()),
    }
}

/// A thread's frame goes to an index, a method is called or left, a thread starts, ends or throws what nothing catches, or
/// the program ends. Ids are hexadecimal, all other numbers decimal; a frame has its method's id as its own.
pub(crate) fn move_of(alloc: Global, text: &str) -> Result<Move, Fail> {
    let (word, rest) = head(text);
    match word {
        "at" => at(alloc, rest),
        "call" => call(alloc, rest),
        "return" => Ok(Move::Return(ThreadId(id_of(rest)?))),
        "start" => start(alloc, rest),
        "die" => Ok(Move::Die(ThreadId(id_of(rest)?))),
        "prepare" => prepare(rest),
        "throw" => throw(rest),
        "death" => Ok(Move::Death),
        _ => Err("no move".into()),
    }
}

fn at(alloc: Global, words: &str) -> Result<Move, Fail> {
    let (thread, rest) = head(words);
    let (index, slots) = head(rest);
    Ok(Move::At {
        thread: ThreadId(id_of(thread)?),
        index: index.parse()?,
        slots: slots_of(alloc, slots)?,
    })
}

fn call(alloc: Global, words: &str) -> Result<Move, Fail> {
    let (thread, rest) = head(words);
    let (class, rest) = head(rest);
    let (method, index) = head(rest);
    Ok(Move::Call {
        thread: ThreadId(id_of(thread)?),
        frame: FrameId(id_of(method)?),
        class: ClassId(id_of(class)?),
        method: MethodId(id_of(method)?),
        index: index.parse()?,
        this: ObjectId(0),
        slots: List::new(alloc),
    })
}

fn start(alloc: Global, words: &str) -> Result<Move, Fail> {
    let (thread, name) = head(words);
    Ok(Move::Start {
        thread: ThreadId(id_of(thread)?),
        name: Blob::from_slice(alloc, name.as_bytes())?,
    })
}

fn prepare(words: &str) -> Result<Move, Fail> {
    let (class, thread) = head(words);
    Ok(Move::Prepare {
        class: ClassId(id_of(class)?),
        thread: ThreadId(id_of(thread)?),
    })
}

fn throw(words: &str) -> Result<Move, Fail> {
    let (thread, object) = head(words);
    Ok(Move::Throw {
        thread: ThreadId(id_of(thread)?),
        object: ObjectId(id_of(object)?),
        class: ClassId(0),
        method: MethodId(0),
        index: 0,
    })
}
