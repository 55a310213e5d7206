use crate::script::{Begin, Turn};
use line_elements::Version;
use world_model::{
    Move, Put, WorldArray, WorldClass, WorldField, WorldFrame, WorldMethod, WorldObject,
    WorldString, WorldThread, WorldVariable,
};

/// A line of a script. Each id is at least 1 and below 2^63, but where 0 stands for none; whether it fits the sizes of
/// ids, and whether an earlier line gave it, is judged where the lines are put together. Texts are UTF-8.
///
/// What a line does not say of a part of the world is as it is at the start: a thread is alive, and the fields of an
/// object are 0.
#[derive(Drop)]
pub enum Row {
    /// The first line: its version, where that is known.
    Head {
        version: Option<Version>,
    },
    /// How many bytes the id of a field, a method, an object, a class and a frame takes, each from 1 to 8.
    Sizes([u32; 5]),
    /// The limits of a session of the script: from 1 to 2^40 happenings, to 2^63 - 1 waits in vain in a row and to
    /// 2^32 - 1 waiting items. Scripts of the first version have no such line.
    Limits {
        turns: u64,
        quiet: u64,
        waiting: u32,
    },
    Class(WorldClass),
    Method(WorldMethod),
    Variable(WorldVariable),
    Field(WorldField),
    Object(WorldObject),
    Array(WorldArray),
    Text(WorldString),
    Put(Put),
    Thread(WorldThread),
    Frame(WorldFrame),
    Begin(Begin),
    Move(Move),
    Turn(Turn),
    /// The last line.
    End,
}
