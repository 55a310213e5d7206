use jdwp_events::Policy;
use jdwp_values::ThreadId;
use line_elements::Arguments;
use wire_core::{List, Side, Text};
use world_model::{Move, World};

/// What is done next in a scripted session.
#[derive(Drop)]
pub enum Turn {
    /// The client's next request goes on its way.
    Ask { command: Text, arguments: Arguments },
    /// The bridge gets so many bytes, from 1 to 65,536, of those that are on their way from the client.
    Client(u32),
    /// The bridge gets so many bytes, from 1 to 65,536, of those that are on their way from the target.
    Target(u32),
    /// The target serves an unserved command, by its place from 0.
    Serve(u32),
    /// The target's program makes its next move.
    Move,
    /// All that can be done is done: what `Deliver` does, and moves.
    Settle,
    /// All bytes are given, and all commands are served.
    Deliver,
    /// Further bytes of that side are dropped.
    Shut(Side),
}

/// That the target tells of its start right behind the handshake: its first thread, and what is suspended, none or all
/// (JDWP, Event command set, Composite, VMStart).
#[derive(Clone, Copy, Debug, PartialEq, Eq)]
pub struct Begin {
    pub thread: ThreadId,
    pub policy: Policy,
}

/// A target, the moves of its program, and what is done in the session, under which limits: so many happenings, waits in
/// vain in a row and waiting items.
#[derive(Drop)]
pub struct Script {
    pub world: World,
    pub program: List<Move>,
    pub begin: Option<Begin>,
    pub schedule: List<Turn>,
    pub turns: u64,
    pub quiet: u64,
    pub waiting: u32,
}
