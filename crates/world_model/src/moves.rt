//! The moves of a target's program.
ghost use Rattle.std.specs.Prelude.{◌≡◌};
ghost use Rattle.world_model.specs.Moving.{count_behind, moved, IsMoved};

use crate::happening::what_happens;
use crate::hits::emitted;
use crate::moving::change;
use crate::world::World;
use jdwp_events::{Composite, Policy};
use jdwp_values::{ClassId, FieldId, FrameId, MethodId, ObjectId, ThreadId, Value};
use slot_values::SlotValue;
use std::alloc::Global;
use wire_core::{Blob, List, NoMemory};

/// What the target's program does next (JDWP, Event command set, Composite).
#[derive(Debug, Drop)]
pub enum Move {
    /// The innermost frame of the thread stands at this index, and these slots get their values.
    At {
        thread: ThreadId,
        index: u64,
        slots: List<SlotValue>,
    },
    /// The thread has a new innermost frame.
    Call {
        thread: ThreadId,
        frame: FrameId,
        class: ClassId,
        method: MethodId,
        index: u64,
        this: ObjectId,
        slots: List<SlotValue>,
    },
    /// The innermost frame of the thread goes.
    Return(ThreadId),
    /// The thread prepares a class that was not prepared (JDWP, Event command set, Composite, ClassPrepare).
    Prepare {
        class: ClassId,
        thread: ThreadId,
    },
    /// The thread throws an object, which is caught at this place; the ids are 0 where it is not (JDWP, Event command
    /// set, Composite, Exception).
    Throw {
        thread: ThreadId,
        object: ObjectId,
        class: ClassId,
        method: MethodId,
        index: u64,
    },
    /// A thread starts (JDWP, Event command set, Composite, ThreadStart).
    Start {
        thread: ThreadId,
        name: Blob,
    },
    /// A thread ends, and its frames with it (JDWP, Event command set, Composite, ThreadDeath).
    Die(ThreadId),
    /// A field of an object gets a value.
    Store {
        object: ObjectId,
        field: FieldId,
        value: Value,
    },
    /// The target ends (JDWP, Event command set, Composite, VMDeath).
    Death,
}

/// Why a move was not made (JDWP, VirtualMachine command set, Suspend; JDWP, Event command set, Composite, VMDeath).
#[derive(Clone, Copy, Debug, Drop, PartialEq, Eq)]
pub enum MoveTrouble {
    /// Memory was refused.
    NoMemory,
    /// The target has ended.
    Ended,
    /// All threads are suspended.
    Held,
    /// It can't be made in this world: a thread that isn't alive or has no such frame, a thing that isn't there or is
    /// there already, a value of another kind, or a number that has no room.
    BadMove,
}

impl From<NoMemory> for MoveTrouble {
    ghost use Rattle.std.specs.Prelude.{◌≡◌};
    ghost use Rattle.world_model.specs.declared.moves.MoveTrouble.TheVariants.{NoMemory as refused_memory};

    ghost from_gives = { λ _ trouble. trouble ≡ refused_memory };

    fn from(_refused: NoMemory) -> MoveTrouble {
        MoveTrouble::NoMemory
    }
}

// How often all threads are suspended behind these events.
fn count_behind(count: u64, told: &Option<Composite>) -> u64
    requires { count ≡ 0 }
    ensures { result ≡ count_behind count told.now }
{
    match told {
        Some(composite) => if composite.policy.byte() == Policy::All.byte() {
            count + 1
        } else {
            count
        },
        None => count,
    }
}

impl World {
    /// Makes a move, and answers the events that tell of it, if a request asked for any: those of the requests that it
    /// matches, in order of their numbers, under the greatest of their policies; and the end unasked. All threads are
    /// suspended once more where that policy says so. `Ended` comes first, then `Held`, then `BadMove`; the world stays
    /// as it was then, and where memory is refused (JDWP, Event command set, Composite).
    pub fn make_move(
        &mut self,
        alloc: Global,
        next: &Move,
    ) -> Result<Option<Composite>, MoveTrouble>
        ensures { IsMoved self.old self.new result (moved self.old next.now) }
    {
        if self.dead {
            return Err(MoveTrouble::Ended);
        }
        if self.count != 0 {
            return Err(MoveTrouble::Held);
        }
        let Some(happened) = what_happens(self, next) else {
            return Err(MoveTrouble::BadMove);
        };
        let told = emitted(alloc, self, happened)?;
        let count = count_behind(self.count, &told);
        change(alloc, self, next)?;
        self.count = count;
        Ok(told)
    }
}
