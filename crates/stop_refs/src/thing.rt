ghost use Rattle.std.specs.Prelude.{◌≡◌, ◌∷◌};
ghost use Rattle.std.proofs.Common.{rules};
ghost use Rattle.std.specs.Hash as fed;
ghost use Rattle.std.specs.Cmp.Rules.{comparing, hashing};
ghost use Rattle.stop_refs.specs.Things.{frame_key, object_key, thing_key, same_thing};

use jdwp_values::{FrameId, Location, ObjectId, ThreadId};
use std::hash::{Hash, Hasher};

/// A frame of a thread, and where it stands (JDWP, ThreadReference command set, Frames).
#[derive(Clone, Copy, Debug, PartialEq, Eq)]
pub struct FrameThing {
    pub thread: ThreadId,
    pub frame: FrameId,
    pub at: Location,
}

/// What a number stands for: a frame, its variables, or what is in an object or in an array (DAP, Types, StackFrame,
/// Scope and Variable).
#[derive(Clone, Copy, Debug)]
pub enum Thing {
    Frame(FrameThing),
    Locals(FrameThing),
    Object(ObjectId),
    Array(ObjectId),
}

// What tells a thing from each other: its kind, and what it is of.
fn frame_key(kind: u64, frame: &FrameThing) -> [u64; 7]
    ensures { result ≡ kind ∷ frame_key frame.now }
{
    [
        kind,
        frame.thread.0,
        frame.frame.0,
        frame.at.class.0,
        frame.at.method.0,
        frame.at.index,
        frame.at.tag.byte() as u64,
    ]
}

fn thing_key(thing: &Thing) -> [u64; 7]
    ensures { result ≡ thing_key thing.now }
{
    match thing {
        Thing::Frame(frame) => frame_key(0, frame),
        Thing::Locals(frame) => frame_key(1, frame),
        Thing::Object(object) => [2, object.0, 0, 0, 0, 0, 0],
        Thing::Array(array) => [3, array.0, 0, 0, 0, 0, 0],
    }
}

impl PartialEq for Thing {
    ghost eq = { same_thing };

    ghost laws = { Prim.search (comparing, rules) };

    fn eq(&self, other: &Thing) -> bool {
        thing_key(self) == thing_key(other)
    }
}

impl Eq for Thing {
    ghost laws = { Prim.search (comparing, rules) };
}

impl Hash for Thing {
    ghost hash_input = { λ thing. fed.slice fed.u64 (thing_key thing) };

    ghost respects_eq = { Prim.search (hashing, rules) };

    fn hash<H: Hasher>(&self, state: &mut H) {
        thing_key(self).hash(state);
    }
}
