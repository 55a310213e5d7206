ghost use Rattle.std.specs.Prelude.{◌≡◌, ◌+◌, ◌≤◌, [], ◌∷◌, ◌++◌, length, IsOk, IfOk, OnOk, OnErr};
ghost use Rattle.wire_core.specs.Outside.{entry_of};
ghost use Rattle.wire_core.specs.Links.{IsWithin};
ghost use Rattle.wire_core.specs.Entries.{HasCopy};

use crate::list::Blob;
use crate::memory::NoMemory;
use crate::outside::{Entry, Happening};
use std::alloc::Global;

/// The entries of a log, in order. It can keep room for entries that have to be added where memory is refused.
#[derive(Debug, Drop)]
pub struct Log {
    entries: Vec<Entry>,
}

impl Log {
    ghost use Rattle.wire_core.specs.Log.{entries, HasRoom, HasRoomLeft};

    pub(crate) fn new(alloc: Global) -> Log
        ensures { entries result ≡ [] }
    {
        Log {
            entries: Vec::new(alloc),
        }
    }

    /// All entries, in order.
    pub fn as_slice(&self) -> &[Entry]
        ensures { result.now ≡ entries self.now }
    {
        self.entries.as_slice()
    }

    // Makes room for so many entries.
    pub(crate) fn reserve(&mut self, room: usize) -> Result<(), NoMemory>
        ensures entries { entries self.new ≡ entries self.old }
        ensures ok { OnOk result (HasRoom self.new room) }
    {
        self.entries.reserve(room)?;
        Ok(())
    }

    // Adds an entry, and keeps room for so many behind it; where there is room for all of them, no memory is needed.
    pub(crate) fn add(&mut self, entry: Entry, kept: usize) -> Result<(), NoMemory>
        requires { kept ≤ 2 }
        ensures ok { OnOk result (entries self.new ≡ entries self.old ++ entry ∷ []) }
        ensures room { OnOk result (HasRoom self.new kept) }
        ensures err { OnErr result (entries self.new ≡ entries self.old) }
        ensures kept { OnErr result (HasRoomLeft self.old self.new 0) }
        ensures succeeds { HasRoom self.old (kept + 1) → IsOk result }
    {
        self.entries.reserve(kept + 1)?;
        self.entries.push_reserved(entry);
        Ok(())
    }

    // Adds an entry for which room was kept.
    pub(crate) fn add_reserved(&mut self, entry: Entry)
        requires { HasRoom self.old 1 }
        ensures entries { entries self.new ≡ entries self.old ++ entry ∷ [] }
        ensures room { HasRoomLeft self.old self.new 1 }
    {
        self.entries.push_reserved(entry);
    }
}

/// The entry of a happening, with a copy of the bytes that came.
pub(crate) fn entry(alloc: Global, buffer: &[u8], happening: Happening) -> Result<Entry, NoMemory>
    requires { IsWithin (length buffer.now) happening }
    ensures value { IfOk result (λ e. e ≡ entry_of buffer.now happening) }
    ensures needs { OnErr result (HasCopy (entry_of buffer.now happening)) }
{
    match happening {
        Happening::Bytes(side, n) => Ok(Entry::In(side, Blob::from_slice(alloc, &buffer[..n])?)),
        Happening::Shut(side) => Ok(Entry::Shut(side)),
        Happening::Failed(side) => Ok(Entry::Failed(side)),
        Happening::Quiet => Ok(Entry::Quiet),
    }
}
