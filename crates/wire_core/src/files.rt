ghost use Rattle.std.specs.Prelude.{◌≡◌, []};
ghost use Rattle.wire_core.specs.Files.{Store, Asks, Reads, Writes};

use crate::list::Blob;
use crate::text::Word;
use std::alloc::Global;

/// Why a file was not read or written: memory ran out; the file failed; or it is longer than what may be read of it.
#[derive(Clone, Copy, Debug, PartialEq, Eq)]
pub enum FileRefusal {
    NoMemory,
    Failed,
    TooLong,
}

/// The files of a run. What a value tells of itself is its `store`. A value serves one call.
pub trait Files {
    ghost store: { Self → Store };

    /// All bytes of a file that has at most `limit` bytes.
    fn read(&mut self, alloc: Global, name: Word, limit: usize) -> Result<Blob, FileRefusal>
        requires { (store self.old).asked ≡ [] }
        ensures asks { Asks (store self.old) (store self.new) name }
        ensures files { (store self.new).files ≡ (store self.old).files }
        ensures reads { Reads (store self.old) (store self.new) name limit result };

    /// Puts bytes under a name, whether there is a file of that name or not.
    fn write(&mut self, name: Word, bytes: &[u8]) -> Result<(), FileRefusal>
        requires { (store self.old).asked ≡ [] }
        ensures asks { Asks (store self.old) (store self.new) name }
        ensures writes { Writes (store self.old) (store self.new) name bytes.now result };
}
