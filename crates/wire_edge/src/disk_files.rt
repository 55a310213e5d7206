ghost use Rattle.std.specs.Prelude.{◌≡◌, [], IfOk};
ghost use Rattle.wire_edge.specs.DiskFiles.{IsContent, untold};

use std::alloc::Global;
use std::fs::{self, File};
use std::io::{self, ErrorKind, Read};
use std::rt;
use wire_core::{Blob, FileRefusal, Files, Word, raise};

/// The files of the system. They tell nothing of their content, and the count of faults stands still at its last
/// value.
#[derive(Drop)]
pub struct DiskFiles<R> {
    rt: R,
    faults: u64,
    asked: Option<Word>,
    // how many bytes the call read
    taken: usize,
}

impl<R: rt::Files + Drop> DiskFiles<R> {
    /// The files that a name leads to, as the system reads it, of which none was asked for yet.
    pub fn new(rt: R) -> DiskFiles<R>
        ensures faults { result.faults ≡ 0 }
        ensures asked { (untold result.faults result.asked result.taken).asked ≡ [] }
    {
        DiskFiles {
            rt,
            faults: 0,
            asked: None,
            taken: 0,
        }
    }
}

// What was read of a file: all of it, or so many bytes, which are more than the limit.
#[derive(Drop)]
enum Content {
    Whole(Vec<u8>),
    Longer(usize),
}

// Reads a file to its end, and not further than one byte past the limit.
fn read_content<F: Read + Drop>(alloc: Global, file: F, limit: usize) -> io::Result<Content>
    ensures { IfOk result (IsContent (F.remaining file) limit) }
{
    let mut bytes = Vec::new(alloc);
    let front = (limit as u64).saturating_add(1);
    file.take(front).read_to_end(&mut bytes)?;
    if bytes.len() > limit {
        Ok(Content::Longer(bytes.len()))
    } else {
        Ok(Content::Whole(bytes))
    }
}

impl<R: rt::Files + Drop> Files for DiskFiles<R> {
    ghost store = { λ f. untold f.faults f.asked f.taken };

    fn read(&mut self, alloc: Global, name: Word, limit: usize) -> Result<Blob, FileRefusal> {
        let content = match File::open(&self.rt, name.as_str()) {
            Ok(file) => read_content(alloc, file, limit),
            Err(e) => Err(e),
        };
        self.asked = Some(name);
        match content {
            Ok(Content::Whole(bytes)) => {
                self.taken = bytes.len();
                Ok(Blob::from_vec(bytes))
            }
            Ok(Content::Longer(taken)) => {
                self.taken = taken;
                Err(FileRefusal::TooLong)
            }
            Err(e) => {
                if e.kind() == ErrorKind::OutOfMemory {
                    return Err(FileRefusal::NoMemory);
                }
                self.faults = raise(self.faults);
                Err(FileRefusal::Failed)
            }
        }
    }

    fn write(&mut self, name: Word, bytes: &[u8]) -> Result<(), FileRefusal> {
        let written = fs::write(&self.rt, name.as_str(), bytes);
        self.asked = Some(name);
        match written {
            Ok(()) => Ok(()),
            Err(_) => {
                self.faults = raise(self.faults);
                Err(FileRefusal::Failed)
            }
        }
    }
}
