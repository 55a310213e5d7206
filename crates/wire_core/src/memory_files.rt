ghost use Rattle.std.specs.Prelude.{◌≡◌, ◌⊎◌, ◌↔◌, true, [], None, Some, IsTrue, IsErrOf};
ghost use Rattle.std.specs.Option.{option_copied};
ghost use Rattle.wire_core.specs.declared.files.FileRefusal.TheVariants.{Failed};
ghost use Rattle.wire_core.specs.Links.{raised};
ghost use Rattle.wire_core.specs.Files.{bytes_under, Copies, Asks, Reads, Writes};

use crate::files::{FileRefusal, Files};
use crate::links::raise;
use crate::list::{Blob, List};
use crate::text::Word;
use std::alloc::Global;

/// The one call that the files served: it asked for a name, or put bytes under one.
#[derive(Debug, Drop)]
enum Call {
    Nothing,
    Asked(Word),
    Wrote(Word, Blob),
}

/// Files in memory. The first file of a repeated name counts. Where they are made to fail, each call is a fault.
#[derive(Debug, Drop)]
pub struct MemoryFiles {
    alloc: Global,
    files: List<(Word, Blob)>,
    failing: bool,
    faults: u64,
    call: Call,
}

impl MemoryFiles {
    ghost use Rattle.wire_core.specs.MemoryFiles.{files_of, store_of, IsNewStore, is_failing};

    /// Files that have these names and bytes; with `failing` each call is a fault.
    pub fn new(alloc: Global, files: List<(Word, Blob)>, failing: bool) -> MemoryFiles
        ensures files { files_of result ≡ files }
        ensures store { IsNewStore result }
        ensures failing { is_failing result ≡ failing }
    {
        MemoryFiles {
            alloc,
            files,
            failing,
            faults: 0,
            call: Call::Nothing,
        }
    }

    /// The bytes under a name; `None` exactly where there is no file of that name.
    pub fn file(&self, name: &Word) -> Option<&Blob>
        ensures { option_copied result ≡ bytes_under name.now (files_of self.now) }
    {
        match &self.call {
            Call::Nothing => look_up(self.files.as_slice(), name),
            Call::Asked(_) => look_up(self.files.as_slice(), name),
            Call::Wrote(written, bytes) => {
                if written.as_bytes() == name.as_bytes() {
                    Some(bytes)
                } else {
                    look_up(self.files.as_slice(), name)
                }
            }
        }
    }

    // A copy of a file of at most so many bytes.
    fn copy(&self, alloc: Global, name: &Word, limit: usize) -> Result<Blob, FileRefusal>
        ensures { Copies (bytes_under name.now (files_of self.now)) limit result }
    {
        let Some(bytes) = self.file(name) else {
            return Err(FileRefusal::Failed);
        };
        if bytes.len() > limit {
            return Err(FileRefusal::TooLong);
        }
        match Blob::from_slice(alloc, bytes.as_slice()) {
            Ok(copy) => Ok(copy),
            Err(_) => Err(FileRefusal::NoMemory),
        }
    }
}

// The bytes of the first file of a name.
fn look_up<'a>(files: &'a [(Word, Blob)], name: &Word) -> Option<&'a Blob>
    ensures { option_copied result ≡ bytes_under name.now files.now }
{
    for file in files {
        if file.0.as_bytes() == name.as_bytes() {
            return Some(&file.1);
        }
    }
    None
}

impl Files for MemoryFiles {
    ghost use Rattle.wire_core.specs.MemoryFiles.{files_of, store_of, is_failing, faults_after};

    ghost store = { store_of };

    fn read(&mut self, alloc: Global, name: Word, limit: usize) -> Result<Blob, FileRefusal>
        requires { (store_of self.old).asked ≡ [] }
        ensures asks { Asks (store_of self.old) (store_of self.new) name }
        ensures files { (store_of self.new).files ≡ (store_of self.old).files }
        ensures reads { Reads (store_of self.old) (store_of self.new) name limit result }
        ensures counts { (store_of self.new).faults ≡ faults_after result (store_of self.old).faults }
        ensures fails { IsErrOf result Failed
            ↔ ((is_failing self.old ≡ true) ⊎ (bytes_under name (files_of self.old) ≡ None)) }
    {
        let answer = if self.failing {
            Err(FileRefusal::Failed)
        } else {
            self.copy(alloc, &name, limit)
        };
        if let Err(FileRefusal::Failed) = answer {
            self.faults = raise(self.faults);
        }
        self.call = Call::Asked(name);
        answer
    }

    fn write(&mut self, name: Word, bytes: &[u8]) -> Result<(), FileRefusal>
        requires { (store_of self.old).asked ≡ [] }
        ensures asks { Asks (store_of self.old) (store_of self.new) name }
        ensures writes { Writes (store_of self.old) (store_of self.new) name bytes.now result }
        ensures counts { (store_of self.new).faults ≡ faults_after result (store_of self.old).faults }
        ensures fails { IsErrOf result Failed ↔ (is_failing self.old ≡ true) }
    {
        if self.failing {
            self.faults = raise(self.faults);
            self.call = Call::Asked(name);
            return Err(FileRefusal::Failed);
        }
        match Blob::from_slice(self.alloc, bytes) {
            Ok(copy) => {
                self.call = Call::Wrote(name, copy);
                Ok(())
            }
            Err(_) => {
                self.call = Call::Asked(name);
                Err(FileRefusal::NoMemory)
            }
        }
    }
}
