//! The numbers of threads.
ghost use Rattle.std.specs.Prelude.{◌≡◌, [], OnOk};
ghost use Rattle.machine_model.specs.Rows.{thread_with};
ghost use Rattle.machine_model.specs.Telling.{number_among, with_thread};

use indexmap::IndexSet;
use jdwp_values::ThreadId;
use std::alloc::Global;
use std::marker::Model;
use wire_core::NoMemory;

/// The threads that were told, in the order of their numbers, which begin at 1.
#[derive(Drop)]
pub struct ThreadNumbers {
    threads: IndexSet<ThreadId>,
}

impl Model for ThreadNumbers {
    ghost use Rattle.std.specs.Prelude.{List};
    ghost use Rattle.jdwp_values.specs.declared.id.ThreadId.{ThreadId as AThreadId};

    ghost Value = { List AThreadId };

    ghost view = { λ t. t.threads.keys };
}

impl ThreadNumbers {
    /// No thread was told; it takes no memory.
    pub fn new(alloc: Global) -> ThreadNumbers
        ensures { result ≡ [] }
    {
        ThreadNumbers {
            threads: IndexSet::new(alloc),
        }
    }

    /// A thread is told, behind those that were, once. `NoMemory` comes where memory is refused.
    pub fn add(&mut self, thread: ThreadId) -> Result<(), NoMemory>
        ensures { OnOk result (self.new ≡ with_thread self.old thread) }
    {
        self.threads.insert(thread)?;
        Ok(())
    }

    /// The number of a thread; of one that wasn't told the next number.
    pub fn number(&self, thread: ThreadId) -> u64
        ensures { result ≡ number_among self.now thread }
    {
        let next = self.threads.len();
        match self.threads.get_index_of(&thread) {
            Some(place) => place as u64 + 1,
            None => next as u64 + 1,
        }
    }

    /// The thread of a number, where it was told.
    pub fn with_number(&self, number: u32) -> Option<ThreadId>
        ensures { result ≡ thread_with self.now number }
    {
        if number == 0 {
            return None;
        }
        self.threads.get_index(number as usize - 1).copied()
    }
}
