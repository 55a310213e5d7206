//! What a recorder keeps.
ghost use Rattle.std.specs.Prelude.{◌≡◌, ◌+◌, ◌≤◌, false, length, IfOk, IsOk, OnOk, OnErr};
ghost use Rattle.run_logs.specs.Runs.{entries_of, AreRuns, CanTake};
ghost use Rattle.session_recorder.specs.States.{room_for, closed as closed_state};
ghost use Rattle.session_recorder.specs.declared.side_state.SideState.TheVariants.{Open, Lost};
ghost use Rattle.wire_core.specs.Outside.{entry_of};
ghost use Rattle.wire_core.specs.Links.{IsWithin};
ghost use Rattle.wire_core.specs.declared.outside.Entry.TheVariants.{Out};

use crate::side_state::SideState;
use run_logs::{Run, RunLog};
use std::alloc::Global;
use wire_core::{Blob, Entry, Happening, List, NoMemory, OpenFailed, Side, raise};

/// The log that a recorder keeps of the wires inside it, and what it takes their sides for. The failure of each side that
/// was not lost can be logged without memory.
#[derive(Debug, Drop)]
pub struct Book {
    alloc: Global,
    log: RunLog,
    client: SideState,
    target: SideState,
    open_refusals: u64,
    ghost room: { room_for client + room_for target ≤ log.room },
}

// The entry of a happening, with a copy of the bytes that came.
fn entry(alloc: Global, buffer: &[u8], happening: Happening) -> Result<Entry, NoMemory>
    requires { IsWithin (length buffer.now) happening }
    ensures { IfOk result (λ e. e ≡ entry_of buffer.now happening) }
{
    match happening {
        Happening::Bytes(side, n) => Ok(Entry::In(side, Blob::from_slice(alloc, &buffer[..n])?)),
        Happening::Shut(side) => Ok(Entry::Shut(side)),
        Happening::Failed(side) => Ok(Entry::Failed(side)),
        Happening::Quiet => Ok(Entry::Quiet),
    }
}

impl Book {
    ghost use Rattle.session_recorder.specs.Books.{entries_in, state_in, is_refused, rooms_in, IsNew, Same, Adds, Fails};
    ghost use Rattle.session_recorder.specs.Books.{Takes, is_heard, blamed, HearsBy, Opens, DoesNotOpen, HasSpare};

    /// A book in which nothing is kept yet, for wires with both sides open, or that are still to be opened; `NoMemory`
    /// comes where memory is refused.
    pub fn new(alloc: Global) -> Result<Book, NoMemory>
        ensures { IfOk result IsNew }
    {
        let mut log = RunLog::new(alloc);
        log.reserve(2)?;
        Ok(Book {
            alloc,
            log,
            client: SideState::Open,
            target: SideState::Open,
            open_refusals: 0,
        })
    }

    /// Whether a link failed since memory was refused to the recorder.
    pub fn refused(&self) -> bool
        ensures { result ≡ is_refused self.now }
    {
        self.client.is_lost() || self.target.is_lost()
    }

    /// What was kept so far, as runs.
    pub fn runs(&self) -> &[Run]
        ensures entries { entries_of result.now ≡ entries_in self.now }
        ensures runs { AreRuns result.now }
    {
        self.log.runs()
    }

    /// All that was kept, as runs.
    pub fn into_runs(self) -> List<Run>
        ensures entries { entries_of result ≡ entries_in self }
        ensures runs { AreRuns result }
    {
        self.log.into_runs()
    }

    fn state(&self, side: Side) -> SideState
        ensures { result ≡ state_in side self.now }
    {
        match side {
            Side::Client => self.client,
            Side::Target => self.target,
        }
    }

    // How many entries have to be added where memory is refused.
    fn rooms(&self) -> usize
        ensures rooms { result ≡ rooms_in self.now }
        ensures most { result ≤ 2 }
    {
        self.client.room() + self.target.room()
    }

    // Whether what came is of a side that is open, or a wait in vain.
    fn is_heard(&self, happening: Happening) -> bool
        ensures { result ≡ is_heard happening self.now }
    {
        match happening {
            Happening::Bytes(side, _) => self.state(side).is_open(),
            Happening::Shut(side) => self.state(side).is_open(),
            Happening::Failed(side) => self.state(side).is_open(),
            Happening::Quiet => true,
        }
    }

    // The side that fails where there is no memory for what came.
    fn blamed(&self, happening: Happening) -> Side
        ensures { result ≡ blamed happening self.now }
    {
        let side = match happening {
            Happening::Bytes(side, _) => side,
            Happening::Shut(side) => side,
            Happening::Failed(side) => side,
            Happening::Quiet => Side::Client,
        };
        if self.state(side).is_open() {
            side
        } else {
            side.other()
        }
    }

    // Logs what came; where memory is refused nothing changes.
    fn take(&mut self, buffer: &[u8], happening: Happening) -> Result<(), NoMemory>
        requires { IsWithin (length buffer.now) happening }
        ensures ok { OnOk result (Takes self.old self.new buffer.now happening) }
        ensures err { OnErr result (Same self.old self.new) }
    {
        let entry = entry(self.alloc, buffer, happening)?;
        let kept = self.rooms();
        self.log.add(entry, kept)?;
        self.client = self.client.after(Side::Client, happening);
        self.target = self.target.after(Side::Target, happening);
        Ok(())
    }

    /// Logs and counts that a side failed since memory was refused, which takes none.
    pub(crate) fn lose(&mut self, side: Side)
        requires { state_in side self.old ≡ Open }
        ensures { Fails side self.old self.new Lost }
    {
        self.log.add_reserved(Entry::Failed(side));
        match side {
            Side::Client => self.client = SideState::Lost,
            Side::Target => self.target = SideState::Lost,
        }
    }

    /// Logs what came, and answers it. Where there is no memory for that, or it is of a side that was lost, a side has
    /// failed: that is logged and answered in its place.
    pub(crate) fn hear(&mut self, buffer: &[u8], happening: Happening) -> Happening
        requires within { IsWithin (length buffer.now) happening }
        requires blamed { state_in (blamed happening self.old) self.old ≡ Open }
        ensures { HearsBy self.old self.new buffer.now happening result }
    {
        if self.is_heard(happening) && self.take(buffer, happening).is_ok() {
            return happening;
        }
        let side = self.blamed(happening);
        self.lose(side);
        Happening::Failed(side)
    }

    /// The entry of bytes that are to go out, for which there is room then, beside that for the failures; `NoMemory` comes
    /// where memory is refused. In either case nothing changes.
    pub(crate) fn prepare(&mut self, side: Side, bytes: &[u8]) -> Result<Entry, NoMemory>
        ensures same { Same self.old self.new }
        ensures entry { IfOk result (λ e. e ≡ Out side bytes.now) }
        ensures room { OnOk result (HasSpare self.new) }
    {
        let entry = Entry::Out(side, Blob::from_slice(self.alloc, bytes)?);
        let room = self.rooms() + 1;
        self.log.reserve(room)?;
        Ok(entry)
    }

    /// Adds an entry for which there is room beside that for the failures.
    pub(crate) fn add(&mut self, entry: Entry)
        requires spare { HasSpare self.old }
        requires limit { CanTake entry (entries_in self.old) }
        ensures { Adds self.old self.new entry }
    {
        self.log.add_reserved(entry);
    }

    /// Logs the failure of a side's link, for which there is room beside that for the failures.
    pub(crate) fn fail(&mut self, side: Side)
        requires { HasSpare self.old }
        ensures { Fails side self.old self.new (closed_state (state_in side self.old)) }
    {
        self.log.add_reserved(Entry::Failed(side));
        match side {
            Side::Client => self.client = self.client.closed(),
            Side::Target => self.target = self.target.closed(),
        }
    }

    /// Takes up that links were opened, the client's so, or that they were not; where a side was lost before, they count as
    /// not opened.
    pub(crate) fn open(
        &mut self,
        opened: Result<(), OpenFailed>,
        client: SideState,
    ) -> Result<(), OpenFailed>
        ensures ok { OnOk result (IsOk opened × is_refused self.old ≡ false × Opens self.old self.new client) }
        ensures err { OnErr result (DoesNotOpen self.old self.new opened) }
    {
        let refused = self.refused();
        if refused {
            self.open_refusals = raise(self.open_refusals);
        }
        if refused || opened.is_err() {
            self.client = self.client.closed();
            self.target = self.target.closed();
            return Err(OpenFailed);
        }
        self.client = client;
        self.target = SideState::Open;
        Ok(())
    }
}
