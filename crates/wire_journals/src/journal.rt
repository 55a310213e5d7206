ghost use Rattle.std.specs.Prelude.{◌≡◌, ◌≤◌, true, [], ◌∷◌, length, IfOk, IsOk, OnOk, OnErr, Some};
ghost use Rattle.std.specs.Prelude.{◌↔◌};
ghost use Rattle.wire_core.specs.declared.outside.Side.TheVariants.{Client, Target};
ghost use Rattle.wire_core.specs.declared.outside.Happening.TheVariants.{Failed as fails};
ghost use Rattle.wire_core.specs.declared.outside.Entry.TheVariants.{Out, Failed};
ghost use Rattle.wire_core.specs.Outside.{entry_of, Adds, IsOpen, Connects, FailsToConnect, Reaches};
ghost use Rattle.wire_core.specs.Outside.{FailsToReach, SameWaits};
ghost use Rattle.wire_core.specs.Links.{is_open_in, open_count, raised, shut_link, Counts, Keeps, IsWithin};
ghost use Rattle.run_logs.specs.Runs.{entries_of, AreRuns};

use run_logs::{Run, RunLog};
use std::alloc::Global;
use wire_core::{Blob, Entry, Happening, Links, Names, NoMemory, OpenFailed, Side, Text, raise};

/// What came and went out over wires, their links, how often they waited, and what they were asked to open. The failure
/// of each side that is open can be logged without memory.
#[derive(Debug, Drop)]
pub struct Journal {
    log: RunLog,
    waits: u64,
    links: Links,
    open_faults: u64,
    asked: Option<Names>,
    ghost room: { open_count links ≤ log.room },
}

// The entry of a happening, with a copy of the bytes that came.
fn entry(alloc: Global, buffer: &[u8], happening: Happening) -> Result<Entry, NoMemory>
    requires { IsWithin (length buffer.now) happening }
    ensures { IfOk result (λ e. e ≡ entry_of buffer.now happening) }
{
    match happening {
        Happening::Bytes(side, n) => Ok(Entry::In(side, Blob::from_slice(alloc, &buffer[..n])?)),
        Happening::Shut(side) => Ok(Entry::Shut(side)),
        Happening::Failed(side) => Ok(Entry::Failed(side)),
        Happening::Quiet => Ok(Entry::Quiet),
    }
}

impl Journal {
    ghost use Rattle.wire_journals.specs.Journals.{asked_in_vain, outside_in, HasRoom, IsNewJournal};

    /// The journal of wires with both sides open, of which nothing was asked yet.
    pub fn new(alloc: Global) -> Result<Journal, NoMemory>
        ensures { IfOk result IsNewJournal }
    {
        let mut log = RunLog::new(alloc);
        log.reserve(2)?;
        Ok(Journal {
            log,
            waits: 0,
            links: Links::new(true),
            open_faults: 0,
            asked: None,
        })
    }

    /// What came and went so far, where waits in vain that follow each other are one run.
    pub fn runs(&self) -> &[Run]
        ensures log { (outside_in self.now).log ≡ Some (entries_of result.now) }
        ensures runs { AreRuns result.now }
    {
        self.log.runs()
    }

    /// The links.
    pub fn links(&self) -> Links
        ensures { result ≡ self.now.links }
    {
        self.links
    }

    /// Counts a wait.
    pub fn wait(&mut self)
        ensures waits { (outside_in self.new).waits ≡ raised (outside_in self.old).waits }
        ensures log { (outside_in self.new).log ≡ (outside_in self.old).log }
        ensures links { self.new.links ≡ self.old.links }
        ensures kept { Keeps (outside_in self.old) (outside_in self.new) }
    {
        self.waits = raise(self.waits);
    }

    /// Opens what is open already, under these names; it fails exactly where a side isn't open.
    pub fn connect(&mut self, listen: Text, target: Text) -> Result<(), OpenFailed>
        requires { (outside_in self.old).asked ≡ [] }
        ensures ok { OnOk result (Connects (outside_in self.old) (outside_in self.new) listen target) }
        ensures err { OnErr result (FailsToConnect (outside_in self.old) (outside_in self.new) listen target) }
        ensures both_open { IsOk result
            ↔ (IsOpen Client (outside_in self.old) × IsOpen Target (outside_in self.old)) }
        ensures log { (outside_in self.new).log ≡ (outside_in self.old).log }
        ensures links { self.new.links ≡ self.old.links }
        ensures asked { (outside_in self.new).asked ≡ listen ∷ target ∷ [] }
    {
        self.asked = Some(Names {
            listen: Some(listen),
            target,
        });
        if self.links.is_open(Side::Client) && self.links.is_open(Side::Target) {
            return Ok(());
        }
        self.open_faults = raise(self.open_faults);
        Err(OpenFailed)
    }

    /// Opens nothing, whatever names are asked for, and counts that as a fault.
    pub fn open_nothing(&mut self, listen: Option<Text>, target: Text)
        ensures outside { outside_in self.new ≡ asked_in_vain listen target (outside_in self.old) }
        ensures links { self.new.links ≡ self.old.links }
    {
        self.asked = Some(Names { listen, target });
        self.open_faults = raise(self.open_faults);
    }

    // Shuts the client's side, which is not logged.
    fn leave_client(&mut self)
        ensures log { (outside_in self.new).log ≡ (outside_in self.old).log }
        ensures waits { SameWaits (outside_in self.old) (outside_in self.new) }
        ensures client { (outside_in self.new).client ≡ shut_link (outside_in self.old).client }
        ensures target { (outside_in self.new).target ≡ (outside_in self.old).target }
        ensures open_faults { (outside_in self.new).open_faults ≡ (outside_in self.old).open_faults }
    {
        if self.links.is_open(Side::Client) {
            self.links = self.links.after(Happening::Shut(Side::Client));
        }
    }

    /// Reaches the target alone, under this name: the client's side is shut. It fails exactly where the target's side
    /// isn't open.
    pub fn reach(&mut self, target: Text) -> Result<(), OpenFailed>
        requires { (outside_in self.old).asked ≡ [] }
        ensures ok { OnOk result (Reaches (outside_in self.old) (outside_in self.new) target) }
        ensures err { OnErr result (FailsToReach (outside_in self.old) (outside_in self.new) target) }
        ensures target_open { IsOk result ↔ IsOpen Target (outside_in self.old) }
        ensures log { (outside_in self.new).log ≡ (outside_in self.old).log }
        ensures client { (outside_in self.new).client ≡ shut_link (outside_in self.old).client }
        ensures same { (outside_in self.new).target ≡ (outside_in self.old).target }
        ensures asked { (outside_in self.new).asked ≡ target ∷ [] }
    {
        self.leave_client();
        self.asked = Some(Names {
            listen: None,
            target,
        });
        if self.links.is_open(Side::Target) {
            return Ok(());
        }
        self.open_faults = raise(self.open_faults);
        Err(OpenFailed)
    }

    /// Logs and counts the failure of a side, which takes no memory.
    pub fn fail(&mut self, side: Side)
        requires { is_open_in self.old.links side ≡ true }
        ensures log { Adds (outside_in self.old) (outside_in self.new) (Failed side ∷ []) }
        ensures links { Counts (outside_in self.old) (outside_in self.new) (fails side) }
        ensures waits { SameWaits (outside_in self.old) (outside_in self.new) }
    {
        self.log.add_reserved(Entry::Failed(side));
        self.links = self.links.after(Happening::Failed(side));
    }

    /// Logs and counts what came. `NoMemory` comes where memory is refused, or at a wait in vain behind 2^62 of them;
    /// then nothing changes.
    pub fn hear(
        &mut self,
        alloc: Global,
        buffer: &[u8],
        happening: Happening,
    ) -> Result<(), NoMemory>
        requires { IsWithin (length buffer.now) happening }
        ensures log { OnOk result (Adds (outside_in self.old) (outside_in self.new)
            (entry_of buffer.now happening ∷ [])) }
        ensures links { OnOk result (Counts (outside_in self.old) (outside_in self.new) happening) }
        ensures waits { SameWaits (outside_in self.old) (outside_in self.new) }
        ensures same { OnErr result (outside_in self.new ≡ outside_in self.old) }
        ensures kept { OnErr result (self.new.links ≡ self.old.links) }
    {
        let links = self.links.after(happening);
        let kept = links.open_count();
        self.log.add(entry(alloc, buffer, happening)?, kept)?;
        self.links = links;
        Ok(())
    }

    /// Makes room for an entry beside the failures; `NoMemory` comes where memory is refused. In either case nothing else
    /// changes.
    pub fn make_room(&mut self) -> Result<(), NoMemory>
        ensures same { outside_in self.new ≡ outside_in self.old }
        ensures kept { self.new.links ≡ self.old.links }
        ensures room { OnOk result (HasRoom self.new) }
    {
        let room = self.links.open_count() + 1;
        self.log.reserve(room)
    }

    /// Logs what went out, for which there is room.
    pub fn sent(&mut self, side: Side, bytes: Blob)
        requires { HasRoom self.old }
        ensures log { Adds (outside_in self.old) (outside_in self.new) (Out side bytes ∷ []) }
        ensures links { Keeps (outside_in self.old) (outside_in self.new) }
        ensures waits { SameWaits (outside_in self.old) (outside_in self.new) }
        ensures kept { self.new.links ≡ self.old.links }
    {
        self.log.add_reserved(Entry::Out(side, bytes));
    }

    /// Logs what went out. `NoMemory` comes where memory is refused; then nothing changes.
    pub fn send(&mut self, alloc: Global, side: Side, bytes: &[u8]) -> Result<(), NoMemory>
        ensures log { OnOk result (Adds (outside_in self.old) (outside_in self.new) (Out side bytes.now ∷ [])) }
        ensures links { OnOk result (Keeps (outside_in self.old) (outside_in self.new)) }
        ensures waits { SameWaits (outside_in self.old) (outside_in self.new) }
        ensures same { OnErr result (outside_in self.new ≡ outside_in self.old) }
        ensures kept { self.new.links ≡ self.old.links }
    {
        let kept = self.links.open_count();
        self.log
            .add(Entry::Out(side, Blob::from_slice(alloc, bytes)?), kept)
    }
}
