//! The desk of a dump: its conversation, and the log of its session.
ghost use Rattle.std.specs.Prelude.{◌≡◌, ◌<◌, ℕ, true, List, length, IfOk, IfSome, OnOk, OnErr};
ghost use Rattle.dump_wires.specs.Desks.{blamed, entry_is};
ghost use Rattle.wire_core.specs.Links.{first_open, is_open_in, link_after, IsPossible, IsWithin};
ghost use Rattle.wire_core.specs.Outside.{FailsToSend, Hears, IsOpen, Link, Sends};
ghost use Rattle.wire_core.specs.declared.links.Links.{Links as TheLinks};
ghost use Rattle.wire_core.specs.declared.outside.Side.TheVariants.{Client, Target};

use dump_client::Conversation;
use std::alloc::Global;
use wire_core::{Blob, Happening, Links, NoMemory, SendFailed, Side, Text};
use wire_journals::Journal;

/// What a dump keeps beside the wires of its target: its conversation, the log of its session, and whether a link failed
/// since memory was refused.
#[derive(Drop)]
pub struct Desk {
    alloc: Global,
    journal: Journal,
    talk: Conversation,
    refused: bool,
}

// Puts the frame of a request at the front of a buffer. `NoMemory` comes where it has no room there.
fn put(frame: &Blob, buffer: &mut [u8]) -> Result<Happening, NoMemory>
    requires { length buffer.old ≡ 65536 }
    ensures entry { IfOk result (entry_is frame.now buffer.new) }
    ensures link { IfOk result (λ happening. (l : Link) → link_after Target happening l ≡ l) }
    ensures within { IfOk result (IsWithin (length buffer.new)) }
    ensures possible { IfOk result (λ happening. (links : TheLinks) → is_open_in links Client ≡ true
        → IsPossible links 65536 happening) }
{
    let count = frame.len();
    if count == 0 || count > buffer.len() {
        return Err(NoMemory);
    }
    buffer[..count].copy_from_slice(frame.as_slice());
    Ok(Happening::Bytes(Side::Client, count))
}

// The side that fails where there is no memory for what came: the one that it names; of a wait, the first that is open.
fn blamed(links: Links, happening: Happening) -> Side
    ensures { result ≡ blamed links happening }
{
    match happening {
        Happening::Bytes(side, _) => side,
        Happening::Shut(side) => side,
        Happening::Failed(side) => side,
        Happening::Quiet => links.first(),
    }
}

impl Desk {
    ghost use Rattle.dump_wires.specs.Desks.{links_of, outside_of, FailsTarget, Gives, HasSpare, HearsAs, IsNew, Makes};
    ghost use Rattle.dump_wires.specs.Desks.{OpensNothing, Passes, Refuses, Takes, Turns, Withholds};

    /// The desk of a dump that has not begun, for wires of which nothing was asked; `NoMemory` comes where memory is refused.
    pub fn new(alloc: Global) -> Result<Desk, NoMemory>
        ensures { IfOk result IsNew }
    {
        let journal = Journal::new(alloc)?;
        let talk = Conversation::new(alloc);
        Ok(Desk {
            alloc,
            journal,
            talk,
            refused: false,
        })
    }

    /// Whether a link failed since memory was refused.
    pub fn refused(&self) -> bool
        ensures { result ≡ self.now.refused }
    {
        self.refused
    }

    /// The conversation, as far as it came.
    pub fn into_conversation(self) -> Conversation
        ensures { result ≡ self.talk }
    {
        self.talk
    }

    /// Whether the target's side is open.
    pub(crate) fn target_open(&self) -> bool
        ensures { result ≡ is_open_in (links_of self.now) Target }
    {
        self.journal.links().is_open(Side::Target)
    }

    /// Nothing is opened: the links are there.
    pub(crate) fn open_nothing(&mut self, listen: Option<Text>, target: Text)
        ensures { OpensNothing listen target self.old self.new }
    {
        self.journal.open_nothing(listen, target);
    }

    // Fails a side, for want of memory.
    fn refuse(&mut self, side: Side)
        requires { is_open_in (links_of self.old) side ≡ true }
        ensures { Refuses side self.old self.new }
    {
        self.journal.fail(side);
        self.refused = true;
    }

    // The client fails, since memory was refused.
    fn lose_client(&mut self) -> Happening
        requires { IsOpen Client (outside_of self.old) }
        ensures hears { (buffer : List ℕ) → Hears (outside_of self.old) (outside_of self.new) buffer result }
        ensures refuses { Withholds Client self.old self.new result }
    {
        self.journal.wait();
        self.refuse(Side::Client);
        Happening::Failed(Side::Client)
    }

    // Logs a request that is made; where memory is refused, nothing is logged.
    fn make(&mut self, frame: &Blob, buffer: &mut [u8]) -> Result<Happening, NoMemory>
        requires room { length buffer.old ≡ 65536 }
        requires is_open { is_open_in (links_of self.old) Client ≡ true }
        ensures ok { IfOk result (Makes frame.now self.old self.new buffer.new) }
        ensures possible { IfOk result (IsPossible (links_of self.old) 65536) }
        ensures err { OnErr result (outside_of self.new ≡ outside_of self.old) }
        ensures kept { OnErr result (links_of self.new ≡ links_of self.old) }
    {
        let happening = put(frame, buffer)?;
        self.journal.hear(self.alloc, buffer, happening)?;
        self.talk.ask();
        Ok(happening)
    }

    // Makes this request, or the client fails where memory is refused.
    fn give(&mut self, frame: &Blob, buffer: &mut [u8]) -> Happening
        requires room { length buffer.old ≡ 65536 }
        requires is_open { IsOpen Client (outside_of self.old) }
        ensures hears { Hears (outside_of self.old) (outside_of self.new) buffer.new result }
        ensures gives { Gives frame.now self.old self.new buffer.new result }
    {
        self.journal.wait();
        match self.make(frame, buffer) {
            Ok(happening) => happening,
            Err(NoMemory) => {
                self.refuse(Side::Client);
                Happening::Failed(Side::Client)
            }
        }
    }

    /// Gives the request that is due, if one is and the client is open; the client fails where memory is refused for that.
    pub(crate) fn turn(&mut self, buffer: &mut [u8]) -> Option<Happening>
        requires { length buffer.old ≡ 65536 }
        ensures hears { IfSome result (Hears (outside_of self.old) (outside_of self.new) buffer.new) }
        ensures turns { Turns self.old self.new buffer.new result }
    {
        if !self.journal.links().is_open(Side::Client) {
            return None;
        }
        match self.talk.request(self.alloc) {
            Ok(Some(frame)) => Some(self.give(&frame, buffer)),
            Ok(None) => None,
            Err(NoMemory) => Some(self.lose_client()),
        }
    }

    /// Logs what came, and answers it; where there is no memory for that, a side has failed in its place.
    pub(crate) fn hear(&mut self, buffer: &[u8], happening: Happening) -> Happening
        requires room { length buffer.now ≡ 65536 }
        requires possible { IsPossible (links_of self.old) 65536 happening }
        requires some_open { is_open_in (links_of self.old) (first_open (links_of self.old)) ≡ true }
        ensures hears { Hears (outside_of self.old) (outside_of self.new) buffer.now result }
        ensures answers { HearsAs happening self.old self.new buffer.now result }
    {
        self.journal.wait();
        if self.journal.hear(self.alloc, buffer, happening).is_ok() {
            return happening;
        }
        let side = blamed(self.journal.links(), happening);
        self.refuse(side);
        Happening::Failed(side)
    }

    // Hands a frame to the conversation, and logs it; where memory is refused, nothing is logged.
    fn keep(&mut self, bytes: &[u8]) -> Result<(), NoMemory>
        ensures ok { OnOk result (Takes bytes.now self.old self.new) }
        ensures err { OnErr result (outside_of self.new ≡ outside_of self.old) }
        ensures links { OnErr result (links_of self.new ≡ links_of self.old) }
    {
        self.talk.hear(self.alloc, bytes)?;
        self.journal.send(self.alloc, Side::Client, bytes)
    }

    /// The client takes what is sent to it. A send to it fails only where memory is refused.
    pub(crate) fn take(&mut self, bytes: &[u8]) -> Result<(), SendFailed>
        requires is_open { IsOpen Client (outside_of self.old) }
        requires some_bytes { 0 < length bytes.now }
        ensures ok { OnOk result (Sends (outside_of self.old) (outside_of self.new) Client bytes.now) }
        ensures err { OnErr result (FailsToSend (outside_of self.old) (outside_of self.new) Client bytes.now) }
        ensures takes { OnOk result (Takes bytes.now self.old self.new) }
        ensures refuses { OnErr result (Refuses Client self.old self.new) }
    {
        match self.keep(bytes) {
            Ok(()) => Ok(()),
            Err(NoMemory) => {
                self.refuse(Side::Client);
                Err(SendFailed)
            }
        }
    }

    /// A copy of what is to be sent to the target, and room to log it; `NoMemory` comes where memory is refused. In either
    /// case nothing changes that the desk tells.
    pub(crate) fn prepare(&mut self, bytes: &[u8]) -> Result<Blob, NoMemory>
        ensures copy { IfOk result (λ copy. copy ≡ bytes.now) }
        ensures room { OnOk result (HasSpare self.new) }
        ensures same { outside_of self.new ≡ outside_of self.old }
        ensures links { links_of self.new ≡ links_of self.old }
        ensures talk { self.new.talk ≡ self.old.talk }
        ensures refused { self.new.refused ≡ self.old.refused }
    {
        let copy = Blob::from_slice(self.alloc, bytes)?;
        self.journal.make_room()?;
        Ok(copy)
    }

    /// Logs what was sent to the target, for which there is room.
    pub(crate) fn sent(&mut self, bytes: Blob)
        requires { HasSpare self.old }
        ensures sends { Sends (outside_of self.old) (outside_of self.new) Target bytes }
        ensures passes { Passes bytes self.old self.new }
    {
        self.journal.sent(Side::Target, bytes);
    }

    /// The target's side has failed.
    pub(crate) fn fail_target(&mut self)
        requires { IsOpen Target (outside_of self.old) }
        ensures sends { (bytes : List ℕ) → 0 < length bytes
            → FailsToSend (outside_of self.old) (outside_of self.new) Target bytes }
        ensures fails { FailsTarget self.old self.new }
    {
        self.journal.fail(Side::Target);
    }

    /// The target's side fails, since memory was refused.
    pub(crate) fn lose_target(&mut self)
        requires { IsOpen Target (outside_of self.old) }
        ensures sends { (bytes : List ℕ) → 0 < length bytes
            → FailsToSend (outside_of self.old) (outside_of self.new) Target bytes }
        ensures refuses { Refuses Target self.old self.new }
    {
        self.refuse(Side::Target);
    }
}
