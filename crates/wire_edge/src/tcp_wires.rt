ghost use Rattle.std.specs.Prelude.{◌≡◌, ◌<◌, false, true, [], length, IfOk, IfSome, IfNone, OnOk, OnErr, IsTrue};
ghost use Rattle.wire_core.specs.Links.{IsFresh, IsPossible, is_open_in, raised};
ghost use Rattle.wire_core.specs.Outside.{other_side, WasEmpty, IsOpen, HasOpen, Hears, Sends, FailsToSend};
ghost use Rattle.wire_edge.specs.Streams.{Asks, AsksInTurn, GivesTurn, InTurn, IsOf, IsQuiet, TakesAll, heard_of};
ghost use Rattle.wire_edge.specs.Tally.{told_by};

use crate::awaiting::accept;
use crate::farewell::part;
use crate::streams::{Polled, Unsent, is_alive, pause, poll, ready, send_all};
use crate::watch::Watch;
use std::alloc::Allocator;
use std::io::{self, ErrorKind};
use std::net::{Net, OpenStream, TcpListener, TcpStream};
use std::time::{Clock, Duration, Instant};
use wire_core::{Happening, Links, Names, OpenFailed, SendFailed, Side, Text, Wires, raise};

// How old a link to the target may be when the first bytes go out on it, in milliseconds: a Java machine drops one
// that has not shaken hands within two seconds.
const FRESH_MILLIS: u64 = 1500;

/// Wires over two TCP streams of the system. They tell no log, and a count stands still at its last value.
///
/// - `next` asks both sides without blocking, the one first from which nothing came last. Where both are silent it waits
///   for a moment, until the system says of one of them that something came, and asks both again.
/// - A reset by the peer is the end of its stream. What is sent to a target that has ended counts as sent.
/// - A link to the target on which nothing went yet doesn't end: where the target dropped it, or it is older than
///   1.5 seconds, the first send dials again.
/// - The client is the first connection that sends a byte; one that ends before is passed over.
#[derive(Drop)]
pub struct TcpWires<R: Net + Alloc> {
    rt: R,
    tally: Tally,
    client: Option<R::Stream>,
    target: Option<R::Stream>,
    // both streams, since they were opened
    watch: Option<Watch<R::A>>,
    // when the target was dialled
    dialled: Option<Instant>,
    // nothing went to the target or came from it
    is_fresh: bool,
    // the side that is asked next
    turn: Side,
}

/// What the wires tell of themselves.
#[derive(Drop)]
struct Tally {
    waits: u64,
    links: Links,
    open_faults: u64,
    asked: Option<Names>,
}

impl<R: Net + Clock + Alloc + Drop> TcpWires<R>
where
    R::A: Copy,
{
    /// Wires that are closed until `connect` opens them.
    pub fn new(rt: R) -> TcpWires<R>
        ensures waits { (told_by result.tally).waits ≡ 0 }
        ensures links { IsFresh result.tally.links false }
        ensures open_faults { result.tally.open_faults ≡ 0 }
        ensures asked { (told_by result.tally).asked ≡ [] }
    {
        TcpWires {
            rt,
            tally: Tally {
                waits: 0,
                links: Links::new(false),
                open_faults: 0,
                asked: None,
            },
            client: None,
            target: None,
            watch: None,
            dialled: None,
            is_fresh: true,
            turn: Side::Client,
        }
    }

    /// Closes both links, so that what was sent arrives. The write side of each is shut, and what its peer still sends is
    /// read away until the peer closes it too, for at most two seconds and 64 MiB a side.
    pub fn close(self) {
        let links = self.tally.links;
        let is_target_due = links.is_open(Side::Target) && !self.is_fresh;
        let client = self.client.filter(|_| links.is_open(Side::Client));
        let target = self.target.filter(|_| is_target_due);
        part(&self.rt, client, target);
    }

    // Opens the target's stream.
    fn open_target(&mut self, target: &Text) -> io::Result<()>
        ensures { self.new.tally ≡ self.old.tally }
    {
        let watch = Watch::new(self.rt.alloc(), &self.rt)?;
        self.dialled = Instant::now(&self.rt).ok();
        self.target = Some(dial(&self.rt, &watch, target)?);
        self.watch = Some(watch);
        Ok(())
    }

    // Opens both streams, the target's first.
    fn open(&mut self, listen: &Text, target: &Text) -> io::Result<()>
        ensures { self.new.tally ≡ self.old.tally }
    {
        self.open_target(target)?;
        let listener = TcpListener::bind(&self.rt, listen.as_str())?;
        let client = accept(self.rt.alloc(), &self.rt, &listener)?;
        if let Some(watch) = &self.watch {
            watch.add(&client)?;
        }
        self.client = Some(client);
        Ok(())
    }

    // Counts that a link was not opened.
    fn refuse(&mut self) -> OpenFailed
        ensures { self.new.tally ≡ record self.old.tally { open_faults = raised self.old.tally.open_faults } }
    {
        self.tally.open_faults = raise(self.tally.open_faults);
        OpenFailed
    }

    // Whether the target's link, on which nothing went so far, is still there and young.
    fn is_young(&self) -> bool {
        let Some(dialled) = self.dialled else {
            return false;
        };
        let Ok(age) = dialled.elapsed(&self.rt) else {
            return false;
        };
        age < Duration::from_millis(FRESH_MILLIS) && self.target.as_ref().is_some_and(is_alive)
    }

    // Dials the target again where the link, on which nothing went so far, is gone or old.
    fn redial(&mut self) -> io::Result<()>
        ensures tally { self.new.tally ≡ self.old.tally }
        ensures turn { self.new.turn ≡ self.old.turn }
    {
        if self.is_young() {
            return Ok(());
        }
        // The old link first: a Java machine takes one at a time.
        self.target = None;
        let (Some(names), Some(watch)) = (&self.tally.asked, &self.watch) else {
            return Err(io::Error::from(ErrorKind::NotConnected));
        };
        self.dialled = Instant::now(&self.rt).ok();
        self.target = Some(dial(&self.rt, watch, &names.target)?);
        Ok(())
    }

    // Sends to the client.
    fn send_client(&mut self, bytes: &[u8]) -> bool
        ensures tally { self.new.tally ≡ self.old.tally }
        ensures turn { self.new.turn ≡ self.old.turn }
        ensures whole { IsTrue result → TakesAll R.Stream.contents self.old.client self.new.client bytes.now }
    {
        let Some(stream) = &mut self.client else {
            return false;
        };
        send_all(&self.rt, stream, bytes).is_ok()
    }

    // Sends to the target, by a new link where nothing was sent yet and the old one is gone.
    fn send_target(&mut self, bytes: &[u8]) -> bool
        ensures tally { self.new.tally ≡ self.old.tally }
        ensures turn { self.new.turn ≡ self.old.turn }
    {
        if self.is_fresh && self.redial().is_err() {
            return false;
        }
        self.is_fresh = false;
        let Some(stream) = &mut self.target else {
            return false;
        };
        match send_all(&self.rt, stream, bytes) {
            // The end of the target's stream is read next.
            Ok(()) | Err(Unsent::Closed) => true,
            Err(Unsent::Broken) => false,
        }
    }

    // Reads from a side that is open.
    fn read(&mut self, side: Side, buffer: &mut [u8]) -> Option<Happening>
        requires { is_open_in self.old.tally.links side ≡ true }
        ensures tally { self.new.tally ≡ self.old.tally }
        ensures possible { IfSome result (IsPossible self.old.tally.links (length buffer.old)) }
        ensures side { IfSome result (IsOf side) }
        ensures turn { self.new.turn ≡ self.old.turn }
    {
        match side {
            Side::Client => heard(Side::Client, poll(self.client.as_mut()?, buffer)),
            Side::Target => {
                let polled = poll(self.target.as_mut()?, buffer);
                if self.is_fresh && matches!(polled, Polled::Ended | Polled::Broken) {
                    self.target = None;
                    return None;
                }
                self.is_fresh = self.is_fresh && polled == Polled::Nothing;
                heard(Side::Target, polled)
            }
        }
    }

    // Asks a side, where it is open. That it had nothing is counted.
    fn ask(&mut self, side: Side, buffer: &mut [u8]) -> Option<Happening>
        ensures asks { Asks (told_by self.old.tally) (told_by self.new.tally) }
        ensures possible { IfSome result (IsPossible self.old.tally.links (length buffer.old)) }
        ensures side { IfSome result (IsOf side) }
        ensures vain { IfNone result (WasEmpty side (told_by self.old.tally) (told_by self.new.tally)) }
        ensures turn { self.new.turn ≡ self.old.turn }
    {
        if !self.tally.links.is_open(side) {
            return None;
        }
        let heard = self.read(side, buffer);
        if heard.is_none() {
            self.tally.links = self.tally.links.asked_in_vain(side);
        }
        heard
    }

    // Asks the side whose turn it is, and gives the turn to the other.
    fn ask_next(&mut self, buffer: &mut [u8]) -> Option<Happening>
        ensures asks { Asks (told_by self.old.tally) (told_by self.new.tally) }
        ensures possible { IfSome result (IsPossible self.old.tally.links (length buffer.old)) }
        ensures side { IfSome result (IsOf self.old.turn) }
        ensures vain { IfNone result (WasEmpty self.old.turn (told_by self.old.tally) (told_by self.new.tally)) }
        ensures turn { self.new.turn ≡ other_side self.old.turn }
    {
        let side = self.turn;
        self.turn = side.other();
        self.ask(side, buffer)
    }

    // Asks both sides, each in its turn.
    fn ask_both(&mut self, buffer: &mut [u8]) -> Option<Happening>
        ensures asks { Asks (told_by self.old.tally) (told_by self.new.tally) }
        ensures possible { IfSome result (IsPossible self.old.tally.links (length buffer.old)) }
        ensures turn { IfSome result (IsOf (other_side self.new.turn)) }
        ensures in_turn { AsksInTurn self.old.turn (told_by self.old.tally) (told_by self.new.tally) result }
    {
        match self.ask_next(buffer) {
            Some(happening) => Some(happening),
            None => self.ask_next(buffer),
        }
    }

    // Waits until one of the sides may have something, or for a moment; false where the moment went by.
    fn linger(&mut self) -> bool
        ensures tally { self.new.tally ≡ self.old.tally }
        ensures turn { self.new.turn ≡ self.old.turn }
    {
        match &mut self.watch {
            Some(watch) => watch.wait(&self.rt),
            None => {
                pause(&self.rt);
                false
            }
        }
    }

    // What comes next; after a moment of silence, nothing. The side that it doesn't come from is asked first afterwards.
    fn wait(&mut self, buffer: &mut [u8]) -> Happening
        ensures asks { Asks (told_by self.old.tally) (told_by self.new.tally) }
        ensures possible { IsPossible self.old.tally.links (length buffer.old) result }
        ensures turn { GivesTurn self.new.turn result }
        ensures in_turn { InTurn self.old.turn (told_by self.old.tally) (told_by self.new.tally) result }
        ensures quiet { IsQuiet (told_by self.old.tally) (told_by self.new.tally) result }
    {
        if let Some(happening) = self.ask_both(buffer) {
            return happening;
        }
        if !self.linger() {
            return Happening::Quiet;
        }
        match self.ask_both(buffer) {
            Some(happening) => happening,
            None => Happening::Quiet,
        }
    }
}

// A stream to this address, which is watched.
fn dial<R: Net, A: Allocator>(rt: &R, watch: &Watch<A>, address: &Text) -> io::Result<R::Stream> {
    let stream = ready(TcpStream::connect(rt, address.as_str())?)?;
    watch.add(&stream)?;
    Ok(stream)
}

// What comes of a side that was asked.
fn heard(side: Side, polled: Polled) -> Option<Happening>
    ensures { result ≡ heard_of side polled }
{
    match polled {
        Polled::Bytes(n) => Some(Happening::Bytes(side, n)),
        Polled::Ended => Some(Happening::Shut(side)),
        Polled::Broken => Some(Happening::Failed(side)),
        Polled::Nothing => None,
    }
}

impl<R: Net + Clock + Alloc + Drop> Wires for TcpWires<R>
where
    R::A: Copy,
{
    ghost outside = { λ w. told_by w.tally };

    ghost stays = { λ v w. Unit {0} };

    fn connect(&mut self, listen: Text, target: Text) -> Result<(), OpenFailed> {
        let opened = self.open(&listen, &target);
        self.tally.asked = Some(Names {
            listen: Some(listen),
            target,
        });
        match opened {
            Ok(()) => {
                self.tally.links = self.tally.links.opened();
                Ok(())
            }
            Err(_) => Err(self.refuse()),
        }
    }

    fn reach(&mut self, target: Text) -> Result<(), OpenFailed> {
        let opened = self.open_target(&target);
        self.tally.asked = Some(Names {
            listen: None,
            target,
        });
        match opened {
            Ok(()) => {
                self.tally.links = self.tally.links.reached();
                Ok(())
            }
            Err(_) => Err(self.refuse()),
        }
    }

    fn next(&mut self, buffer: &mut [u8]) -> Happening
        requires room { length buffer.old ≡ 65536 }
        requires some_open { HasOpen (told_by self.old.tally) }
        ensures hears { Hears (told_by self.old.tally) (told_by self.new.tally) buffer.new result }
        ensures turn { GivesTurn self.new.turn result }
        ensures in_turn { InTurn self.old.turn (told_by self.old.tally) (told_by self.new.tally) result }
    {
        self.tally.waits = raise(self.tally.waits);
        let happening = self.wait(buffer);
        if happening != Happening::Quiet {
            self.tally.links = self.tally.links.after(happening);
        }
        happening
    }

    fn send(&mut self, side: Side, bytes: &[u8]) -> Result<(), SendFailed>
        requires is_open { IsOpen side (told_by self.old.tally) }
        requires some_bytes { 0 < length bytes.now }
        ensures ok { OnOk result (Sends (told_by self.old.tally) (told_by self.new.tally) side bytes.now) }
        ensures err { OnErr result (FailsToSend (told_by self.old.tally) (told_by self.new.tally) side bytes.now) }
        ensures turn { self.new.turn ≡ self.old.turn }
    {
        let sent = match side {
            Side::Client => self.send_client(bytes),
            Side::Target => self.send_target(bytes),
        };
        if sent {
            return Ok(());
        }
        self.tally.links = self.tally.links.after(Happening::Failed(side));
        Err(SendFailed)
    }

    ghost stays_so = { λ w. record {} };

    ghost stays_on = { λ u v w a b. record {} };
}
