ghost use Rattle.std.specs.Prelude.{◌≡◌, ◌<◌, [], length, OnOk, OnErr, IsTrue, ◌⊎◌};
ghost use Rattle.wire_core.specs.Outside.{Outside, other_side, IsOpen, HasOpen, Connects, FailsToConnect, Reaches};
ghost use Rattle.wire_core.specs.Outside.{FailsToReach, Hears, Sends, FailsToSend};

use crate::list::Blob;
use crate::text::Text;

/// The two sides of a session: the client speaks DAP, the target speaks JDWP.
#[derive(Clone, Copy, Debug, PartialEq, Eq)]
pub enum Side {
    Client,
    Target,
}

impl Side {
    /// The other side.
    pub fn other(self) -> Side
        ensures { result ≡ other_side self }
    {
        match self {
            Side::Client => Side::Target,
            Side::Target => Side::Client,
        }
    }
}

/// What came from the outside: so many bytes of a side, which stand at the front of the buffer; the end of a side's
/// stream; the failure of a side's link; or nothing.
#[derive(Clone, Copy, Debug, PartialEq, Eq)]
pub enum Happening {
    Bytes(Side, usize),
    Shut(Side),
    Failed(Side),
    Quiet,
}

/// An entry of a log: bytes that came in or went out, the end or the failure of a side's link, or a wait in vain.
#[derive(Debug, Drop)]
pub enum Entry {
    In(Side, Blob),
    Out(Side, Blob),
    Shut(Side),
    Failed(Side),
    Quiet,
}

/// The links were not opened.
#[derive(Clone, Copy, Debug, PartialEq, Eq)]
pub struct OpenFailed;

/// A send was not done whole, and its side's link has failed.
#[derive(Clone, Copy, Debug, PartialEq, Eq)]
pub struct SendFailed;

/// The two byte streams that a session runs over. What a value tells of itself is its `outside`: the log, where it
/// keeps one, the counts of waits, of faults and of empty reads, which never fall, the sides that are open, and the names
/// that it was asked to open. What else holds between wires before some calls and the same wires behind them is their
/// relation `stays`; who calls them through this trait alone keeps it.
pub trait Wires {
    ghost outside: { Self → Outside };

    ghost stays: { Self → Self → Type 0 };

    /// Opens both sides: `target` is the address to connect to, `listen` the one to accept the client at. `OpenFailed`
    /// comes only where the count of such faults rose.
    fn connect(&mut self, listen: Text, target: Text) -> Result<(), OpenFailed>
        requires { (outside self.old).asked ≡ [] }
        ensures ok { OnOk result (Connects (outside self.old) (outside self.new) listen target) }
        ensures err { OnErr result (FailsToConnect (outside self.old) (outside self.new) listen target) }
        ensures stays { stays self.old self.new };

    /// Opens the target's side alone, to this address. No client is accepted: its side counts as shut, and nothing is
    /// logged. `OpenFailed` comes only where the count of such faults rose.
    fn reach(&mut self, target: Text) -> Result<(), OpenFailed>
        requires { (outside self.old).asked ≡ [] }
        ensures ok { OnOk result (Reaches (outside self.old) (outside self.new) target) }
        ensures err { OnErr result (FailsToReach (outside self.old) (outside self.new) target) }
        ensures stays { stays self.old self.new };

    /// Waits for what comes next; bytes stand at the front of the buffer.
    fn next(&mut self, buffer: &mut [u8]) -> Happening
        requires room { length buffer.old ≡ 65536 }
        requires some_open { HasOpen (outside self.old) }
        ensures hears { Hears (outside self.old) (outside self.new) buffer.new result }
        ensures stays { stays self.old self.new };

    /// Sends all bytes to a side, or fails, and the side is closed.
    fn send(&mut self, side: Side, bytes: &[u8]) -> Result<(), SendFailed>
        requires is_open { IsOpen side (outside self.old) }
        requires some_bytes { 0 < length bytes.now }
        ensures ok { OnOk result (Sends (outside self.old) (outside self.new) side bytes.now) }
        ensures err { OnErr result (FailsToSend (outside self.old) (outside self.new) side bytes.now) }
        ensures stays { stays self.old self.new };

    ghost stays_so: { (w : Self) → stays w w };

    ghost stays_on: { (u v w : Self) → stays u v → stays v w → stays u w };
}
