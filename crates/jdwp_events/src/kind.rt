ghost use Rattle.std.specs.Prelude.{◌≡◌};
ghost use Rattle.jdwp_events.specs.Kinds.{byte_of_kind, kind_of_byte, byte_of_policy, policy_of_byte};

/// Which threads an event suspends (JDWP, Constants, SuspendPolicy): none, the one of the event, or all.
#[derive(Clone, Copy, Debug, PartialEq, Eq, PartialOrd, Ord)]
pub enum Policy {
    NoThread,
    EventThread,
    All,
}

impl Policy {
    /// The policy of a byte; None exactly where it is above 2.
    pub fn from_byte(byte: u8) -> Option<Policy>
        ensures { result ≡ policy_of_byte byte }
    {
        match byte {
            0 => Some(Policy::NoThread),
            1 => Some(Policy::EventThread),
            2 => Some(Policy::All),
            _ => None,
        }
    }

    /// The policy's byte.
    pub fn byte(self) -> u8
        ensures { result ≡ byte_of_policy self }
    {
        match self {
            Policy::NoThread => 0,
            Policy::EventThread => 1,
            Policy::All => 2,
        }
    }
}

/// What happened in the target (JDWP, Constants, EventKind).
#[derive(Clone, Copy, Debug, PartialEq, Eq, PartialOrd, Ord)]
pub enum EventKind {
    SingleStep,
    Breakpoint,
    Exception,
    ThreadStart,
    ThreadDeath,
    ClassPrepare,
    VMStart,
    VMDeath,
}

impl EventKind {
    /// The kind of a byte; None exactly where it is no kind's byte.
    pub fn from_byte(byte: u8) -> Option<EventKind>
        ensures { result ≡ kind_of_byte byte }
    {
        match byte {
            1 => Some(EventKind::SingleStep),
            2 => Some(EventKind::Breakpoint),
            4 => Some(EventKind::Exception),
            6 => Some(EventKind::ThreadStart),
            7 => Some(EventKind::ThreadDeath),
            8 => Some(EventKind::ClassPrepare),
            90 => Some(EventKind::VMStart),
            99 => Some(EventKind::VMDeath),
            _ => None,
        }
    }

    /// The kind's byte.
    pub fn byte(self) -> u8
        ensures { result ≡ byte_of_kind self }
    {
        match self {
            EventKind::SingleStep => 1,
            EventKind::Breakpoint => 2,
            EventKind::Exception => 4,
            EventKind::ThreadStart => 6,
            EventKind::ThreadDeath => 7,
            EventKind::ClassPrepare => 8,
            EventKind::VMStart => 90,
            EventKind::VMDeath => 99,
        }
    }
}
