ghost use Rattle.std.specs.Prelude.{◌≡◌, ◌≤◌, true};
ghost use Rattle.wire_core.specs.declared.outside.Side.TheVariants.{Client, Target};
ghost use Rattle.wire_core.specs.Links.{raised, told, open_link, shut_link, failed_link, empty_link, link_after, link_asked};
ghost use Rattle.wire_core.specs.Links.{is_open_in, first_open, IsFresh, CountsOpen, open_count};

use crate::outside::{Happening, Side};

/// The counts of one side's link, and whether it is open. A count stands still at its last value.
#[derive(Clone, Copy, Debug, PartialEq, Eq)]
pub struct Link {
    faults: u64,
    empties: u64,
    is_open: bool,
}

/// The links of both sides.
#[derive(Clone, Copy, Debug, PartialEq, Eq)]
pub struct Links {
    client: Link,
    target: Link,
}

/// One more, or the last value.
pub fn raise(count: u64) -> u64
    ensures { result ≡ raised count }
{
    if count == u64::MAX {
        u64::MAX
    } else {
        count + 1
    }
}

impl Link {
    fn shut(self) -> Link
        ensures { told result ≡ shut_link (told self) }
    {
        Link {
            is_open: false,
            ..self
        }
    }

    fn failed(self) -> Link
        ensures { told result ≡ failed_link (told self) }
    {
        Link {
            faults: raise(self.faults),
            is_open: false,
            ..self
        }
    }

    fn empty(self) -> Link
        ensures { told result ≡ empty_link (told self) }
    {
        Link {
            empties: raise(self.empties),
            ..self
        }
    }
}

impl Links {
    /// Links of which nothing was asked yet.
    pub fn new(is_open: bool) -> Links
        ensures { IsFresh result is_open }
    {
        let link = Link {
            faults: 0,
            empties: 0,
            is_open,
        };
        Links {
            client: link,
            target: link,
        }
    }

    /// The links with both sides open.
    pub fn opened(self) -> Links
        ensures client { told result.client ≡ open_link (told self.client) }
        ensures target { told result.target ≡ open_link (told self.target) }
    {
        Links {
            client: Link {
                is_open: true,
                ..self.client
            },
            target: Link {
                is_open: true,
                ..self.target
            },
        }
    }

    /// The links with the target's side open and the client's shut.
    pub fn reached(self) -> Links
        ensures client { told result.client ≡ shut_link (told self.client) }
        ensures target { told result.target ≡ open_link (told self.target) }
        ensures count { is_open_in self Target ≡ true → open_count result ≤ open_count self }
    {
        Links {
            client: self.client.shut(),
            target: Link {
                is_open: true,
                ..self.target
            },
        }
    }

    /// Whether a side is open.
    pub fn is_open(self, side: Side) -> bool
        ensures { result ≡ is_open_in self side }
    {
        match side {
            Side::Client => self.client.is_open,
            Side::Target => self.target.is_open,
        }
    }

    /// The client where it is open, else the target.
    pub fn first(self) -> Side
        ensures { result ≡ first_open self }
    {
        if self.client.is_open {
            Side::Client
        } else {
            Side::Target
        }
    }

    /// How many sides are open.
    pub fn open_count(self) -> usize
        ensures { result ≡ open_count self }
    {
        usize::from(self.client.is_open) + usize::from(self.target.is_open)
    }

    /// The links after a side was asked and had nothing.
    pub fn asked_in_vain(self, side: Side) -> Links
        ensures client { told result.client ≡ link_asked Client side (told self.client) }
        ensures target { told result.target ≡ link_asked Target side (told self.target) }
    {
        match side {
            Side::Client => Links {
                client: self.client.empty(),
                ..self
            },
            Side::Target => Links {
                target: self.target.empty(),
                ..self
            },
        }
    }

    /// The links after a happening.
    pub fn after(self, happening: Happening) -> Links
        ensures client { told result.client ≡ link_after Client happening (told self.client) }
        ensures target { told result.target ≡ link_after Target happening (told self.target) }
        ensures count { CountsOpen happening self result }
    {
        match happening {
            Happening::Bytes(_, _) => self,
            Happening::Shut(Side::Client) => Links {
                client: self.client.shut(),
                ..self
            },
            Happening::Shut(Side::Target) => Links {
                target: self.target.shut(),
                ..self
            },
            Happening::Failed(Side::Client) => Links {
                client: self.client.failed(),
                ..self
            },
            Happening::Failed(Side::Target) => Links {
                target: self.target.failed(),
                ..self
            },
            Happening::Quiet => Links {
                client: self.client.empty(),
                target: self.target.empty(),
            },
        }
    }
}
