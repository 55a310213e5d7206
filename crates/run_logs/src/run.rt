use wire_core::Entry;

/// A part of a log: one entry, or so many waits in vain, one behind the other.
#[derive(Debug, Drop)]
pub enum Run {
    One(Entry),
    Quiets(u64),
}
