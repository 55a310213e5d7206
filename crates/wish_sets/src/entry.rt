//! What a client lists to stop at, and how each entry stands.

use wire_core::Text;

/// A breakpoint of a source, at a line that is counted from 1; one that isn't plain is never bound (DAP specification,
/// SourceBreakpoint).
#[derive(Clone, Copy, PartialEq, Eq)]
pub struct LineEntry {
    pub id: u64,
    pub line: i32,
    pub plain: bool,
}

/// A function to stop in, by the name of its class, a dot and the name of a method; one that isn't plain is never bound
/// (DAP specification, FunctionBreakpoint).
#[derive(Drop)]
pub struct FunctionEntry {
    pub id: u64,
    pub name: Text,
    pub plain: bool,
}

/// How an entry stands: one of its locations is installed, else one of them was refused, else neither (DAP
/// specification, Breakpoint, verified).
#[derive(Clone, Copy, PartialEq, Eq)]
pub enum EntryState {
    Verified,
    Refused,
    Waiting,
}

/// An entry that is verified: its id, and its line where it is a breakpoint of a source (DAP specification, Types,
/// Breakpoint, verified).
#[derive(Clone, Copy, PartialEq, Eq)]
pub struct VerifiedEntry {
    pub id: u64,
    pub line: Option<i32>,
}

/// An entry that has a location: its id, and whether it is one of a source's lines and not a function (DAP
/// specification, Events, Stopped, reason and hitBreakpointIds).
#[derive(Clone, Copy, PartialEq, Eq)]
pub struct EntryAt {
    pub id: u64,
    pub line: bool,
}
