//! The numbers of errors (JDWP, Constants, Error).

/// The thread isn't alive.
pub(crate) const INVALID_THREAD: u16 = 10;

/// There is no such object.
pub(crate) const INVALID_OBJECT: u16 = 20;

/// There is no such class.
pub(crate) const INVALID_CLASS: u16 = 21;

/// The world has nothing of the kind: what is asked for has another kind, or is not there.
pub(crate) const NOT_IMPLEMENTED: u16 = 99;

/// The class file doesn't say it.
pub(crate) const ABSENT_INFORMATION: u16 = 101;

/// The target has ended.
pub(crate) const VM_DEAD: u16 = 112;
