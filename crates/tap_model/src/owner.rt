//! Whose a command is that a tap sent to the target.

/// Whose a command is that was sent to the target: the debugger's, under this id of its own, and whether it lets the
/// target go (JDWP, VirtualMachine command set, Dispose and Exit); the tap's, for the sizes of ids (JDWP,
/// VirtualMachine command set, IDSizes); or the tap's, for the question of this number, from 0.
#[derive(Clone, Copy, Debug, PartialEq, Eq)]
pub enum Owner {
    Debugger { id: u32, leaves: bool },
    Sizes,
    Question(usize),
}
