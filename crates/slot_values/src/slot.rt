//! A slot, and its value.

use jdwp_values::Value;

/// A slot of a frame, with the value of the variable that lies there (JDWP, StackFrame command set, GetValues).
#[derive(Clone, Copy, Debug, PartialEq, Eq)]
pub struct SlotValue {
    pub slot: i32,
    pub value: Value,
}
