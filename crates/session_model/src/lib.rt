//! The session relation: which logs of a run of the bridge say a run of the translation machine, and why it ended. It is
//! definitions, and no code.
#![tactic(auto)]
