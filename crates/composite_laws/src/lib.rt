//! What becomes of each composite that suspends the whole target. It is definitions and laws, and no code.
#![tactic(auto)]

mod laws;

pub use laws::each_composite_is_dealt_with;
