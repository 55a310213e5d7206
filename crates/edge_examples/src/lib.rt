//! Worked examples at the edges of definitions that no law restates, checked by computation, and a law that two crates
//! take the same fields for static. It has no code.
#![tactic(auto)]

mod laws;

pub use laws::a_field_is_static_by_one_bit;
