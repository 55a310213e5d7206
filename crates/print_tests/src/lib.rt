//! Scripts that are printed: tests and nothing else. A crate with tests is proved a second time with them, so the crate
//! below has none of its own.
#![tactic(auto)]

#[cfg(test)]
mod prints;
