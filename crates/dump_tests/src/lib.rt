//! Dumps over wires in memory, and their client alone: tests and nothing else. A crate with tests is proved a second time
//! with them, so the crates below have none of their own.
#![tactic(auto)]

#[cfg(test)]
mod clients;
#[cfg(test)]
mod played;
#[cfg(test)]
mod targets;
