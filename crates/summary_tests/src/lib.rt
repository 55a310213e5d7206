//! Scripts of numbers, and summaries of logs: tests and nothing else. A crate with tests is proved a second time with
//! them, so the crates below have none of their own.
#![tactic(auto)]

#[cfg(test)]
mod scripts;
#[cfg(test)]
mod sums;
