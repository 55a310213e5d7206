//! Numbers of things in stops, and how often a target is suspended: tests and nothing else. A crate with tests is proved a
//! second time with them, so the crates below have none of their own.
#![tactic(auto)]

#[cfg(test)]
mod ledgers;
#[cfg(test)]
mod numbers;
