//! Hits that are judged without a question: tests and nothing else. A crate with tests is proved a second time with them,
//! so the crates of these have none of their own.
#![tactic(auto)]

#[cfg(test)]
mod hits;
