//! Outcomes of runs, each with its status and the line that is printed: tests and nothing else. A crate with tests is
//! proved a second time with them, so the crate below has none of its own.
#![tactic(auto)]

#[cfg(test)]
mod lines;
