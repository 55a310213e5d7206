//! Wishes and event requests by tables: tests and nothing else. A crate with tests is proved a second time with them,
//! so `wish_sets` has none of its own.
#![tactic(auto)]

#[cfg(test)]
mod courses;
#[cfg(test)]
mod requests;
#[cfg(test)]
mod wishes;
