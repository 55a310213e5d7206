//! Values as texts and what is known of classes by tables: tests and nothing else. A crate with tests is proved a second
//! time with them, so the crates of these have none of their own.
#![tactic(auto)]

#[cfg(test)]
mod classes;
#[cfg(test)]
mod quotes;
#[cfg(test)]
mod rows;
#[cfg(test)]
mod values;
#[cfg(test)]
mod writings;
