//! Texts, lists, files and wires by rows of text: tests and nothing else. A crate with tests is proved a second time
//! with them, so the crates below have none of their own.
#![tactic(auto)]

#[cfg(test)]
mod disk;
#[cfg(test)]
mod edges;
#[cfg(test)]
mod files;
#[cfg(test)]
mod links;
#[cfg(test)]
mod lists;
#[cfg(test)]
mod rows;
#[cfg(test)]
mod running;
#[cfg(test)]
mod streams;
#[cfg(test)]
mod texts;
#[cfg(test)]
mod wires;
