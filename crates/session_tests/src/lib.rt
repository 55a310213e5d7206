//! Sessions over wires in memory, byte for byte, whose faults, limits and cut sends no log tells: tests and nothing
//! else. A crate with tests is proved a second time with them, so the large crates below have none of their own.
#![tactic(auto)]

#[cfg(test)]
mod courses;
#[cfg(test)]
mod faults;
#[cfg(test)]
mod keys;
#[cfg(test)]
mod limits;
#[cfg(test)]
mod links;
#[cfg(test)]
mod messages;
#[cfg(test)]
mod records;
#[cfg(test)]
mod sends;
#[cfg(test)]
mod stages;
