//! The bodies of JDWP packets and their parts by tables: tests and nothing else. A crate with tests is proved a second
//! time with them, so the crates of values, events and commands have none of their own.
#![tactic(auto)]

#[cfg(test)]
mod bytes;
#[cfg(test)]
mod calls;
#[cfg(test)]
mod commands;
#[cfg(test)]
mod composites;
#[cfg(test)]
mod limits;
#[cfg(test)]
mod rows;
#[cfg(test)]
mod writers;
