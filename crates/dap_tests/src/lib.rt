//! Messages of the Debug Adapter Protocol, text by text: tests and nothing else. A crate with tests is proved a second
//! time with them, so the crate of the messages has none of its own.
#![tactic(auto)]

#[cfg(test)]
mod reads;
#[cfg(test)]
mod rows;
#[cfg(test)]
mod tellings;
