//! Expressions, rules, frames, packets and logs by rows of text: tests and nothing else. A crate with tests is proved a second
//! time with them, so the crates below have none of their own.
#![tactic(auto)]

#[cfg(test)]
mod exprs;
#[cfg(test)]
mod frame_feed;
#[cfg(test)]
mod frames;
#[cfg(test)]
mod packet_feed;
#[cfg(test)]
mod packets;
#[cfg(test)]
mod rows;
#[cfg(test)]
mod rules;
#[cfg(test)]
mod scripts;
