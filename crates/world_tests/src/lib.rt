//! Worlds of a few rows, what is asked of them and what they tell, and targets with such worlds, by rows of text: tests and
//! nothing else. A crate with tests is proved a second time with them, so `world_model` and `target_server` have none of
//! their own.
#![tactic(auto)]

#[cfg(test)]
mod captures;
#[cfg(test)]
mod commands;
#[cfg(test)]
mod courses;
#[cfg(test)]
mod moves;
#[cfg(test)]
mod rows;
#[cfg(test)]
mod targets;
#[cfg(test)]
mod worlds;
