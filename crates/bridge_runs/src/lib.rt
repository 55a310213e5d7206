//! A run of the program: what its words make it do, over wires, files and an output, what it prints, and its status.
#![tactic(auto)]

mod command;
mod dumping;
mod generate;
mod laws;
mod record;
mod replay;
mod script;
mod writing;

pub use command::bridge_main;
pub use laws::a_record_is_a_session;
