//! The words of the program: which task they ask for, as `clap` reads them.
#![tactic(auto)]

mod forms;
mod numbers;
mod words;

pub use forms::usage;
pub use words::{Addresses, ScriptNumber, Task, WordsFault, read_words};
