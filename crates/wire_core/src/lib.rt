//! What the crates of the bridge share: texts, lists, and the outside that a session speaks to.
#![tactic(auto)]

mod files;
mod links;
mod list;
mod log;
mod memory;
mod memory_files;
mod memory_output;
mod memory_wires;
mod names;
mod output;
mod outside;
mod script;
mod stream;
mod text;

pub use files::{FileRefusal, Files};
pub use links::{Link, Links, raise};
pub use list::{Blob, List};
pub use log::Log;
pub use memory::NoMemory;
pub use memory_files::MemoryFiles;
pub use memory_output::MemoryOutput;
pub use memory_wires::MemoryWires;
pub use names::Names;
pub use output::{OutRefusal, Output};
pub use outside::{Entry, Happening, OpenFailed, SendFailed, Side, Wires};
pub use script::{Cut, Step};
pub use stream::StreamBuffer;
pub use text::{Text, TextFault, Word};
