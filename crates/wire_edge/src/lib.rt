//! The outside of a run as the system gives it: TCP streams, files on disk, the standard output.
#![tactic(auto)]

mod awaiting;
mod disk_files;
mod farewell;
mod std_output;
mod std_streams;
mod streams;
mod tcp_wires;
mod watch;

pub use disk_files::DiskFiles;
pub use std_output::{StdOutput, StdWriter, WriterOutput};
pub use std_streams::{StdStreams, StreamClosed};
pub use tcp_wires::TcpWires;
