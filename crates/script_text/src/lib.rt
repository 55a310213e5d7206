//! Texts of session logs: what came in and went out of a session, line by line.
#![tactic(auto)]

mod laws;
mod log;
mod order;
mod print;
mod read;
mod rows;
mod spelled;

pub use laws::{
    a_log_that_was_read_keeps_the_order, a_printed_log_is_read_again,
    an_old_text_is_read_as_its_log,
};
pub use log::{ScriptFault, ScriptTrouble, SessionLog};
pub use print::{add_line, print_log};
pub use read::{LineTrouble, read_log};
pub use run_logs::Run;
