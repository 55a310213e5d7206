//! Texts of scripts, as they are printed: each line in the order of its kind, and read again as the same script.
#![tactic(auto)]

mod laws;
mod print;

pub use laws::a_printed_script_is_read_again;
pub use print::print_script;
