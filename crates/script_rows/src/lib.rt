//! The lines of a scripted target's script, as typed rows.
#![tactic(auto)]

mod kinds;
mod laws;
mod move_rows;
mod read;
mod rows;
mod script;
mod world_rows;

pub use laws::{a_printed_row_has_no_float, a_printed_row_is_read_again};
pub use read::read_row;
pub use rows::Row;
pub use script::{Begin, Script, Turn};
