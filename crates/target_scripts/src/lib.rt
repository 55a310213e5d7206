//! A script of a target: its rows, put together line by line, and the first line that is at fault.
#![tactic(auto)]

mod adding;
mod building;
mod chains;
mod judging;
mod laws;

pub use adding::{begun, grow};
pub use building::{Building, RowTrouble};
pub use chains::chain_fault;
pub use laws::{
    a_script_stays_sound_as_it_grows, a_script_without_a_fault_is_fit_for_a_target,
    what_no_target_tells_is_no_row,
};
