//! A log whose waits in vain are counted: contracts see its entries, the code keeps runs of waits.
#![tactic(auto)]

mod laws;
mod putting;
mod run;
mod run_log;

pub use laws::{a_log_has_as_many_waits_as_its_runs, a_log_has_runs, runs_of_a_log_are_one};
pub use run::Run;
pub use run_log::RunLog;

#[cfg(test)]
mod tests;
