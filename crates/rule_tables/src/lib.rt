//! A table of the rules of breakpoints: conditions, hit conditions and messages to log, and how often each was passed.
#![tactic(auto)]

mod rules;
mod texts;

pub use rules::RuleTable;
pub use texts::{ReadRules, Said, read_rules};
