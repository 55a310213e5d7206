//! Rules of breakpoints: conditions, hit counts and log messages (DAP specification, Types, SourceBreakpoint).
#![tactic(auto)]

mod conditions;
mod fronts;
mod hits;
mod judging;
mod laws;
mod messages;
mod rendering;
mod rule;

pub use conditions::parse_condition;
pub use hits::parse_hit;
pub use judging::judge;
pub use laws::{
    a_condition_is_judged_just_where_it_can_be, a_condition_is_read_as_it_is_written,
    a_hit_condition_is_read_as_it_is_written, a_log_message_is_read_as_it_is_written,
    a_message_without_an_expression_logs_itself,
};
pub use messages::parse_log;
pub use rendering::render_log;
pub use rule::{Comparison, Condition, Hit, HitRule, Part, Piece, RuleFault, Seen, Template};
