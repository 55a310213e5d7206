//! Which breakpoints are passed, what they log, and which of them stop a thread, by the replies (DAP specification,
//! Types, SourceBreakpoint, condition, hitCondition and logMessage).
#![tactic(auto)]

mod conditions;
mod counts;
mod failures;
mod frames;
mod hits;
mod messages;
mod passes;
mod paths;
mod rules;
mod shown;

pub use hits::hits_need;
