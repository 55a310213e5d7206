//! The translation machine: what a session does between its client and its target, message by message. It knows no
//! bytes of messages, no log and no ids of commands.
#![tactic(auto)]

mod acts;
mod items;
mod options;
mod parts;
mod texts;

pub use acts::{Act, Doing, Effect, Sent, TargetCommand, Want};
pub use items::{Item, Phase};
pub use options::ClientOptions;
pub use parts::{
    Body, Choice, Deed, Event, Finding, Finish, Guard, Halt, HaltCause, Judgement,
    ListedBreakpoint, Lookup, NamedThread, News, Note, Outcome, Part, RuleText, Ruled, Seen,
    ShownFrame, ShownVariable, Spot, StopCause, Stopping, Store, Strike, Suspension, Thrown, Write,
};
pub use texts::Texts;
