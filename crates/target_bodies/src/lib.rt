//! What the bodies of the target's packets say, an answer's and a composite's, or how they end a session.
#![tactic(auto)]

mod hearing;

pub use hearing::{answer, bad_body, composite, target_refused};
