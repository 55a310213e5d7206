//! Expressions of fields and elements: the texts that a client evaluates, read and printed.
#![tactic(auto)]

mod bytes;
mod expr;
mod front;
mod laws;
mod printing;
mod reading;
mod steps;
mod stuck;

pub use expr::{Expr, ExprFault, Head, Hop};
pub use laws::{
    a_printed_expression_is_read_again, a_text_is_one_expression_at_most,
    a_text_is_read_as_it_is_parsed, a_text_is_read_in_one_way,
};
pub use printing::print;
pub use reading::parse;
