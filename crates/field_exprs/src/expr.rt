//! What an expression is made of.
use wire_core::{List, NoMemory, Text};

/// Where an expression begins: at the receiver of the frame's method, or at a name (Java Language Specification,
/// Expressions, "this" and Expression Names).
#[derive(Debug, Drop)]
pub enum Head {
    This,
    Name(Text),
}

/// A step of an expression, to a field of an object or to an element of an array, counted from 0 (Java Language
/// Specification, Expressions, Field Access Expressions and Array Access Expressions).
#[derive(Debug, Drop)]
pub enum Hop {
    Field(Text),
    Index(u32),
}

/// Where an expression begins, and the steps from there, in order.
#[derive(Debug, Drop)]
pub struct Expr {
    pub head: Head,
    pub steps: List<Hop>,
}

/// Why a text is no expression: memory was refused, or the text goes wrong at this byte, from 0.
#[derive(Clone, Copy, Debug, PartialEq, Eq)]
pub enum ExprFault {
    NoMemory,
    At(u32),
}

impl From<NoMemory> for ExprFault {
    ghost use Rattle.std.specs.Prelude.{◌≡◌};
    ghost use Rattle.field_exprs.specs.declared.expr.ExprFault.TheVariants.{NoMemory as refused_memory};

    ghost from_gives = { λ _ fault. fault ≡ refused_memory };

    fn from(_refused: NoMemory) -> ExprFault {
        ExprFault::NoMemory
    }
}
