//! What reading and printing keep. Each law is a contract over all texts and expressions.
ghost use Rattle.std.specs.Prelude.{◌≡◌, ◌≢◌, ◌≤◌, List, ℕ, length, Result, MatchResult, Err};
ghost use Rattle.field_exprs.specs.declared.expr.Expr.{Expr};
ghost use Rattle.field_exprs.specs.declared.expr.ExprFault.{ExprFault};
ghost use Rattle.field_exprs.specs.declared.expr.ExprFault.TheVariants.{NoMemory as refused_memory};
ghost use Rattle.field_exprs.specs.Grammar.{IsExpr};
ghost use Rattle.field_exprs.specs.Parsing.{parsed, as_read};
ghost use Rattle.field_exprs.specs.Printing.{print};
ghost use Rattle.field_exprs.specs.Reading.{IsRead, longest_text};

/// No text is two expressions.
pub fn a_text_is_one_expression_at_most()
    ensures { (text : List ℕ) (one other : Expr) → IsExpr text one → IsExpr text other → one ≡ other }
{}

/// A text is read in one way, unless memory is refused: as its expression, or with one place at which it is refused.
pub fn a_text_is_read_in_one_way()
    ensures { (text : List ℕ) (one other : Result Expr ExprFault) → IsRead text one → IsRead text other
        → one ≢ Err refused_memory → other ≢ Err refused_memory → one ≡ other }
{}

/// What a text is parsed as, by the definition that is computed, is what it is read as by the grammar.
pub fn a_text_is_read_as_it_is_parsed()
    ensures { (text : List ℕ) → IsRead text (as_read (parsed text)) }
{}

/// What is printed of an expression that some text is, is that expression too and no longer than the text. So it is
/// read again as the expression where the text isn't too long, unless memory is refused.
pub fn a_printed_expression_is_read_again()
    ensures printed { (text : List ℕ) (e : Expr) → IsExpr text e
        → IsExpr (print e) e × (length (print e) ≤ length text) }
    ensures read { (text : List ℕ) (e : Expr) (result : Result Expr ExprFault) → IsExpr text e
        → length text ≤ longest_text → IsRead (print e) result
        → MatchResult result (λ other. other ≡ e) (λ fault. fault ≡ refused_memory) }
{}
