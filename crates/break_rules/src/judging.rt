//! What a condition comes to by the values of its sides, and at which counts a hit condition is met.
ghost use Rattle.std.specs.Prelude.{◌≡◌};
ghost use Rattle.break_rules.specs.Judging.{compared, is_met, is_multiple, judged, of_equals, of_numbers};

use crate::rule::{Comparison, Hit, HitRule, Seen};

/// What a condition comes to by what its sides are seen as. None comes exactly where it can't be judged: where one side
/// alone is no truth value, where two sides aren't both numbers, both truth values or both references, or where an order
/// is asked of anything but numbers (Java Language Specification, Expressions, Relational Operators and Equality
/// Operators).
pub fn judge(left: Seen, rest: Option<(Comparison, Seen)>) -> Option<bool>
    ensures { result ≡ judged left rest }
{
    match rest {
        Some((comparison, right)) => compared(comparison, left, right),
        None => match left {
            Seen::Truth(is) => Some(is),
            _ => None,
        },
    }
}

fn compared(comparison: Comparison, left: Seen, right: Seen) -> Option<bool>
    ensures { result ≡ compared comparison left right }
{
    match (left, right) {
        (Seen::Number(a), Seen::Number(b)) => Some(of_numbers(comparison, a, b)),
        (Seen::Truth(a), Seen::Truth(b)) => of_equals(comparison, a == b),
        (Seen::Reference(a), Seen::Reference(b)) => of_equals(comparison, a == b),
        _ => None,
    }
}

fn of_numbers(comparison: Comparison, a: i64, b: i64) -> bool
    ensures { result ≡ of_numbers comparison a b }
{
    match comparison {
        Comparison::Equal => a == b,
        Comparison::Unequal => a != b,
        Comparison::Less => a < b,
        Comparison::LessEqual => a <= b,
        Comparison::Greater => a > b,
        Comparison::GreaterEqual => a >= b,
    }
}

fn of_equals(comparison: Comparison, same: bool) -> Option<bool>
    ensures { result ≡ of_equals comparison same }
{
    match comparison {
        Comparison::Equal => Some(same),
        Comparison::Unequal => Some(!same),
        _ => None,
    }
}

impl Hit {
    /// Whether a hit condition is met at this count of hits (DAP specification, Types, SourceBreakpoint, hitCondition).
    pub fn meets(&self, hits: u64) -> bool
        ensures { result ≡ is_met self.now hits }
    {
        let count = u64::from(self.count);
        match self.rule {
            HitRule::Equal => hits == count,
            HitRule::AtLeast => hits >= count,
            HitRule::Above => hits > count,
            HitRule::AtMost => hits <= count,
            HitRule::Below => hits < count,
            HitRule::Multiple => is_multiple(hits, count),
        }
    }
}

fn is_multiple(hits: u64, count: u64) -> bool
    ensures { result ≡ is_multiple hits count }
{
    count != 0 && hits % count == 0
}
