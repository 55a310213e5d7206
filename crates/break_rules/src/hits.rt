//! Texts read as hit conditions.
ghost use Rattle.std.specs.Prelude.{◌≡◌};
ghost use Rattle.break_rules.specs.Parsing.{count_of, counted, hit_of, or_outside};

use crate::fronts::{core_of, digits_in, is_short, sign_in, skip_blanks};
use crate::rule::{Hit, HitRule, RuleFault};
use wire_core::Text;

// The most digits of a count.
const MOST_DIGITS: usize = 10;

// How rules of counts are written, a sign before those that it begins.
const COUNT_RULES: [(&str, HitRule); 6] = [
    ("==", HitRule::Equal),
    (">=", HitRule::AtLeast),
    (">", HitRule::Above),
    ("<=", HitRule::AtMost),
    ("<", HitRule::Below),
    ("%", HitRule::Multiple),
];

// A hit condition of this count, if it is from 1 to 2^31 - 1.
fn counted(rule: HitRule, count: u64) -> Option<Hit>
    ensures { result ≡ counted rule count }
{
    if 0 < count && count < 1 << 31 {
        Some(Hit {
            rule,
            count: count as u32,
        })
    } else {
        None
    }
}

// The hit condition that a text of any length is.
fn hit_in(text: &str) -> Option<Hit>
    ensures { result ≡ count_of text.now }
{
    let (rule, rest) = match sign_in(&COUNT_RULES, skip_blanks(text)) {
        Some(found) => found,
        None => (HitRule::Equal, text),
    };
    counted(rule, digits_in(MOST_DIGITS, core_of(rest.as_bytes()))?)
}

/// The hit condition that a text is: `==`, `>=`, `>`, `<=`, `<` or `%`, or nothing, which means `==`, and 1 to 10 digits
/// of a number from 1 to 2^31 - 1, between spaces and tabs (DAP specification, Types, SourceBreakpoint, hitCondition).
/// `Outside` comes exactly where a text is none, or is longer than 4,096 bytes; `NoMemory` never comes.
#[tactic(auto, unfolding(crate::specs::Parsing::hit_of))]
pub fn parse_hit(text: &Text) -> Result<Hit, RuleFault>
    ensures { result ≡ or_outside (hit_of text.now) }
{
    let whole = text.as_str();
    if !is_short(whole) {
        return Err(RuleFault::Outside);
    }
    match hit_in(whole) {
        Some(hit) => Ok(hit),
        None => Err(RuleFault::Outside),
    }
}
