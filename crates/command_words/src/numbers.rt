//! Reads the number of a script.
ghost use Rattle.std.specs.Prelude.{◌≡◌, ◌≤◌, IfSome};
ghost use Rattle.command_words.specs.Numbers.{digit_behind, number_behind, number_in};

// The digits that a number has at most, and the greatest number.
const MOST_DIGITS: usize = 4;

const MOST: u32 = 1000;

/// The number that a text of 1 to 4 decimal digits is, where it is one from 1 to 1,000.
#[tactic(auto, unfolding(crate::specs::Numbers::number_in))]
pub(crate) fn number_in(text: &[u8]) -> Option<u32>
    ensures { result ≡ number_in text.now }
{
    if text.len() > MOST_DIGITS {
        return None;
    }
    match number_of(text)? {
        0 => None,
        number => Some(number),
    }
}

fn number_of(text: &[u8]) -> Option<u32>
    ensures { result ≡ number_behind 0 text.now }
{
    let mut number = 0;
    for byte in text {
        number = digit_behind(number, *byte)?;
    }
    Some(number)
}

// The number of a digit more, where it is at most 1,000.
fn digit_behind(number: u32, byte: u8) -> Option<u32>
    requires { number ≤ 1000 }
    ensures is { result ≡ digit_behind number byte }
    ensures few { IfSome result (λ next. next ≤ 1000) }
{
    if 48 <= byte && byte <= 57 {
        let next = number * 10 + u32::from(byte - 48);
        if next <= MOST { Some(next) } else { None }
    } else {
        None
    }
}
