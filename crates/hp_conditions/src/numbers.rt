//! Numbers in conditions.
ghost use Rattle.std.specs.Prelude.{◌≡◌};
ghost use Rattle.hp_conditions.specs.Numbers.{counted_at, digits_at, number_at};

use hp_text::after_word;

/// The number of 32 bits that some digits are.
#[tactic(auto, unfolding(crate::specs::Numbers::digits_at, crate::specs::Numbers::digits_from))]
fn digits_at(text: &[u8]) -> Option<u32>
    ensures { result ≡ digits_at text.now }
{
    if text.is_empty() {
        return None;
    }
    let mut value: u32 = 0;
    let mut rest = text;
    while let [digit, after @ ..] = rest {
        if !digit.is_ascii_digit() {
            return None;
        }
        value = value
            .checked_mul(10)?
            .checked_add(u32::from(*digit - b'0'))?;
        rest = after;
    }
    Some(value)
}

/// The number of 32 bits that the text is, in digits. Zeros and a plus may stand at its front.
#[tactic(auto, unfolding(crate::specs::Numbers::number_at))]
pub(crate) fn number_at(text: &[u8]) -> Option<u32>
    ensures { result ≡ number_at text.now }
{
    match after_word(b"+", text) {
        Some(digits) => digits_at(digits),
        None => digits_at(text),
    }
}

/// The same, of tasks and calls: these count from 1.
#[tactic(auto, unfolding(crate::specs::Numbers::counted_at))]
pub(crate) fn counted_at(text: &[u8]) -> Option<u32>
    ensures { result ≡ counted_at text.now }
{
    let number = number_at(text)?;
    if number == 0 {
        return None;
    }
    Some(number)
}
