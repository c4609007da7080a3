//! Runs of digits. A number grows in 64 bits as long as it can, which nearly all do, and in 128 bits from there on.

ghost use Rattle.std.specs.Prelude.{◌≡◌, ◌≤◌, length, min};
ghost use Rattle.text_words.specs.Numbers.{is_digit, value_after, digits_of, past_digits};

use crate::limits::{FEW, PAST_MOST_DIGITS};
use text_words::is_digit;

/// The number that the digits at the front write behind those of `before`, cut off; how many they are; what follows.
#[tactic(auto, using(crate::proofs::Runs::digits_within, crate::proofs::Runs::digits_count))]
pub fn digits(before: u128, text: &[u8]) -> (u128, usize, &[u8])
    requires { before ≤ PAST_MOST_DIGITS }
    ensures value { result.0 ≡ min (value_after before (digits_of text.now)) PAST_MOST_DIGITS }
    ensures count { result.1 ≡ length (digits_of text.now) }
    ensures rest { result.2.now ≡ past_digits text.now }
{
    let (value, rest) = if before < u128::from(FEW) {
        let (few, more) = text_words::digits(before as u64, text);
        many_digits(u128::from(few), more)
    } else {
        many_digits(before, text)
    };
    (value, text.len() - rest.len(), rest)
}

/// The digits at the front behind those of `before`, cut off, and what follows them.
#[tactic(auto, using(crate::proofs::Runs::one_more))]
fn many_digits(before: u128, text: &[u8]) -> (u128, &[u8])
    requires { before ≤ PAST_MOST_DIGITS }
    ensures value { result.0 ≡ min (value_after before (digits_of text.now)) PAST_MOST_DIGITS }
    ensures rest { result.1.now ≡ past_digits text.now }
{
    let mut value = before;
    for (at, b) in text.iter().enumerate() {
        if !is_digit(*b) {
            return (value, &text[at..]);
        }
        value = (value * 10 + u128::from(*b - b'0')).min(PAST_MOST_DIGITS);
    }
    (value, &text[text.len()..])
}
