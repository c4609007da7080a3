//! A decimal word, taken apart from left to right in one pass.

ghost use Rattle.std.specs.Prelude.{◌≡◌, ◌≤◌, ◌+◌, ◌⊎◌, true, false, length, min, nat_lt, IfSome, MatchOption};
ghost use Rattle.text_words.specs.Numbers.{value_after, starts_minus, digits_of, past_sign};
ghost use Rattle.decimals.specs.Decimals.{fraction_of, past_fraction, is_whole, is_ending, is_decimal, raised_by, lowered_by};
ghost use Rattle.decimals.specs.Rounding.{IsReadAs};

use crate::decimal::Decimal;
use crate::digits::digits;
use crate::limits::PAST_MOST_DIGITS;
use text_words::sign;

/// The parts of a decimal of any length, or `None` where the word is none.
#[inline(never)]
#[tactic(auto, using(crate::proofs::Words::no_digit, crate::proofs::Words::no_ending))]
pub fn long_parts(word: &[u8]) -> Option<Decimal>
    ensures { MatchOption result (is_decimal word.now ≡ false) (IsReadAs word.now) }
{
    let (minus, body) = sign(word);
    let (whole, before, behind) = digits(0, body);
    let (mantissa, places, end) = fraction(whole, behind);
    if !has_digit(before, places) {
        return None;
    }
    let (raised, lowered) = ending(end)?;
    Some(Decimal {
        minus,
        mantissa,
        places,
        raised,
        lowered,
    })
}

/// Whether a digit stands before the point or behind it.
pub fn has_digit(before: usize, behind: usize) -> bool
    ensures { result ≡ nat_lt 0 (before + behind) }
{
    before > 0 || behind > 0
}

/// The number with the digits behind a point added to it, how many they are, and what follows.
fn fraction(whole: u128, text: &[u8]) -> (u128, usize, &[u8])
    requires { whole ≤ PAST_MOST_DIGITS }
    ensures value { result.0 ≡ min (value_after whole (fraction_of text.now)) PAST_MOST_DIGITS }
    ensures count { result.1 ≡ length (fraction_of text.now) }
    ensures rest { result.2.now ≡ past_fraction text.now }
{
    match text.split_first() {
        Some((b'.', rest)) => digits(whole, rest),
        _ => (whole, 0, text),
    }
}

/// The powers of ten by which an ending raises and lowers, each cut off.
fn ending(text: &[u8]) -> Option<(u128, u128)>
    ensures tens { MatchOption result (is_ending text.now ≡ false) (λ tens. (is_ending text.now ≡ true)
        × (tens.0 ≡ min (raised_by text.now) PAST_MOST_DIGITS)
        × (tens.1 ≡ min (lowered_by text.now) PAST_MOST_DIGITS)) }
    ensures one { IfSome result (λ tens. (tens.0 ≡ 0) ⊎ (tens.1 ≡ 0)) }
{
    match text.split_first() {
        None => Some((0, 0)),
        Some((b'e' | b'E', tail)) => match exponent(tail) {
            None => None,
            Some((true, tens)) => Some((0, tens)),
            Some((false, tens)) => Some((tens, 0)),
        },
        Some(_) => None,
    }
}

/// The sign and the size of an exponent, cut off, where a text is one and nothing else.
fn exponent(text: &[u8]) -> Option<(bool, u128)>
    ensures { MatchOption result (is_whole (past_sign text.now) ≡ false) (λ tens. (is_whole (past_sign text.now) ≡ true)
        × (tens.0 ≡ starts_minus text.now)
        × (tens.1 ≡ min (value_after 0 (digits_of (past_sign text.now))) PAST_MOST_DIGITS)) }
{
    let (minus, body) = sign(text);
    let (tens, count, rest) = digits(0, body);
    if count == 0 || !rest.is_empty() {
        return None;
    }
    Some((minus, tens))
}
