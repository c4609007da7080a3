//! Decimals as nearly all files write them: their digits fit 64 bits, and no exponent follows.

ghost use Rattle.std.specs.Prelude.{◌≡◌, ◌<◌, [], IfSome, length};
ghost use Rattle.text_words.specs.Numbers.{value_after};
ghost use Rattle.decimals.specs.Decimals.{fraction_of, past_fraction};
ghost use Rattle.decimals.specs.Rounding.{IsFront};

use crate::decimal::Decimal;
use crate::limits::FEW;
use crate::parts::has_digit;
use text_words::{digits, sign};

/// The parts of a short decimal. `None` says nothing of the word.
pub fn short_parts(word: &[u8]) -> Option<Decimal>
    ensures { IfSome result (λ decimal. IsFront word.now decimal []) }
{
    let (decimal, rest) = short_front(word)?;
    if !rest.is_empty() {
        return None;
    }
    Some(decimal)
}

/// The parts of the short decimal that a text begins with, and what follows it. `None` says nothing of the text.
#[inline(always)]
pub fn short_front(text: &[u8]) -> Option<(Decimal, &[u8])>
    ensures { IfSome result (λ r. IsFront text.now r.0 r.1.now) }
{
    let (minus, body) = sign(text);
    let (whole, behind) = digits(0, body);
    if whole >= FEW {
        return None;
    }
    let (mantissa, places, rest) = short_fraction(whole, behind)?;
    if !has_digit(body.len() - behind.len(), places) {
        return None;
    }
    let decimal = Decimal {
        minus,
        mantissa: u128::from(mantissa),
        places,
        raised: 0,
        lowered: 0,
    };
    Some((decimal, rest))
}

/// The number with the digits behind a point added to it, how many they are, and what follows.
#[inline(always)]
fn short_fraction(whole: u64, text: &[u8]) -> Option<(u64, usize, &[u8])>
    requires { whole < FEW }
    ensures value { IfSome result (λ r. r.0 ≡ value_after whole (fraction_of text.now)) }
    ensures count { IfSome result (λ r. r.1 ≡ length (fraction_of text.now)) }
    ensures rest { IfSome result (λ r. r.2.now ≡ past_fraction text.now) }
    ensures few { IfSome result (λ r. r.0 < FEW) }
{
    match text.split_first() {
        Some((b'.', behind)) => {
            let (value, rest) = digits(whole, behind);
            if value >= FEW {
                return None;
            }
            Some((value, behind.len() - rest.len(), rest))
        }
        _ => Some((whole, 0, text)),
    }
}
