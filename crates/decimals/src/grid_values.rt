//! Decimals as whole numbers of grid steps.

ghost use Rattle.std.specs.Prelude.{◌≡◌, ◌≤◌, ◌∷◌, ◌++◌, IfSome, Ok};
ghost use Rattle.text_words.specs.PlainLines.{IsPlainWord};
ghost use Rattle.decimals.specs.Values.{grid_of};

use crate::fault::NumberFault;
use crate::limits::PAST_MOST_DIGITS;
use crate::parts::long_parts;
use crate::rounding::{grid_steps, short_steps};
use crate::short::{short_front, short_parts};

/// The grid value of a decimal word: the whole number of grid steps nearest to it, with `unit` steps to one, exactly.
///
/// A decimal is an optional `+` or `-`, digits, optionally a `.` and digits, and optionally `e` or `E` with an optional
/// sign and digits; at least one digit stands before the exponent. A half goes up, for negative numbers too. The answer
/// is brought into minus `GREATEST` to `GREATEST`. It takes no memory, and an exponent may have any length.
pub fn grid(word: &[u8], unit: u32) -> Result<i64, NumberFault>
    ensures { result ≡ grid_of unit word.now }
{
    if let Some(decimal) = short_parts(word) {
        return Ok(short_steps(&decimal, unit));
    }
    let Some(decimal) = long_parts(word) else {
        return Err(NumberFault::NotANumber);
    };
    if decimal.mantissa >= PAST_MOST_DIGITS {
        return Err(NumberFault::TooLong);
    }
    Ok(grid_steps(&decimal, unit))
}

/// The grid value of the decimal that a text begins with, its word, and what follows the byte `stop` right behind it,
/// in one pass. `None` says nothing of the text: most decimals have an answer, but those with an exponent or with many
/// digits have none.
#[inline(always)]
pub fn grid_before(stop: u8, text: &[u8], unit: u32) -> Option<(i64, &[u8], &[u8])>
    requires { stop ≤ 32 }
    ensures value { IfSome result (λ parts. grid_of unit parts.1.now ≡ Ok parts.0) }
    ensures whole { IfSome result (λ parts. text.now ≡ parts.1.now ++ stop ∷ parts.2.now) }
    ensures plain { IfSome result (λ parts. IsPlainWord parts.1.now) }
{
    let Some((decimal, rest)) = short_front(text) else {
        return None;
    };
    let [b, behind @ ..] = rest else {
        return None;
    };
    if *b != stop {
        return None;
    }
    let word = &text[..text.len() - rest.len()];
    Some((short_steps(&decimal, unit), word, behind))
}
