//! Whole numbers.

ghost use Rattle.std.specs.Prelude.{◌≡◌};
ghost use Rattle.decimals.specs.Values.{whole_of};

use crate::digits::digits;
use crate::fault::NumberFault;
use crate::limits::{GREATEST, PAST_MOST_DIGITS};

/// The value of a word of digits, at least one and nothing else, or `GREATEST` where the value is greater.
pub fn whole(word: &[u8]) -> Result<u64, NumberFault>
    ensures { result ≡ whole_of word.now }
{
    let (value, count, rest) = digits(0, word);
    if count == 0 || !rest.is_empty() {
        return Err(NumberFault::NotANumber);
    }
    if value >= PAST_MOST_DIGITS {
        return Err(NumberFault::TooLong);
    }
    Ok(value.min(u128::from(GREATEST)) as u64)
}
