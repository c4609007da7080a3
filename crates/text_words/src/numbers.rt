//! A number in digits alone at the front of a line, cut off and valued in one pass over its bytes.

ghost use Rattle.std.specs.Prelude.{◌≡◌, ◌↔◌, ◌∷◌, ◌++◌, [], IsTrue, MatchOption, IfSome, IfNone};
ghost use Rattle.text_words.specs.Lines.{words_of};
ghost use Rattle.text_words.specs.Cuts.{IsCut, IsBroken, IsPastBlanks, front_of};
ghost use Rattle.text_words.specs.Numbers.{digits_of, past_digits};
ghost use Rattle.text_words.specs.ThreeNumbers.{IsNumber, IsSmallNumber, BeginSmall};

use crate::digit_runs::digits;
use crate::words::is_blank;

/// Numbers below this, 10^9, are taken at once.
const SMALL_END: u64 = 1_000_000_000;

/// The number in the first word of a line, that word, and what follows it. `None` where there is no word, or it is not
/// digits alone, or the number is not below 10^9.
#[inline(always)]
pub(crate) fn first_number(line: &[u8]) -> Option<(u32, &[u8], &[u8])>
    ensures number { IfSome result (λ parts. IsNumber parts.1.now parts.0) }
    ensures words { IfSome result (λ parts. words_of line.now ≡ parts.1.now ∷ words_of parts.2.now) }
    ensures none { IfNone result (BeginSmall 1 (words_of line.now) → ⊥) }
{
    cut_number(past_blanks(line))
}

/// The line without the blanks at its front.
#[inline(always)]
fn past_blanks(line: &[u8]) -> &[u8]
    ensures words { words_of result.now ≡ words_of line.now }
    ensures past { IsPastBlanks result.now }
{
    let mut rest = line;
    while let [b, more @ ..] = rest {
        if !is_blank(*b) {
            return rest;
        }
        rest = more;
    }
    rest
}

/// The number that digits at the front of a text write, their word, and what follows it. `None` where no digit stands
/// there, and where the number is not below 10^9.
#[inline(always)]
pub fn leading_number(text: &[u8]) -> Option<(u32, &[u8], &[u8])>
    ensures number { IfSome result (λ parts. IsNumber parts.1.now parts.0) }
    ensures whole { IfSome result (λ parts. text.now ≡ parts.1.now ++ parts.2.now) }
    ensures rest { IfSome result (λ parts. parts.2.now ≡ past_digits text.now) }
    ensures none { IfNone result (IsSmallNumber (digits_of text.now) → ⊥) }
{
    let (value, rest) = digits(0, text);
    if value >= SMALL_END {
        return None;
    }
    let count = text.len() - rest.len();
    if count == 0 {
        return None;
    }
    Some((value as u32, &text[..count], rest))
}

/// The number that a line begins with, its word, and what follows it, which begins with a blank where it is there.
#[inline(always)]
fn cut_number(line: &[u8]) -> Option<(u32, &[u8], &[u8])>
    ensures number { IfSome result (λ parts. IsNumber parts.1.now parts.0) }
    ensures cut { IfSome result (λ parts. IsCut line.now parts.1.now parts.2.now) }
    ensures none { IfNone result (IsSmallNumber (front_of line.now) → ⊥) }
{
    let Some((value, word, rest)) = leading_number(line) else {
        return None;
    };
    if !is_broken(rest) {
        return None;
    }
    Some((value, word, rest))
}

/// Whether a word ends before this: nothing follows, or a blank.
#[inline(always)]
fn is_broken(rest: &[u8]) -> bool
    ensures { IsTrue result ↔ IsBroken rest.now }
{
    match rest.first() {
        Some(b) => is_blank(*b),
        None => true,
    }
}

/// The number that a word writes, on the same terms.
pub(crate) fn number_of(word: &[u8]) -> Option<u32>
    ensures { MatchOption result (IsSmallNumber word.now → ⊥) (λ number. IsNumber word.now number) }
{
    let Some((number, _word, rest)) = cut_number(word) else {
        return None;
    };
    if !rest.is_empty() {
        return None;
    }
    Some(number)
}
