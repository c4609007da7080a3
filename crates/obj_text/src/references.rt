//! References of an `f` line: a number, and up to two parts behind it that are not used.

ghost use Rattle.std.specs.Prelude.{◌≡◌, ◌<◌, ◌≤◌, true, false, min, MatchOption, IsTrue};
ghost use Rattle.text_words.specs.Lines.{is_word};
ghost use Rattle.text_words.specs.Numbers.{is_digit, value_after, starts_minus, digits_of, past_digits, past_sign};
ghost use Rattle.obj_text.specs.Rows.{has_part, past_part, at_most_one_part, at_most_two_parts, is_reference, position, position_of};

use crate::fault::Why;
use crate::limits::GREATEST_NUMBER;
use crate::vertex_count::VertexCount;
use text_words::{digits, is_digit, past_digits, sign};

/// The position of the vertex that a word names, in a text with so many vertices, of which so many stand before its
/// line.
pub fn position(word: &[u8], vertices: &mut VertexCount, before: u32) -> Result<u32, Why>
    requires vertices { vertices.old < GREATEST_NUMBER }
    requires before { before ≤ vertices.old }
    ensures position { result ≡ position_of vertices.old before word.now }
    ensures same { vertices.new ≡ vertices.old }
{
    let Some((minus, number)) = reference(word) else {
        return Err(Why::BadReference);
    };
    if minus {
        from_here(number, before)
    } else {
        from_start(number, vertices, before)
    }
}

/// The position of the vertex that a number without a sign names.
pub fn from_start(number: u32, vertices: &mut VertexCount, before: u32) -> Result<u32, Why>
    requires { before ≤ vertices.old }
    ensures position { result ≡ position vertices.old 0 false number }
    ensures same { vertices.new ≡ vertices.old }
{
    if number == 0 {
        return Err(Why::NoSuchVertex);
    }
    if number > before && number > vertices.get() {
        return Err(Why::NoSuchVertex);
    }
    Ok(number - 1)
}

fn from_here(number: u32, before: u32) -> Result<u32, Why>
    ensures { result ≡ position 0 before true number }
{
    if number == 0 || number > before {
        return Err(Why::NoSuchVertex);
    }
    Ok(before - number)
}

/// Whether a reference's number has a minus, and its size, cut off.
fn reference(word: &[u8]) -> Option<(bool, u32)>
    ensures { MatchOption result (is_reference word.now ≡ false) (λ number. (is_reference word.now ≡ true)
        × (number.0 ≡ starts_minus word.now)
        × (number.1 ≡ min (value_after 0 (digits_of (past_sign word.now))) GREATEST_NUMBER)) }
{
    let (minus, size) = sign(word);
    if !starts_digit(size) {
        return None;
    }
    let (number, rest) = cut_off_number(size);
    if !at_most_two_parts(rest) {
        return None;
    }
    Some((minus, number))
}

fn at_most_two_parts(text: &[u8]) -> bool
    ensures { result ≡ at_most_two_parts text.now }
{
    if text.is_empty() {
        return true;
    }
    has_part(text) && at_most_one_part(past_part(text))
}

fn at_most_one_part(text: &[u8]) -> bool
    ensures { result ≡ at_most_one_part text.now }
{
    if text.is_empty() {
        return true;
    }
    has_part(text) && past_part(text).is_empty()
}

fn has_part(text: &[u8]) -> bool
    ensures { result ≡ has_part text.now }
{
    match text.first() {
        Some(b) => *b == b'/',
        None => false,
    }
}

/// What follows a `/` and the number behind it, if there is one.
fn past_part(text: &[u8]) -> &[u8]
    ensures { result.now ≡ past_part text.now }
{
    let [_, rest @ ..] = text else {
        return text;
    };
    let (_minus, size) = sign(rest);
    if starts_digit(size) {
        past_digits(size)
    } else {
        rest
    }
}

fn starts_digit(text: &[u8]) -> bool
    ensures { result ≡ is_word (digits_of text.now) }
{
    match text.first() {
        Some(b) => is_digit(*b),
        None => false,
    }
}

/// The number that the digits at the front write, cut off, and what follows them.
fn cut_off_number(text: &[u8]) -> (u32, &[u8])
    ensures value { result.0 ≡ min (value_after 0 (digits_of text.now)) GREATEST_NUMBER }
    ensures rest { result.1.now ≡ past_digits text.now }
{
    let (number, rest) = digits(0, text);
    (
        number.min(u64::from(GREATEST_NUMBER)) as u32,
        past_digits(rest),
    )
}
