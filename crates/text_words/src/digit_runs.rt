//! A sign and digits at the front of a text: every number of a mesh or a script is read by these.

ghost use Rattle.std.specs.Prelude.{◌≡◌, ◌<◌, ◌^◌};
ghost use Rattle.text_words.specs.Numbers.{is_digit, value_after, starts_minus, past_sign, digits_of, past_digits};

/// A number below this, 10^18, has room for one digit more in 64 bits.
pub const DIGITS_END: u64 = 1_000_000_000_000_000_000;

/// Whether the text begins with `-`.
#[inline(always)]
pub fn starts_minus(text: &[u8]) -> bool
    ensures { result ≡ starts_minus text.now }
{
    matches!(text, [b'-', ..])
}

/// Whether a `-` stands at the front, and what follows a `+` or `-` there.
#[inline(always)]
pub fn sign(text: &[u8]) -> (bool, &[u8])
    ensures minus { result.0 ≡ starts_minus text.now }
    ensures rest { result.1.now ≡ past_sign text.now }
{
    match text.split_first() {
        Some((b'-', rest)) => (true, rest),
        Some((b'+', rest)) => (false, rest),
        _ => (false, text),
    }
}

/// The number that the digits at the front write behind those of `before`, and what follows them. It ends before a
/// digit for which it has no room: a number of `DIGITS_END` or more is not known to be whole.
#[inline(always)]
pub fn digits(before: u64, text: &[u8]) -> (u64, &[u8])
    requires { before < 10 ^ 19 }
    ensures value { value_after before (digits_of text.now) ≡ value_after result.0 (digits_of result.1.now) }
    ensures rest { past_digits text.now ≡ past_digits result.1.now }
    ensures room { result.0 < 10 ^ 19 }
    ensures number { result.0 < 10 ^ 18 → result.0 ≡ value_after before (digits_of text.now) }
    ensures whole { result.0 < 10 ^ 18 → result.1.now ≡ past_digits text.now }
{
    let mut value = before;
    for (at, b) in text.iter().enumerate() {
        if value >= DIGITS_END || !is_digit(*b) {
            return (value, &text[at..]);
        }
        value = value * 10 + u64::from(*b - b'0');
    }
    (value, &text[text.len()..])
}

/// What follows the digits at the front.
pub fn past_digits(text: &[u8]) -> &[u8]
    ensures { result.now ≡ past_digits text.now }
{
    for (at, b) in text.iter().enumerate() {
        if !is_digit(*b) {
            return &text[at..];
        }
    }
    &text[text.len()..]
}

/// Whether the byte is one of the digits `0` to `9`.
#[inline(always)]
pub fn is_digit(b: u8) -> bool
    ensures { result ≡ is_digit b }
{
    b'0' <= b && b <= b'9'
}
