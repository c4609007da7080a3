//! The values of the options.

ghost use Rattle.std.specs.Prelude.{◌≡◌};
ghost use Rattle.command_line.specs.Values.{number_in, build_of};

use crate::limits::MOST_DIGITS;
use crate::plan::Build;
use decimals::whole;

/// The number that 1 to `MOST_DIGITS` digits write, where it is from `least` to `most`.
pub fn number_in(text: &[u8], least: u32, most: u32) -> Option<u32>
    ensures { result ≡ number_in least most text.now }
{
    if MOST_DIGITS < text.len() {
        return None;
    }
    let Ok(number) = whole(text) else {
        return None;
    };
    if number < u64::from(least) || u64::from(most) < number {
        return None;
    }
    Some(number as u32)
}

/// The build that a text names.
pub fn build_of(text: &[u8]) -> Option<Build>
    ensures { result ≡ build_of text.now }
{
    if text == b"karras".as_slice() {
        return Some(Build::Karras);
    }
    if text == b"apetrei".as_slice() {
        return Some(Build::Apetrei);
    }
    None
}
