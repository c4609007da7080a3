//! A decimal word, read.

/// The parts of a decimal: sign, digits, how many of them stand behind the point, and the exponent, which raises or
/// lowers. Each number but `places` is cut off at `PAST_MOST_DIGITS`.
#[derive(Clone, Copy)]
pub struct Decimal {
    pub minus: bool,
    pub mantissa: u128,
    pub places: usize,
    pub raised: u128,
    pub lowered: u128,
}
