//! The numbers that fix what is read and what is answered.

/// A number has at most this many significant digits.
pub const MOST_DIGITS: usize = 24;

/// The least number of more than `MOST_DIGITS` digits, 10^24.
pub const PAST_MOST_DIGITS: u128 = 1_000_000_000_000_000_000_000_000;

/// Values are brought into the range from minus this to this, 2^40.
pub const GREATEST: u64 = 1_099_511_627_776;

/// A number below this has room for one digit more in 64 bits, 10^18.
pub const FEW: u64 = 1_000_000_000_000_000_000;

/// A number below this, 2^42, times a unit of at most `SHORT_UNIT` is below `FEW`.
pub const SHORT: u64 = 4_398_046_511_104;

/// The greatest unit for which that holds, 2^17.
pub const SHORT_UNIT: u32 = 131_072;

/// The powers of ten from 10^0 to 10^18.
pub const POWERS: [u64; 19] = [
    1,
    10,
    100,
    1_000,
    10_000,
    100_000,
    1_000_000,
    10_000_000,
    100_000_000,
    1_000_000_000,
    10_000_000_000,
    100_000_000_000,
    1_000_000_000_000,
    10_000_000_000_000,
    100_000_000_000_000,
    1_000_000_000_000_000,
    10_000_000_000_000_000,
    100_000_000_000_000_000,
    1_000_000_000_000_000_000,
];
