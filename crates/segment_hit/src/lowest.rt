//! A quotient brought to lowest terms, by the greatest common divisor (Euclid).

ghost use Rattle.std.specs.Prelude.{◌≡◌, ◌<◌, ◌^◌, pos, ◌*ℤ◌};
ghost use Rattle.std.specs.Int.{IsGcd};

use crate::Frac;

fn gcd(a: u64, b: u64) -> u64
    ensures { IsGcd a b result }
{
    let mut x = a;
    let mut y = b;
    while y != 0 {
        let rest = x % y;
        x = y;
        y = rest;
    }
    x
}

/// `num / den` in lowest terms.
pub fn lowest(num: u64, den: u64) -> Frac
    requires num_fits { num < 2 ^ 63 }
    requires den_fits { den < 2 ^ 63 }
    requires above { 0 < den }
    ensures { result.num *ℤ pos den ≡ pos num *ℤ result.den }
{
    let shared = gcd(num, den);
    Frac {
        num: (num / shared) as i64,
        den: (den / shared) as i64,
    }
}
