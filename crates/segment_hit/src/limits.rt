//! How far along a line a fraction reaches: a quotient rounded down, so that a place is behind the fraction exactly
//! where it is past that whole number.

ghost use Rattle.std.specs.Prelude.{◌+◌, ◌*◌, ◌<◌, ◌≤◌, pos, ◌+ℤ◌, ◌*ℤ◌, ◌≤ℤ◌, ◌<ℤ◌};

use crate::Frac;
use crate::line::{Line, Place};

/// `n w / d`, rounded down.
fn floor_of(n: u64, w: u64, d: u64) -> u64
    requires part { n ≤ d }
    requires above { 0 < d }
    ensures low { result * d ≤ n * w }
    ensures floor { n * w < (result + 1) * d }
    ensures most { result ≤ w }
{
    (u128::from(n) * u128::from(w) / u128::from(d)) as u64
}

/// The last place of the line that is not behind the fraction, which is from 0 to 1: all places past it are behind.
pub fn reach(l: &Line, at: &Frac) -> Place
    requires begun { pos 0 ≤ℤ at.now.num }
    requires ended { at.now.num ≤ℤ at.now.den }
    ensures last { (result.at *ℤ at.now.den) ≤ℤ (at.now.num *ℤ l.now.whole) }
    ensures past { (at.now.num *ℤ l.now.whole) <ℤ ((result.at +ℤ pos 1) *ℤ at.now.den) }
{
    Place {
        at: floor_of(at.num as u64, l.whole as u64, at.den as u64) as i64,
    }
}
