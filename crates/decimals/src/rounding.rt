//! A decimal's parts, as a whole number of grid steps. Where the exponent wins, the value is whole; else one division
//! rounds it. Most decimals fit 64 bits, where that division is fast.

ghost use Rattle.std.specs.Prelude.{◌≡◌, ◌≤◌, ◌<◌, ◌*◌, ◌^◌, min};
ghost use Rattle.decimals.specs.Fractions.{scaled, nearest_step, with_sign};
ghost use Rattle.decimals.specs.Values.{brought_in};
ghost use Rattle.decimals.specs.Rounding.{rounded, size_of};

use crate::decimal::Decimal;
use crate::limits::{FEW, GREATEST, PAST_MOST_DIGITS, POWERS, SHORT, SHORT_UNIT};

/// The grid value of a decimal.
#[inline(never)]
#[tactic(auto, using(crate::proofs::Powers::units_small))]
pub fn grid_steps(d: &Decimal, unit: u32) -> i64
    requires mantissa { d.now.mantissa < PAST_MOST_DIGITS }
    requires lowered { d.now.lowered ≤ PAST_MOST_DIGITS }
    ensures { result ≡ brought_in (nearest_step unit
        (scaled d.now.minus d.now.mantissa d.now.places d.now.raised d.now.lowered)) }
{
    let units = d.mantissa * u128::from(unit);
    let size = size(d.minus, units, d.raised, d.places as u128 + d.lowered);
    signed(d.minus, size)
}

/// The same of a decimal without an exponent. Few digits, as nearly all have, are rounded in 64 bits throughout.
#[inline(always)]
pub fn short_steps(d: &Decimal, unit: u32) -> i64
    requires mantissa { d.now.mantissa < FEW }
    requires raised { d.now.raised ≡ 0 }
    requires lowered { d.now.lowered ≡ 0 }
    ensures { result ≡ brought_in (nearest_step unit
        (scaled d.now.minus d.now.mantissa d.now.places d.now.raised d.now.lowered)) }
{
    let few = d.mantissa as u64;
    if few >= SHORT || unit > SHORT_UNIT || d.places > 18 {
        return grid_steps(d, unit);
    }
    let units = few * u64::from(unit);
    signed(
        d.minus,
        short_quotient(d.minus, units, d.places).min(GREATEST),
    )
}

/// The size of `n` times one power of ten over another, rounded and cut off at the greatest value.
#[tactic(auto, using(crate::proofs::Scales::size_up, crate::proofs::Scales::size_down))]
fn size(minus: bool, n: u128, up: u128, down: u128) -> u64
    requires { n < 2 ^ 112 }
    ensures { result ≡ size_of minus n up down }
{
    if down <= up {
        return raised(n, up - down);
    }
    lowered(minus, n, down - up)
}

#[inline(always)]
fn signed(minus: bool, size: u64) -> i64
    requires { size ≤ GREATEST }
    ensures { result ≡ with_sign minus size }
{
    let size = size as i64;
    if minus { -size } else { size }
}

/// `n` times a power of ten, cut off at the greatest value.
#[tactic(auto, using(crate::proofs::Powers::greatest_past))]
fn raised(n: u128, tens: u128) -> u64
    requires { n < 2 ^ 112 }
    ensures { result ≡ min (n * 10 ^ tens) GREATEST }
{
    if n == 0 {
        return 0;
    }
    if tens > 12 {
        return GREATEST;
    }
    let size = n.min(u128::from(GREATEST)) * 10u128.pow(tens as u32);
    size.min(u128::from(GREATEST)) as u64
}

/// `n` over a power of ten, rounded and cut off at the greatest value.
#[tactic(auto, using(crate::proofs::Scales::none_past))]
fn lowered(minus: bool, n: u128, tens: u128) -> u64
    requires { n < 2 ^ 112 }
    ensures { result ≡ min (rounded minus n (10 ^ tens)) GREATEST }
{
    if tens > 34 {
        return 0;
    }
    if tens <= 18 && n < u128::from(FEW) {
        return short_quotient(minus, n as u64, tens as usize).min(GREATEST);
    }
    let size = wide_quotient(minus, n, wide_power(tens as u32));
    size.min(u128::from(GREATEST)) as u64
}

/// A quotient by a power of ten in 64 bits, rounded. The compiler makes the division by a number that it knows into a
/// product, several times as fast, so the usual places have one each.
#[inline(always)]
fn short_quotient(minus: bool, num: u64, tens: usize) -> u64
    requires num { num < FEW }
    requires tens { tens ≤ 18 }
    ensures { result ≡ rounded minus num (10 ^ tens) }
{
    match tens {
        0 => quotient(minus, num, 1),
        1 => quotient(minus, num, 10),
        2 => quotient(minus, num, 100),
        3 => quotient(minus, num, 1_000),
        4 => quotient(minus, num, 10_000),
        5 => quotient(minus, num, 100_000),
        6 => quotient(minus, num, 1_000_000),
        7 => quotient(minus, num, 10_000_000),
        8 => quotient(minus, num, 100_000_000),
        _ => quotient(minus, num, power(tens)),
    }
}

/// A quotient in 64 bits, rounded.
#[inline(always)]
fn quotient(minus: bool, num: u64, den: u64) -> u64
    requires num { num < FEW }
    requires some { 0 < den }
    requires den { den ≤ FEW }
    ensures { result ≡ rounded minus num den }
{
    (2 * num + den - u64::from(minus)) / (2 * den)
}

/// A quotient in 128 bits, rounded.
fn wide_quotient(minus: bool, num: u128, den: u128) -> u128
    requires num { num < 2 ^ 112 }
    requires some { 0 < den }
    requires den { den ≤ 10 ^ 34 }
    ensures { result ≡ rounded minus num den }
{
    (2 * num + den - u128::from(minus)) / (2 * den)
}

/// A power of ten, from a table.
#[tactic(auto, using(crate::proofs::Powers::small_powers))]
fn power(tens: usize) -> u64
    requires { tens ≤ 18 }
    ensures value { result ≡ 10 ^ tens }
    ensures some { 0 < result }
    ensures few { result ≤ FEW }
{
    POWERS[tens]
}

/// A power of ten in 128 bits.
#[tactic(auto, using(crate::proofs::Powers::power_some, crate::proofs::Powers::power_most))]
fn wide_power(tens: u32) -> u128
    requires { tens ≤ 34 }
    ensures value { result ≡ 10 ^ tens }
    ensures some { 0 < result }
    ensures few { result ≤ 10 ^ 34 }
{
    10u128.pow(tens)
}
