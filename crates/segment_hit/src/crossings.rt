//! One axis of a segment, over a denominator that all axes share: where it comes to a side of a box is a whole number
//! over that denominator, by one product.

ghost use Rattle.std.specs.Prelude.{◌≡◌, ℤ, pos, Bool, ◌+◌, ◌+ℤ◌, ◌-ℤ◌, ◌*ℤ◌, ◌*◌, ◌≤◌, ◌<ℤ◌, ◌≤ℤ◌, unsigned_abs};
ghost use Rattle.fixed_box.specs.World.{IsCoordinate};
ghost use Rattle.segment_hit.specs.declared.vectors.TheConstants.{SPAN, SQUARE};
ghost use Rattle.segment_hit.specs.declared.line.TheConstants.{SCALE, PRODUCT};
ghost use Rattle.segment_hit.specs.Lines.{IsWay, IsAxisOf, entry_of, exit_of};

use crate::arithmetic::{plus, times};
use crate::line::{Axis, PRODUCT, Place, SCALE};
use crate::products::step;
use crate::vectors::{SPAN, SQUARE};

/// How long the way is on one axis; 1 where there is none.
pub(crate) fn way(from: i32, to: i32) -> i64
    requires from { IsCoordinate from }
    requires to { IsCoordinate to }
    ensures way { IsWay from to result }
    ensures above { pos 0 <ℤ result }
    ensures small { unsigned_abs result ≤ SPAN }
{
    if from < to {
        return step(from, to);
    }
    if to < from {
        return step(to, from);
    }
    1
}

/// The axis of these parts.
fn made(from: i32, rises: bool, scale: i64, slack: i64) -> Axis
    requires from { IsCoordinate from }
    requires scale { unsigned_abs scale ≤ SCALE }
    requires slack { unsigned_abs slack ≤ SQUARE }
    ensures from { result.from ≡ from }
    ensures rises { result.rises ≡ rises }
    ensures scale { result.scale ≡ scale }
    ensures slack { result.slack ≡ slack }
{
    Axis {
        from,
        rises,
        scale,
        slack,
    }
}

/// An axis with a way of its own, where the product of all three ways is `whole` and that of the others `others`.
pub(crate) fn axis_of(from: i32, to: i32, way: i64, others: i64, whole: i64) -> Axis
    requires from { IsCoordinate from }
    requires to { IsCoordinate to }
    requires way { IsWay from to way }
    requires others { pos 0 <ℤ others }
    requires others_small { unsigned_abs others ≤ SQUARE }
    requires whole { whole ≡ way *ℤ others }
    ensures { IsAxisOf from to whole result }
{
    if from < to {
        return made(from, true, others, 0);
    }
    if to < from {
        return made(from, false, others, 0);
    }
    made(from, true, times::<2, SQUARE>(2, others), others)
}

/// The way between two coordinates, multiplied.
#[inline]
fn over(from: i32, to: i32, scale: i64) -> i64
    requires from { IsCoordinate from }
    requires to { IsCoordinate to }
    requires scale { unsigned_abs scale ≤ SCALE }
    ensures value { result ≡ (to -ℤ from) *ℤ scale }
    ensures size { unsigned_abs result ≤ PRODUCT }
{
    times::<SPAN, SCALE>(step(from, to), scale)
}

/// The same, and more.
#[inline]
fn over_and(from: i32, to: i32, scale: i64, slack: i64) -> i64
    requires from { IsCoordinate from }
    requires to { IsCoordinate to }
    requires scale { unsigned_abs scale ≤ SCALE }
    requires slack { unsigned_abs slack ≤ SQUARE }
    ensures value { result ≡ (to -ℤ from) *ℤ scale +ℤ slack }
    ensures size { unsigned_abs result ≤ PRODUCT + SQUARE }
{
    plus::<PRODUCT, SQUARE>(over(from, to, scale), slack)
}

/// Where the axis comes to the nearer side.
#[inline]
pub(crate) fn entry_at(a: &Axis, lo: i32, hi: i32) -> Place
    requires lo { IsCoordinate lo }
    requires hi { IsCoordinate hi }
    ensures { result.at ≡ entry_of a.now lo hi }
{
    if a.rises {
        return Place {
            at: over(a.from, lo, a.scale),
        };
    }
    Place {
        at: over(hi, a.from, a.scale),
    }
}

/// And where it comes to the farther one.
#[inline]
pub(crate) fn exit_at(a: &Axis, lo: i32, hi: i32) -> Place
    requires lo { IsCoordinate lo }
    requires hi { IsCoordinate hi }
    ensures { result.at ≡ exit_of a.now lo hi }
{
    if a.rises {
        return Place {
            at: over_and(a.from, hi, a.scale, a.slack),
        };
    }
    Place {
        at: over_and(lo, a.from, a.scale, a.slack),
    }
}
