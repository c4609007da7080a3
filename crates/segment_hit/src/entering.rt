//! Where a segment enters a closed box. On each axis it is between the box's sides on one stretch of its way, and it is
//! in the box where these three stretches overlap: from where the last of them begins (Kay and Kajiya, Ray Tracing
//! Complex Scenes, 1986). A segment that is beside the box on some axis is told by comparisons alone.

ghost use Rattle.std.specs.Prelude.{◌↔◌, ℤ, pos, ◌≤◌, ◌≤ℤ◌, ◌<ℤ◌, IfSome, IsSome, unsigned_abs};
ghost use Rattle.fixed_box.specs.World.{IsCoordinate, InWorld, BoxInWorld};
ghost use Rattle.segment_hit.specs.Entering.{IsBetweenAt, IsIn, IsEntry};
ghost use Rattle.segment_hit.specs.Stretches.{IsFrom, IsUpTo, IsOnWay, IsPart, IsStretchOf, IsLaterOf, IsSoonerOf, IsSharedBy, IsWholeWay};

use crate::lowest::lowest;
use crate::products::step;
use crate::stretch::Stretch;
use crate::vectors::SPAN;
use crate::{Entry, Frac};
use fixed_box::{Box3, Point};

/// `num / den`, or 0 where that is below 0.
#[inline]
fn not_below_zero(num: i64, den: i64) -> Entry
    requires above { pos 0 <ℤ den }
    requires small { unsigned_abs den ≤ SPAN }
    requires ended { num ≤ℤ den }
    ensures { (T D : ℤ) → IsPart T D → (IsFrom result.num result.den T D ↔ IsFrom num den T D) }
{
    if num < 0 {
        return Entry { num: 0, den };
    }
    Entry { num, den }
}

/// `num / den`, or 1 where that is above 1.
#[inline]
fn not_above_one(num: i64, den: i64) -> Entry
    requires above { pos 0 <ℤ den }
    requires small { unsigned_abs den ≤ SPAN }
    requires begun { pos 0 ≤ℤ num }
    ensures { (T D : ℤ) → IsPart T D → (IsUpTo result.num result.den T D ↔ IsUpTo num den T D) }
{
    if den < num {
        return Entry { num: den, den };
    }
    Entry { num, den }
}

/// What of the way is from `low / way` to `high / way`, both included.
#[inline]
fn between(low: i64, high: i64, way: i64) -> Option<Stretch>
    requires above { pos 0 <ℤ way }
    requires small { unsigned_abs way ≤ SPAN }
    ensures { IsStretchOf (λ T D. IsOnWay low high way T D) result }
{
    if high < 0 {
        return None;
    }
    if way < low {
        return None;
    }
    Some(Stretch {
        enter: not_below_zero(low, way),
        leave: not_above_one(high, way),
    })
}

/// The whole way, from 0/1 to 1/1.
#[inline]
fn whole_way() -> Stretch
    ensures { IsWholeWay result }
{
    Stretch {
        enter: Entry { num: 0, den: 1 },
        leave: Entry { num: 1, den: 1 },
    }
}

/// What of the way from one coordinate to another is from `lo` to `hi`, both included. Where the way falls, the axis is
/// turned over, so that it rises.
#[inline]
fn span(from: i32, to: i32, lo: i32, hi: i32) -> Option<Stretch>
    requires from { IsCoordinate from }
    requires to { IsCoordinate to }
    requires lo { IsCoordinate lo }
    requires hi { IsCoordinate hi }
    ensures { IsStretchOf (λ T D. IsBetweenAt from to lo hi T D) result }
{
    if from < to {
        return between(step(from, lo), step(from, hi), step(from, to));
    }
    if to < from {
        return between(step(hi, from), step(lo, from), step(to, from));
    }
    if from < lo || hi < from {
        return None;
    }
    Some(whole_way())
}

/// The greater of two fractions.
#[inline]
fn later(a: Entry, b: Entry) -> Entry
    ensures { IsLaterOf a b result }
{
    if a.is_before(&b) { b } else { a }
}

/// The lesser of two fractions.
#[inline]
fn sooner(a: Entry, b: Entry) -> Entry
    ensures { IsSoonerOf a b result }
{
    if a.is_before(&b) { a } else { b }
}

/// What two stretches share. If that is nothing, it ends before it begins.
#[inline]
fn shared(a: Stretch, b: Stretch) -> Stretch
    ensures { IsSharedBy a b result }
{
    Stretch {
        enter: later(a.enter, b.enter),
        leave: sooner(a.leave, b.leave),
    }
}

/// Where the segment from `p` to `q` enters the box: the least fraction of the way at which it is in the box, or `None`
/// where it misses the box. 0 is `p` and 1 is `q`.
///
/// Both ends count, and so do the box's faces, edges and corners. A segment that begins in the box enters at 0, and so
/// does one of a single point there. The fraction need not be in lowest terms: a walk over many boxes divides nowhere,
/// and compares by `is_before` and `is_behind`.
pub fn entry(p: Point, q: Point, b: &Box3) -> Option<Entry>
    requires p { InWorld p }
    requires q { InWorld q }
    requires b { BoxInWorld b.now }
    ensures found { IfSome result (λ e. IsEntry p q b.now e.num e.den) }
    // so it is None only where the segment misses the box
    ensures only { (T D : ℤ) → IsIn p q b.now T D → IsSome result }
{
    let on_x = span(p.x, q.x, b.lo.x, b.hi.x)?;
    let on_y = span(p.y, q.y, b.lo.y, b.hi.y)?;
    let on_z = span(p.z, q.z, b.lo.z, b.hi.z)?;
    let inside = shared(shared(on_x, on_y), on_z);
    if inside.leave.is_before(&inside.enter) {
        return None;
    }
    Some(inside.enter)
}

/// Where the segment from `p` to `q` enters the box, as `entry`, in lowest terms: 0/1 is `p`, and 1/1 is `q`.
pub fn enters(p: Point, q: Point, b: &Box3) -> Option<Frac>
    requires p { InWorld p }
    requires q { InWorld q }
    requires b { BoxInWorld b.now }
    ensures found { IfSome result (λ f. IsEntry p q b.now f.num f.den) }
    // so it is None only where the segment misses the box
    ensures only { (T D : ℤ) → IsIn p q b.now T D → IsSome result }
{
    let first = entry(p, q, b)?;
    Some(lowest(first.num as u64, first.den as u64))
}
