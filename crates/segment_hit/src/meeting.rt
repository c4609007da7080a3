//! The meeting of a segment and a triangle, by Cramer's rule on their determinants (as in Möller and Trumbore, Fast,
//! Minimum Storage Ray/Triangle Intersection, 1997). Signs decide; the only divisions bring a hit to lowest terms.

ghost use Rattle.std.specs.Prelude.{◌≡◌, ℤ, pos, ◌<ℤ◌, IfSome, IsSomeAnd};
ghost use Rattle.std.specs.Option.{option_map};
ghost use Rattle.fixed_box.specs.World.{InWorld, TriInWorld};
ghost use Rattle.segment_hit.specs.HitOf.{ratio_of, hit_of};
ghost use Rattle.segment_hit.specs.Determinants.{IsInside, shares};
ghost use Rattle.segment_hit.specs.Meeting.{MeetsAt, IsHit, IsFraction};

use crate::Frac;
use crate::lowest::lowest;
use crate::products::{facing, measure};
use crate::vectors::Determinants;
use fixed_box::{Point, Tri};

/// `time / whole`, where it is from 0 to 1 and no weight is below 0.
fn settle(m: &Determinants) -> Option<Frac>
    requires above { pos 0 <ℤ m.now.whole }
    ensures found { IfSome result (λ f. IsInside (shares m.now) × IsFraction f m.now.time m.now.whole) }
    ensures only { IsInside (shares m.now) → IsSomeAnd result (λ f. IsFraction f m.now.time m.now.whole) }
{
    if m.time < 0 || m.whole < m.time || m.second < 0 || m.whole < m.second || m.third < 0 {
        return None;
    }
    // `second + third` could pass the greatest i64; from 0 to `whole`, this difference can't.
    if m.whole - m.second < m.third {
        return None;
    }
    Some(lowest(m.time as u64, m.whole as u64))
}

/// The fraction of the way from `p` to `q` at which the segment meets the triangle, in lowest terms: 0/1 is `p`, and
/// 1/1 is `q`. Both ends count, and so do the triangle's edges and corners.
///
/// A triangle of no area is never met, nor one whose plane the segment lies in or is parallel to, nor any by a segment
/// of one point.
pub fn hit(p: Point, q: Point, t: &Tri) -> Option<Frac>
    requires p { InWorld p }
    requires q { InWorld q }
    requires t { TriInWorld t.now }
    ensures found { IfSome result (λ f. IsHit p q t.now f) }
    // so it is None only where the segment does not meet the triangle
    ensures only { (T D : ℤ) → MeetsAt p q t.now T D → IsSomeAnd result (λ f. IsFraction f T D) }
    // both as one equation
    ensures value { option_map ratio_of result ≡ hit_of p q t.now }
{
    let measured = facing(measure(&p, &q, t));
    if measured.whole <= 0 {
        return None;
    }
    settle(&measured)
}
