//! The least box round points or boxes, and the two questions about a pair of boxes. All of it compares corners:
//! boxes are closed, so they meet or lie in each other exactly where their corners are in order on every axis.

ghost use Rattle.std.specs.Prelude.{◌≡◌, ◌↔◌, IsTrue, [], ◌∷◌};
ghost use Rattle.fixed_box.specs.Boxes.{Meets, Contains, IsLeastHolding, IsLeastBox};
ghost use Rattle.fixed_box.specs.Extent.{boxes_meet, corner_box, tri_box, union_of};
ghost use Rattle.fixed_box.specs.Corners.{IsAtMost};

use crate::corners::{at_most, greatest, least};
use crate::{Box3, Point, Tri};

/// The box between two corners.
fn between(lo: Point, hi: Point) -> Box3
    requires rises { IsAtMost lo hi }
    ensures lo { result.lo ≡ lo }
    ensures hi { result.hi ≡ hi }
{
    Box3 { lo, hi }
}

impl Box3 {
    /// The least box that holds both points, whichever of their coordinates is the lesser.
    pub fn of_corners(p: Point, q: Point) -> Box3
        ensures least { IsLeastHolding (p ∷ q ∷ []) result }
        ensures value { result ≡ corner_box p q }
    {
        between(least(&p, &q), greatest(&p, &q))
    }
}

/// The least box that holds the three corners of a triangle. A triangle of no area has one too.
pub fn box_of(t: &Tri) -> Box3
    ensures least { IsLeastHolding (t.now.a ∷ t.now.b ∷ t.now.c ∷ []) result }
    ensures value { result ≡ tri_box t.now }
{
    let lo = least(&least(&t.a, &t.b), &t.c);
    let hi = greatest(&greatest(&t.a, &t.b), &t.c);
    between(lo, hi)
}

/// The least box that contains both boxes.
pub fn union(a: &Box3, b: &Box3) -> Box3
    ensures least { IsLeastBox (a.now ∷ b.now ∷ []) result }
    ensures value { result ≡ union_of a.now b.now }
{
    between(least(&a.lo, &b.lo), greatest(&a.hi, &b.hi))
}

/// Whether some point is in both boxes. Faces count: boxes that only touch meet.
pub fn meets(a: &Box3, b: &Box3) -> bool
    ensures point { IsTrue result ↔ Meets a.now b.now }
    ensures value { result ≡ boxes_meet a.now b.now }
{
    at_most(&a.lo, &b.hi) && at_most(&b.lo, &a.hi)
}

/// Whether every point of `inner` is in `outer`. A box contains itself.
pub fn contains(outer: &Box3, inner: &Box3) -> bool
    ensures { IsTrue result ↔ Contains outer.now inner.now }
{
    at_most(&outer.lo, &inner.lo) && at_most(&inner.hi, &outer.hi)
}
