//! The nearest triangle that a segment meets, by a walk from front to back: of two children the one whose box the segment
//! enters first comes first, and a box that it misses, or enters behind the best hit so far, is passed over. Of hits at
//! one fraction the lowest number is the best, so a box that is entered just there is still looked at.

ghost use Rattle.std.specs.Prelude.{◌≡◌, ℕ, ◌<◌, ◌≤◌, ◌⊎◌, length, map, All, Some, IfSome, IsSome};
ghost use Rattle.std.specs.Bool.{MatchBool};
ghost use Rattle.std.specs.Option.{option_map};
ghost use Rattle.fixed_box.specs.World.{InWorld, TriInWorld};
ghost use Rattle.fixed_box.specs.Extent.{tri_box};
ghost use Rattle.radix_tree.specs.Ranges.{HasRange};
ghost use Rattle.radix_tree.specs.Table.{IsTable};
ghost use Rattle.radix_tree.specs.Fit.{IsFitted};
ghost use Rattle.radix_tree.specs.Filling.{IsChild};
ghost use Rattle.segment_hit.specs.declared.fraction.Frac.{Frac};
ghost use Rattle.traversal.specs.Nearest.{IsMet, IsNearest};
ghost use Rattle.traversal.specs.NearestOf.{parts_of, nearest_of};
ghost use Rattle.traversal.specs.Nearing.{IsNoFarther, StandsIn, Nears, Screens};

use crate::approach::{Approach, approach_to, in_order, is_too_far};
use crate::beginning::root;
use crate::triangles::{Listed, Triangles};
use fixed_box::{Point, Tri};
use radix_tree::{Child, Tree, left, right};
use segment_hit::{Frac, cmp, hit};
use std::cmp::Ordering;

/// Whether the first hit is nearer, or as near and of no higher number; else the second is.
fn comes_first(a: &(u32, Frac), b: &(u32, Frac)) -> bool
    ensures { MatchBool result (IsNoFarther a.now b.now) (IsNoFarther b.now a.now) }
{
    match cmp(&a.1, &b.1) {
        Ordering::Less => true,
        Ordering::Equal => a.0 <= b.0,
        Ordering::Greater => false,
    }
}

/// The better of the best hit so far and another.
pub fn better(best: Option<(u32, Frac)>, found: (u32, Frac)) -> (u32, Frac)
    ensures taken { (best ≡ Some result) ⊎ (result ≡ found) }
    ensures found { IsNoFarther result found }
    ensures best { (h : ℕ × Frac) → best ≡ Some h → IsNoFarther result h }
{
    let Some(before) = best else {
        return found;
    };
    if comes_first(&before, &found) {
        before
    } else {
        found
    }
}

/// The best hit after a look at the triangle of that number.
fn with_triangle<S: Triangles>(
    tris: &S,
    p: Point,
    q: Point,
    number: u32,
    best: Option<(u32, Frac)>,
) -> Option<(u32, Frac)>
    requires from_one { 0 < number }
    requires to_count { number ≤ length (S.list tris.now) }
    requires tris { All TriInWorld (S.list tris.now) }
    requires p { InWorld p }
    requires q { InWorld q }
    ensures { Nears (S.list tris.now) p q (λ n. n ≡ number) best result }
{
    match hit(p, q, &tris.triangle(number)) {
        Some(at) => Some(better(best, (number, at))),
        None => best,
    }
}

/// The best hit after a look at the triangles below a child that the segment approaches.
fn nearest_below<S: Triangles>(
    t: &Tree,
    tris: &S,
    p: Point,
    q: Point,
    way: Approach,
    best: Option<(u32, Frac)>,
) -> Option<(u32, Frac)>
    requires table { IsTable t.now }
    requires fitted { IsFitted t.now (map tri_box (S.list tris.now)) }
    requires tris { All TriInWorld (S.list tris.now) }
    requires p { InWorld p }
    requires q { InWorld q }
    requires child { IsChild t.now way.child }
    requires screens { (a b : ℕ) → HasRange t.now.keys way.child a b →
        Screens (S.list tris.now) p q (StandsIn t.now.keys a b) way.at }
    ensures { (a b : ℕ) → HasRange t.now.keys way.child a b →
        Nears (S.list tris.now) p q (StandsIn t.now.keys a b) best result }
{
    let Some(at) = way.at else {
        return best;
    };
    if is_too_far(&at, &best) {
        return best;
    }
    match way.child {
        Child::Leaf(position) => with_triangle(tris, p, q, t.keys()[position as usize].tri, best),
        Child::Inner(number) => {
            let on_left = approach_to(t, tris, p, q, left(t, number));
            let on_right = approach_to(t, tris, p, q, right(t, number));
            let (sooner, later) = in_order(on_left, on_right);
            let nearer = nearest_below(t, tris, p, q, sooner, best);
            nearest_below(t, tris, p, q, later, nearer)
        }
    }
}

/// The nearest triangle that the segment from `p` to `q` meets, with the fraction of the way.
///
/// The tree has to be fitted to the boxes of the triangles. 0/1 is `p` and 1/1 is `q`; both ends count, and so do a
/// triangle's edges. Of triangles met at the same fraction the lowest number is answered. A triangle of no area is
/// never met, nor one whose plane the segment is parallel to. It takes no memory, and its recursion is at most one call
/// deeper than the tree is high.
pub fn nearest_among<S: Triangles>(t: &Tree, tris: &S, p: Point, q: Point) -> Option<(u32, Frac)>
    requires fitted { IsFitted t.now (map tri_box (S.list tris.now)) }
    requires tris { All TriInWorld (S.list tris.now) }
    requires p { InWorld p }
    requires q { InWorld q }
    ensures found { IfSome result (λ h. IsNearest (S.list tris.now) p q h.0 h.1) }
    // so it is None only where no triangle is met
    ensures only { (number : ℕ) (at : Frac) → IsMet (S.list tris.now) p q number at → IsSome result }
    // both as one equation
    ensures value { option_map parts_of result ≡ nearest_of (S.list tris.now) p q }
{
    let whole = approach_to(t, tris, p, q, root(t)?);
    nearest_below(t, tris, p, q, whole, None)
}

/// The nearest triangle of a list that the segment from `p` to `q` meets, with the fraction of the way: what
/// `nearest_among` answers, where `tris[n - 1]` is triangle `n`.
pub fn nearest(t: &Tree, tris: &[Tri], p: Point, q: Point) -> Option<(u32, Frac)>
    requires fitted { IsFitted t.now (map tri_box tris.now) }
    requires tris { All TriInWorld tris.now }
    requires p { InWorld p }
    requires q { InWorld q }
    ensures found { IfSome result (λ h. IsNearest tris.now p q h.0 h.1) }
    ensures only { (number : ℕ) (at : Frac) → IsMet tris.now p q number at → IsSome result }
    ensures value { option_map parts_of result ≡ nearest_of tris.now p q }
{
    nearest_among(t, &Listed { tris }, p, q)
}
