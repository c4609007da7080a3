//! Where a segment enters the box round the triangles below a child, by which a walk chooses what to look at first, and
//! what not at all.

ghost use Rattle.std.specs.Prelude.{◌≡◌, ℕ, ◌⊎◌, map, All, IsTrue, IsSomeAnd};
ghost use Rattle.fixed_box.specs.Boxes.{Contains};
ghost use Rattle.fixed_box.specs.World.{InWorld, BoxInWorld, TriInWorld};
ghost use Rattle.fixed_box.specs.Extent.{tri_box};
ghost use Rattle.radix_tree.specs.Ranges.{HasRange};
ghost use Rattle.radix_tree.specs.Table.{IsTable};
ghost use Rattle.radix_tree.specs.Fit.{IsFitted};
ghost use Rattle.radix_tree.specs.Filling.{IsChild};
ghost use Rattle.segment_hit.specs.FractionOrder.{IsBehind};
ghost use Rattle.traversal.specs.Nearest.{triangle_of};
ghost use Rattle.traversal.specs.Nearing.{StandsIn, Screens};

use crate::Triangles;
use fixed_box::{Box3, Point, box_of};
use radix_tree::{Child, Tree};
use segment_hit::{Entry, Frac, entry};

/// A child, and where the segment enters the box round the triangles below it, if it does not miss it.
#[derive(Clone, Copy, Drop)]
pub(crate) struct Approach {
    pub(crate) child: Child,
    pub(crate) at: Option<Entry>,
}

/// The box round the triangles below a child.
fn box_below<S: Triangles>(t: &Tree, tris: &S, child: Child) -> Box3
    requires table { IsTable t.now }
    requires fitted { IsFitted t.now (map tri_box (S.list tris.now)) }
    requires tris { All TriInWorld (S.list tris.now) }
    requires child { IsChild t.now child }
    ensures world { BoxInWorld result }
    ensures contains { (a b n : ℕ) → HasRange t.now.keys child a b → StandsIn t.now.keys a b n →
        Contains result (tri_box (triangle_of (S.list tris.now) n)) }
{
    match child {
        Child::Leaf(position) => box_of(&tris.triangle(t.keys()[position as usize].tri)),
        Child::Inner(number) => t.nodes()[number as usize].fit,
    }
}

/// The child with the place where the segment enters its box.
pub(crate) fn approach_to<S: Triangles>(
    t: &Tree,
    tris: &S,
    p: Point,
    q: Point,
    child: Child,
) -> Approach
    requires table { IsTable t.now }
    requires fitted { IsFitted t.now (map tri_box (S.list tris.now)) }
    requires tris { All TriInWorld (S.list tris.now) }
    requires p { InWorld p }
    requires q { InWorld q }
    requires child { IsChild t.now child }
    ensures child { result.child ≡ child }
    ensures screens { (a b : ℕ) → HasRange t.now.keys child a b →
        Screens (S.list tris.now) p q (StandsIn t.now.keys a b) result.at }
{
    Approach {
        child,
        at: entry(p, q, &box_below(t, tris, child)),
    }
}

/// Whether the second child is to be looked at first: where the segment enters its box before the first one's.
fn is_sooner(first: &Approach, second: &Approach) -> bool {
    match (&first.at, &second.at) {
        (Some(a), Some(b)) => b.is_before(a),
        _ => false,
    }
}

/// Both children, in the order in which the segment enters their boxes; as they are, where it enters both at once.
pub(crate) fn in_order(first: Approach, second: Approach) -> (Approach, Approach)
    ensures { (result ≡ (first, second)) ⊎ (result ≡ (second, first)) }
{
    if is_sooner(&first, &second) {
        (second, first)
    } else {
        (first, second)
    }
}

/// Whether a box that is entered there holds no hit as near as the best one so far.
pub(crate) fn is_too_far(at: &Entry, best: &Option<(u32, Frac)>) -> bool
    ensures { IsTrue result → IsSomeAnd best.now (λ h. IsBehind at.now h.1) }
{
    match best {
        Some((_, fraction)) => at.is_behind(fraction),
        None => false,
    }
}
