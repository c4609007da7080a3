//! The nearest triangle that a segment meets, by a walk over the list from front to back: of a record's two parts the
//! one that the segment enters first comes first, and what is entered behind the best hit is passed over.

ghost use Rattle.std.specs.Prelude.{◌≡◌, ◌≢◌, ℕ, ◌+◌, ◌<◌, ◌≤◌, length, Some, None, IfSome, IsSome, All, map, ℤ};
ghost use Rattle.fixed_box.specs.World.{InWorld, TriInWorld};
ghost use Rattle.std.specs.Option.{option_map};
ghost use Rattle.fixed_box.specs.Extent.{tri_box};
ghost use Rattle.segment_hit.specs.declared.fraction.Frac.{Frac};
ghost use Rattle.traversal.specs.Nearest.{triangle_of, IsMet, IsNearest};
ghost use Rattle.traversal.specs.NearestOf.{parts_of, nearest_of};
ghost use Rattle.traversal.specs.Nearing.{Nears};
ghost use Rattle.walk_list.specs.Leaves.{leaf_at};
ghost use Rattle.segment_hit.specs.Lines.{IsLineOf, IsPassageOf};
ghost use Rattle.walk_list.specs.Parts.{IsSubtreeAt};
ghost use Rattle.walk_list.specs.Lists.{IsOver};
ghost use Rattle.walk_list.specs.Reaches.{IsLimit, StandsFrom};
ghost use Rattle.walk_list.specs.Records.{record_at};
ghost use Rattle.fixed_box.specs.declared.shapes.Point.{Point};
ghost use Rattle.walk_list.specs.Visits.{IsAim, IsVisit, LeavesOf, AreParts};

use crate::best::Best;
use crate::reaching::{is_shut, renewed};
use crate::visits::Visit;
use crate::{Leaf, Record, WalkList};
use fixed_box::Point;
use segment_hit::{Frac, Line, Place, hit, line_of, passage};
use traversal::{Triangles, better};

/// The leaf at a position.
#[inline]
fn leaf_of(f: &WalkList, position: usize) -> Leaf
    requires { position < length f.now.leaves }
    ensures { result ≡ leaf_at f.now.leaves position }
{
    f.leaves()[position]
}

/// The record of that number.
#[inline]
fn record_of(f: &WalkList, at: usize) -> Record
    requires { at < length f.now.records }
    ensures { result ≡ record_at f.now.records at }
{
    f.records()[at]
}

/// The best hit after a look at the triangle of that number.
fn look_at<S: Triangles>(l: &Line, tris: &S, p: &Point, q: &Point, number: u32, best: Best) -> Best
    requires from_one { 0 < number }
    requires to_count { number ≤ length (S.list tris.now) }
    requires world { TriInWorld (triangle_of (S.list tris.now) number) }
    requires p { InWorld p.now }
    requires q { InWorld q.now }
    requires limit { IsLimit l.now.whole best.hit best.most.at }
    ensures nears { Nears (S.list tris.now) p.now q.now (λ n. n ≡ number) best.hit result.hit }
    ensures limit { IsLimit l.now.whole result.hit result.most.at }
{
    match hit(*p, *q, &tris.triangle(number)) {
        Some(at) => renewed(l, best, number, better(best.hit, (number, at))),
        None => best,
    }
}

/// The best hit after a look at the leaf at a position.
fn look_leaf<S: Triangles>(
    l: &Line,
    f: &WalkList,
    tris: &S,
    p: &Point,
    q: &Point,
    position: usize,
    best: Best,
) -> Best
    requires aim { IsAim f.now (S.list tris.now) p.now q.now l.now }
    requires within { position < length f.now.leaves }
    requires limit { IsLimit l.now.whole best.hit best.most.at }
    ensures nears { Nears (S.list tris.now) p.now q.now (λ n. n ≡ (leaf_at f.now.leaves position).number) best.hit
        result.hit }
    ensures limit { IsLimit l.now.whole result.hit result.most.at }
{
    let leaf = leaf_of(f, position);
    let at = passage(l, &leaf.fit);
    if is_shut(&at, &best) {
        return best;
    }
    look_at(l, tris, p, q, leaf.number, best)
}

/// The best hit after a look at the leaves from a position up to another.
fn look_run<S: Triangles>(
    l: &Line,
    f: &WalkList,
    tris: &S,
    p: &Point,
    q: &Point,
    first: usize,
    end: usize,
    best: Best,
) -> Best
    requires aim { IsAim f.now (S.list tris.now) p.now q.now l.now }
    requires order { first ≤ end }
    requires within { end ≤ length f.now.leaves }
    requires limit { IsLimit l.now.whole best.hit best.most.at }
    ensures nears { Nears (S.list tris.now) p.now q.now (StandsFrom f.now.leaves first end) best.hit result.hit }
    ensures limit { IsLimit l.now.whole result.hit result.most.at }
{
    let mut so_far = best;
    for position in first..end {
        so_far = look_leaf(l, f, tris, p, q, position, so_far);
    }
    so_far
}

/// A visit to a record, at its first leaf's position.
#[inline]
fn visit(l: &Line, f: &WalkList, at: usize, position: usize) -> Visit
    requires within { at < length f.now.records }
    requires subtree { IsSubtreeAt f.now.leaves f.now.records at position }
    ensures at { result.at ≡ at }
    ensures position { result.position ≡ position }
    ensures way { (p q : Point) → IsLineOf p q l.now →
        IsPassageOf p q (record_at f.now.records at).fit l.now.whole result.way }
{
    let r = record_of(f, at);
    Visit {
        at,
        position,
        way: passage(l, &r.fit),
    }
}

/// The visits to a record's two parts, in the order in which the segment enters their boxes.
#[inline]
fn parts(l: &Line, f: &WalkList, v: &Visit) -> (Visit, Visit)
    requires within { v.now.at < length f.now.records }
    requires subtree { IsSubtreeAt f.now.leaves f.now.records v.now.at v.now.position }
    requires inner { (record_at f.now.records v.now.at).escape ≢ 1 }
    ensures { (p q : Point) → IsLineOf p q l.now → AreParts f.now p q l.now.whole v.now result.0 result.1 }
{
    let records = f.records();
    let left = v.at + 1;
    let own = records[left];
    let right = left + own.escape as usize;
    let to_left = visit(l, f, left, v.position);
    let to_right = visit(l, f, right, own.end as usize);
    if to_right.way.enter.at < to_left.way.enter.at {
        return (to_right, to_left);
    }
    (to_left, to_right)
}

/// The best hit after a visit to a record.
fn look_below<S: Triangles>(
    l: &Line,
    f: &WalkList,
    tris: &S,
    p: &Point,
    q: &Point,
    v: Visit,
    best: Best,
) -> Best
    requires aim { IsAim f.now (S.list tris.now) p.now q.now l.now }
    requires visit { IsVisit f.now p.now q.now l.now.whole v }
    requires limit { IsLimit l.now.whole best.hit best.most.at }
    ensures nears { Nears (S.list tris.now) p.now q.now (LeavesOf f.now v) best.hit result.hit }
    ensures limit { IsLimit l.now.whole result.hit result.most.at }
{
    if is_shut(&v.way, &best) {
        return best;
    }
    let r = record_of(f, v.at);
    if r.escape == 1 {
        return look_run(l, f, tris, p, q, v.position, r.end as usize, best);
    }
    let (sooner, later) = parts(l, f, &v);
    let nearer = look_below(l, f, tris, p, q, sooner, best);
    look_below(l, f, tris, p, q, later, nearer)
}

/// The best hit after a look at all leaves.
fn look_all<S: Triangles>(
    l: &Line,
    f: &WalkList,
    tris: &S,
    p: &Point,
    q: &Point,
    best: Best,
) -> Best
    requires aim { IsAim f.now (S.list tris.now) p.now q.now l.now }
    requires limit { IsLimit l.now.whole best.hit best.most.at }
    ensures nears { Nears (S.list tris.now) p.now q.now (StandsFrom f.now.leaves 0 (length f.now.leaves)) best.hit
        result.hit }
{
    if f.records().is_empty() {
        return best;
    }
    let whole = visit(l, f, 0, 0);
    look_below(l, f, tris, p, q, whole, best)
}

/// No hit, so all of the way is to be looked at.
fn nothing(l: &Line) -> Best
    ensures none { result.hit ≡ None }
    ensures limit { IsLimit l.now.whole result.hit result.most.at }
{
    Best {
        hit: None,
        most: Place { at: l.whole },
    }
}

/// The nearest triangle that the segment from `p` to `q` meets, with the fraction of the way, as
/// `traversal::nearest_among` answers it over the tree.
///
/// The list has to be over the boxes of the triangles. 0/1 is `p` and 1/1 is `q`; both ends count, and so do a
/// triangle's edges. Of triangles met at the same fraction the lowest number is answered. A triangle of no area is
/// never met, nor one whose plane the segment is parallel to. It takes no memory, and its recursion is at most one call
/// deeper than the tree is high.
pub fn nearest_among<S: Triangles>(
    f: &WalkList,
    tris: &S,
    p: Point,
    q: Point,
) -> Option<(u32, Frac)>
    requires over { IsOver f.now (map tri_box (S.list tris.now)) }
    requires tris { All TriInWorld (S.list tris.now) }
    requires p { InWorld p }
    requires q { InWorld q }
    ensures found { IfSome result (λ h. IsNearest (S.list tris.now) p q h.0 h.1) }
    // so it is None only where no triangle is met
    ensures only { (number : ℕ) (at : Frac) → IsMet (S.list tris.now) p q number at → IsSome result }
    // the same as one equation: the answer's parts are those of the definition
    ensures value { option_map parts_of result ≡ nearest_of (S.list tris.now) p q }
{
    let l = line_of(&p, &q);
    let start = nothing(&l);
    let end = look_all(&l, f, tris, &p, &q, start);
    end.hit
}
