//! Segments against many boxes, over one denominator: the product of the ways on the three axes, where an axis with no
//! way counts as 1. A box is entered at the last of the entries of its three axes, and left at the first of the exits:
//! six products, and comparisons of whole numbers.

ghost use Rattle.std.specs.Prelude.{◌≡◌, ℤ, pos, ◌⊎◌, ◌+ℤ◌, ◌-ℤ◌, ◌*ℤ◌, ◌*◌, ◌≤◌, ◌<ℤ◌, ◌≤ℤ◌, ◌<◌, ◌^◌, unsigned_abs};
ghost use Rattle.fixed_box.specs.World.{InWorld, BoxInWorld};
ghost use Rattle.fixed_box.specs.declared.shapes.Point.{Point};
ghost use Rattle.segment_hit.specs.declared.vectors.TheConstants.{SPAN, SQUARE};
ghost use Rattle.segment_hit.specs.declared.line.TheConstants.{WHOLE};
ghost use Rattle.segment_hit.specs.Lines.{entry_of, exit_of, IsLineOf, IsPassageOf};
ghost use Rattle.segment_hit.specs.Places.{IsLaterPlace, IsSoonerPlace};

use crate::arithmetic::times;
use crate::crossings::{axis_of, entry_at, exit_at, way};
use crate::line::{Axis, Line, Passage, Place};
use crate::vectors::{SPAN, SQUARE};
use fixed_box::{Box3, Point};

/// The product of two ways.
fn product<const M: u64, const N: u64>(a: i64, b: i64) -> i64
    requires first { unsigned_abs a ≤ M }
    requires second { unsigned_abs b ≤ N }
    requires fits { M * N < 2 ^ 63 }
    requires a_above { pos 0 <ℤ a }
    requires b_above { pos 0 <ℤ b }
    ensures value { result ≡ a *ℤ b }
    ensures size { unsigned_abs result ≤ M * N }
    ensures above { pos 0 <ℤ result }
{
    times::<M, N>(a, b)
}

/// The line of these parts.
fn joined(x: Axis, y: Axis, z: Axis, whole: i64) -> Line
    requires above { pos 0 <ℤ whole }
    requires small { unsigned_abs whole ≤ WHOLE }
    ensures x { result.x ≡ x }
    ensures y { result.y ≡ y }
    ensures z { result.z ≡ z }
    ensures whole { result.whole ≡ whole }
{
    Line { x, y, z, whole }
}

/// The segment from `p` to `q`, reckoned for `passage`.
pub fn line_of(p: &Point, q: &Point) -> Line
    requires p { InWorld p.now }
    requires q { InWorld q.now }
    ensures { IsLineOf p.now q.now result }
{
    let x = way(p.x, q.x);
    let y = way(p.y, q.y);
    let z = way(p.z, q.z);
    let yz = product::<SPAN, SPAN>(y, z);
    let xz = product::<SPAN, SPAN>(x, z);
    let xy = product::<SPAN, SPAN>(x, y);
    let whole = product::<SPAN, SQUARE>(x, yz);
    let on_x = axis_of(p.x, q.x, x, yz, whole);
    let on_y = axis_of(p.y, q.y, y, xz, whole);
    let on_z = axis_of(p.z, q.z, z, xy, whole);
    joined(on_x, on_y, on_z, whole)
}

/// The later of two places.
#[inline]
fn later(a: Place, b: Place) -> Place
    ensures { IsLaterPlace a b result }
{
    if a.at < b.at { b } else { a }
}

/// The sooner of two places.
#[inline]
fn sooner(a: Place, b: Place) -> Place
    ensures { IsSoonerPlace a b result }
{
    if a.at < b.at { a } else { b }
}

/// The beginning of the way.
#[inline]
fn beginning() -> Place
    ensures { result.at ≡ pos 0 }
{
    Place { at: 0 }
}

/// Where the segment enters the box and leaves it: between these places, both included, it is in the box, and nowhere
/// else on its way. Where it misses the box it leaves before it enters, or enters past the end of the way.
///
/// It divides nowhere and has no branch: for walks over trees, which test many boxes.
#[inline]
pub fn passage(l: &Line, b: &Box3) -> Passage
    requires { BoxInWorld b.now }
    ensures { (p q : Point) → IsLineOf p q l.now → IsPassageOf p q b.now l.now.whole result }
{
    let x = entry_at(&l.x, b.lo.x, b.hi.x);
    let y = entry_at(&l.y, b.lo.y, b.hi.y);
    let z = entry_at(&l.z, b.lo.z, b.hi.z);
    let to_x = exit_at(&l.x, b.lo.x, b.hi.x);
    let to_y = exit_at(&l.y, b.lo.y, b.hi.y);
    let to_z = exit_at(&l.z, b.lo.z, b.hi.z);
    Passage {
        enter: later(later(later(beginning(), x), y), z),
        leave: sooner(sooner(to_x, to_y), to_z),
    }
}
