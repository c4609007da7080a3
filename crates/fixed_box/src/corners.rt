//! Points compared axis by axis. Boxes are compared and joined by their corners, so the box calls rest on these.

ghost use Rattle.std.specs.Prelude.{◌≡◌, ◌↔◌, IsTrue};
ghost use Rattle.std.specs.Int.{int_min, int_max};
ghost use Rattle.fixed_box.specs.Corners.{IsAtMost};

use crate::Point;

/// Whether `p` is at most `q` on every axis.
pub fn at_most(p: &Point, q: &Point) -> bool
    ensures { IsTrue result ↔ IsAtMost p.now q.now }
{
    if q.x < p.x {
        return false;
    }
    if q.y < p.y {
        return false;
    }
    if q.z < p.z {
        return false;
    }
    true
}

/// The lesser coordinate on each axis.
pub fn least(p: &Point, q: &Point) -> Point
    ensures x { result.x ≡ int_min p.now.x q.now.x }
    ensures y { result.y ≡ int_min p.now.y q.now.y }
    ensures z { result.z ≡ int_min p.now.z q.now.z }
{
    Point {
        x: p.x.min(q.x),
        y: p.y.min(q.y),
        z: p.z.min(q.z),
    }
}

/// The greater coordinate on each axis.
pub fn greatest(p: &Point, q: &Point) -> Point
    ensures x { result.x ≡ int_max p.now.x q.now.x }
    ensures y { result.y ≡ int_max p.now.y q.now.y }
    ensures z { result.z ≡ int_max p.now.z q.now.z }
{
    Point {
        x: p.x.max(q.x),
        y: p.y.max(q.y),
        z: p.z.max(q.z),
    }
}
