//! What lies in the world, and the middle of a box there. In the world a sum of two coordinates fits its type.

ghost use Rattle.std.specs.Prelude.{◌↔◌, IsTrue};
ghost use Rattle.fixed_box.specs.World.{IsCoordinate, InWorld, BoxInWorld};
ghost use Rattle.fixed_box.specs.Centre.{IsMiddle, IsCentre};

use crate::{Box3, HALF, Point};

/// Whether the number is from `-HALF` to `HALF - 1`.
fn is_coordinate(x: i32) -> bool
    ensures { IsTrue result ↔ IsCoordinate x }
{
    -HALF <= x && x < HALF
}

/// Whether each coordinate of the point is from `-HALF` to `HALF - 1`.
pub fn in_world(p: &Point) -> bool
    ensures { IsTrue result ↔ InWorld p.now }
{
    is_coordinate(p.x) && is_coordinate(p.y) && is_coordinate(p.z)
}

/// Half of the sum of two coordinates, rounded down.
fn middle(lo: i32, hi: i32) -> i32
    requires lo { IsCoordinate lo }
    requires hi { IsCoordinate hi }
    ensures middle { IsMiddle lo result hi }
    ensures world { IsCoordinate result }
{
    (lo + hi).div_euclid(2)
}

/// The middle of the box, rounded down on each axis.
pub fn centre(b: &Box3) -> Point
    requires { BoxInWorld b.now }
    ensures middle { IsCentre b.now result }
    ensures world { InWorld result }
{
    Point {
        x: middle(b.lo.x, b.hi.x),
        y: middle(b.lo.y, b.hi.y),
        z: middle(b.lo.z, b.hi.z),
    }
}
