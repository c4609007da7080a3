//! A segment that is reckoned once, for many boxes: its three axes over one denominator, so that where it comes to a
//! side of a box is a whole number over that denominator. All bounds follow from the width of the world.

ghost use Rattle.std.specs.Prelude.{pos, ◌<ℤ◌, ◌≤◌, unsigned_abs};
ghost use Rattle.fixed_box.specs.World.{IsCoordinate};
ghost use Rattle.segment_hit.specs.declared.vectors.TheConstants.{SQUARE};
ghost use Rattle.segment_hit.specs.declared.line.TheConstants.{SCALE, WHOLE};

use crate::vectors::{SPAN, SQUARE};

/// The greatest number by which a difference of coordinates is multiplied: twice a product of two differences.
pub const SCALE: u64 = 2 * SQUARE;

/// The greatest product of such a number and a difference. With `SQUARE` more it has to stay below 2^63.
pub const PRODUCT: u64 = SPAN * SCALE;

/// The greatest denominator: a product of three differences.
pub const WHOLE: u64 = SPAN * SQUARE;

/// One axis of a segment: by how much the differences from its start are multiplied, and how much is added where it
/// leaves.
#[derive(Clone, Copy, Debug, Drop)]
pub struct Axis {
    pub from: i32,
    pub rises: bool,
    pub scale: i64,
    pub slack: i64,
    pub ghost from_small: { IsCoordinate from },
    pub ghost scale_small: { unsigned_abs scale ≤ SCALE },
    pub ghost slack_small: { unsigned_abs slack ≤ SQUARE },
}

/// A segment: its three axes, and the denominator that all places on its way are over.
#[derive(Clone, Copy, Debug, Drop)]
pub struct Line {
    pub x: Axis,
    pub y: Axis,
    pub z: Axis,
    pub whole: i64,
    pub ghost above: { pos 0 <ℤ whole },
    pub ghost small: { unsigned_abs whole ≤ WHOLE },
}

/// A place on the way, over the line's denominator: 0 is the start, and the denominator the end.
#[derive(Clone, Copy, Debug, Drop)]
pub struct Place {
    pub at: i64,
}

/// Where a segment enters a box and where it leaves it. It misses the box where it leaves before it enters, or enters past
/// the end of the way.
#[derive(Clone, Copy, Debug, Drop)]
pub struct Passage {
    pub enter: Place,
    pub leave: Place,
}
