//! Differences of points of the world, products of two, and products of three, each with the bound that its parts keep.
//! All bounds follow from the width of the world.

ghost use Rattle.std.specs.Prelude.{◌≤◌, unsigned_abs};
ghost use Rattle.segment_hit.specs.declared.vectors.TheConstants.{SPAN, AREA, VOLUME};

/// The greatest difference of two coordinates of the world.
pub const SPAN: u64 = 2 * (fixed_box::HALF as u64) - 1;

/// The greatest product of two differences.
pub const SQUARE: u64 = SPAN * SPAN;

/// The greatest part of a cross product of two differences.
pub const AREA: u64 = 2 * SQUARE;

/// The greatest product of a difference and a part of a cross product.
pub const BAR: u64 = SPAN * AREA;

/// The greatest sum of two of these.
pub const TWO_BARS: u64 = 2 * BAR;

/// The greatest determinant of three differences, as a sum of three such products. It has to stay below 2^63.
pub const VOLUME: u64 = 3 * BAR;

/// A difference of two points of the world.
#[derive(Clone, Copy, Drop)]
pub struct Arrow {
    pub x: i64,
    pub y: i64,
    pub z: i64,
    ghost x_small: { unsigned_abs x ≤ SPAN },
    ghost y_small: { unsigned_abs y ≤ SPAN },
    ghost z_small: { unsigned_abs z ≤ SPAN },
}

/// A cross product of two differences.
#[derive(Clone, Copy, Drop)]
pub struct Area {
    pub x: i64,
    pub y: i64,
    pub z: i64,
    ghost x_small: { unsigned_abs x ≤ AREA },
    ghost y_small: { unsigned_abs y ≤ AREA },
    ghost z_small: { unsigned_abs z ≤ AREA },
}

/// The determinants of a segment and a triangle: how far the segment's way crosses the plane, how much of it lies
/// before the plane, and the weights of the second and third corner at the meeting, all on the scale of `whole`.
#[derive(Clone, Copy, Drop)]
pub struct Determinants {
    pub whole: i64,
    pub time: i64,
    pub second: i64,
    pub third: i64,
    ghost whole_small: { unsigned_abs whole ≤ VOLUME },
    ghost time_small: { unsigned_abs time ≤ VOLUME },
    ghost second_small: { unsigned_abs second ≤ VOLUME },
    ghost third_small: { unsigned_abs third ≤ VOLUME },
}
