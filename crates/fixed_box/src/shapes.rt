//! The plain values that every crate above passes on, and the two numbers that fix their size.
//! Their calls stand in other files, so that contracts can cite definitions over these types.

ghost use Rattle.std.specs.Prelude.{◌≤ℤ◌};

/// Half of the world's width, in grid steps: a coordinate of the world is from `-HALF` to `HALF - 1`, 18 bits.
pub const HALF: i32 = 131072;

/// The greatest count of grid steps to one unit of a file.
pub const UNIT_MAX: u32 = 65536;

/// A point of the grid.
#[derive(Clone, Copy, Debug, PartialEq, Eq, Drop)]
pub struct Point {
    pub x: i32,
    pub y: i32,
    pub z: i32,
}

/// A closed box: a point on its face is in it. It is never empty.
#[derive(Clone, Copy, Debug, PartialEq, Eq, Drop)]
pub struct Box3 {
    pub lo: Point,
    pub hi: Point,
    pub ghost x_rises: { lo.x ≤ℤ hi.x },
    pub ghost y_rises: { lo.y ≤ℤ hi.y },
    pub ghost z_rises: { lo.z ≤ℤ hi.z },
}

/// A triangle, with its corners in the order of its face. Two or all three of them may be one point.
#[derive(Clone, Copy, Debug, PartialEq, Eq, Drop)]
pub struct Tri {
    pub a: Point,
    pub b: Point,
    pub c: Point,
}
