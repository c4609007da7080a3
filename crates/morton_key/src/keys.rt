//! The key of a triangle, and the sizes of its parts in bits.
//! The derived order is the one that keys are sorted by: the code first, then the number.

use fixed_box::HALF;

/// How often the world is halved on each axis, and so the bits that a code takes of a coordinate.
pub const LEVELS: u32 = 18;

/// The bits of a code: one of each axis for each level.
pub const WIDTH: u32 = 3 * LEVELS;

/// The bits of a position in a list of keys, which holds at most `2 ^ POSITION_WIDTH` of them.
pub const POSITION_WIDTH: u32 = 20;

// a coordinate of the world, counted from the lower end, has LEVELS bits
const _: () = prove!(2 * HALF == 1 << LEVELS);

/// The key of one triangle.
#[derive(Clone, Copy, Debug, PartialEq, Eq, PartialOrd, Ord, Drop)]
pub struct Key {
    /// The Morton code of the centre of the triangle's box, below `2 ^ WIDTH`.
    pub code: u64,
    /// The triangle's number, from 1.
    pub tri: u32,
}
