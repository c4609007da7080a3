//! What is summed of the replies of one pass.

/// The sums of a pass, wide enough for any replies.
#[derive(Clone, Copy, Debug, PartialEq, Eq, Drop)]
pub struct Sums {
    /// How many segments strike a triangle.
    pub hits: u64,
    /// How many strike none.
    pub misses: u64,
    /// The sum of the numbers of the triangles that are struck.
    pub numbers: u128,
    /// How many triangles' boxes meet the boxes, in sum.
    pub overlaps: u128,
    /// The sum of the boxes' works.
    pub work: u128,
}
