//! The numbers that bound a line of a script.

/// The most bytes of a line, without its line feed.
pub const LINE_MOST: usize = 1000;

/// The greatest coordinate of the corner of a queried box, in grid steps; the least is its opposite.
pub const REACH: i64 = 2_147_483_647;
