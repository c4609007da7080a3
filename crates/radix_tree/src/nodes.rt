//! The inner nodes of a tree, as they stand in its table, and what stands below one.

use fixed_box::Box3;

/// An inner node: its range of positions, both ends in it, where it is parted, and its box.
///
/// The left child has the positions from `first` to `split`, the right one those from `split + 1` to `last`.
#[derive(Clone, Copy, Debug, PartialEq, Eq, Drop)]
pub struct Node {
    pub first: u32,
    pub last: u32,
    pub split: u32,
    /// The box round the boxes of the triangles in the range, once it is fitted.
    pub fit: Box3,
}

/// A child of an inner node.
#[derive(Clone, Copy, Debug, PartialEq, Eq, Drop)]
pub enum Child {
    /// The position of one key.
    Leaf(u32),
    /// The number of an inner node.
    Inner(u32),
}
