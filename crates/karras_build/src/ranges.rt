//! The range and the split of one inner node, before it has a box.

/// The positions of an inner node, both ends in it, and where they are parted.
///
/// The left child has the positions from `first` to `split`, the right one those from `split + 1` to `last`.
#[derive(Clone, Copy, Debug, PartialEq, Eq, Drop)]
pub struct Span {
    pub first: u32,
    pub last: u32,
    pub split: u32,
}
