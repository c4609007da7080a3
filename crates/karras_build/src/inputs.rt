//! What a fit reads, lent to every part of it, and how a node parts its range.

use crate::Span;
use fixed_box::Box3;
use morton_key::Key;

/// The keys, their spans, and the boxes of the triangles.
#[derive(Clone, Copy)]
pub(crate) struct Inputs<'a> {
    pub(crate) keys: &'a [Key],
    pub(crate) spans: &'a [Span],
    pub(crate) boxes: &'a [Box3],
}

/// The range of a node, both ends in it, and the last position of its left half.
#[derive(Clone, Copy)]
pub(crate) struct Cut {
    pub(crate) first: usize,
    pub(crate) split: usize,
    pub(crate) last: usize,
}
