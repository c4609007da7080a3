//! What workers climb, lent to each event.

use fixed_box::Box3;
use radix_tree::Tree;

/// The tree, a box for each triangle, the live positions, and how many batches these make.
#[derive(Clone, Copy, Debug)]
pub(crate) struct Terrain<'a> {
    pub(crate) tree: &'a Tree,
    pub(crate) boxes: &'a [Box3],
    pub(crate) live: &'a [u32],
    pub(crate) batches: u32,
}
