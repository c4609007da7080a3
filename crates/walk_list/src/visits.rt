//! Where a walk over the list stands.

use segment_hit::Passage;

/// A record, the position of its first leaf, and how the segment goes through its box.
#[derive(Clone, Copy, Drop)]
pub struct Visit {
    pub at: usize,
    pub position: usize,
    pub way: Passage,
}
