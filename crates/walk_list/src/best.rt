//! The best hit of a walk, and the last place on the way at which a box may be entered that holds one as near.

use segment_hit::{Frac, Place};

/// The best hit so far, with its triangle's number, and that place.
#[derive(Clone, Copy, Drop)]
pub struct Best {
    pub hit: Option<(u32, Frac)>,
    pub most: Place,
}
