//! A stretch of a segment's way, between two fractions that need not be in lowest terms. Their parts are differences of
//! coordinates of the world, so that products of two fit an `i64`.

ghost use Rattle.std.specs.Prelude.{pos, ◌≤ℤ◌, ◌<ℤ◌};
ghost use Rattle.segment_hit.specs.declared.vectors.TheConstants.{SPAN};

/// A fraction of a segment's way, from 0 to 1, which need not be in lowest terms: equal fractions may have other fields.
#[derive(Clone, Copy, Debug, Drop)]
pub struct Entry {
    pub num: i64,
    pub den: i64,
    pub ghost begun: { pos 0 ≤ℤ num },
    pub ghost ended: { num ≤ℤ den },
    pub ghost above: { pos 0 <ℤ den },
    pub ghost small: { den ≤ℤ pos SPAN },
}

/// The way from `enter` to `leave`, both included. There is none where `leave` is before `enter`.
#[derive(Clone, Copy, Drop)]
pub struct Stretch {
    pub enter: Entry,
    pub leave: Entry,
}
