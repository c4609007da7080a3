//! The fraction of a hit as a reply carries it. Contracts see it as its two parts, so that a reply can be defined by
//! numbers alone.

ghost use Rattle.std.specs.Prelude.{◌≡◌};
ghost use Rattle.segment_hit.specs.HitOf.{ratio_of};

use segment_hit::Frac;
use std::marker::Model;

/// The fraction of a segment's way at which it hits a triangle. Contracts see it as its two parts.
#[derive(Debug, Drop)]
pub struct HitFraction {
    frac: Frac,
}

impl Model for HitFraction {
    ghost use Rattle.segment_hit.specs.HitOf.{Ratio, ratio_of};

    ghost Value = { Ratio };

    ghost view = { λ at. ratio_of at.frac };
}

impl HitFraction {
    /// This fraction.
    pub fn new(frac: Frac) -> HitFraction
        ensures { result ≡ ratio_of frac }
    {
        HitFraction { frac }
    }

    /// The fraction, in lowest terms.
    pub fn frac(&self) -> Frac
        ensures { ratio_of result ≡ self.now }
    {
        self.frac
    }
}
