//! The order of two fractions, by cross products: a product of two `i64` always fits an `i128`.

ghost use Rattle.std.specs.Prelude.{◌≡◌, ◌↔◌, ◌*ℤ◌, IsTrue};
ghost use Rattle.segment_hit.specs.FractionOrder.{frac_cmp, IsBefore, IsBehind};

use crate::arithmetic::times;
use crate::vectors::SPAN;
use crate::{Entry, Frac};
use std::cmp::Ordering;

fn product(a: i64, b: i64) -> i128
    ensures { result ≡ a *ℤ b }
{
    i128::from(a) * i128::from(b)
}

/// Which of the two fractions is the lesser. It is `Equal` for equal fractions alone.
pub fn cmp(a: &Frac, b: &Frac) -> Ordering
    ensures { result ≡ frac_cmp a.now b.now }
{
    product(a.num, b.den).cmp(&product(b.num, a.den))
}

impl Entry {
    /// Whether this entry is a lesser fraction of the way than the other one. Equal fractions are not.
    #[inline]
    pub fn is_before(&self, other: &Entry) -> bool
        ensures { IsTrue result ↔ IsBefore self.now other.now }
    {
        times::<SPAN, SPAN>(self.num, other.den) < times::<SPAN, SPAN>(other.num, self.den)
    }

    /// Whether this entry is a greater fraction of the way than `hit`: a box that is entered there holds no hit as
    /// near as that one. An equal fraction is not.
    #[inline]
    pub fn is_behind(&self, hit: &Frac) -> bool
        ensures { IsTrue result ↔ IsBehind self.now hit.now }
    {
        product(hit.num, self.den) < product(self.num, hit.den)
    }
}
