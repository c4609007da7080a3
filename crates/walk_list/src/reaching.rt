//! How far a walk still has to look: up to the last place of the line that is not behind the best hit.

ghost use Rattle.std.specs.Prelude.{◌≡◌, ℕ, ◌⊎◌, pos, ◌≤ℤ◌, IsTrue, Some};
ghost use Rattle.walk_list.specs.Reaches.{IsReach, IsLimit, IsShut};

use crate::best::Best;
use segment_hit::{Frac, Line, Passage, reach};

/// The best hit `h`, with how far it lets a walk look: as before where it is the one before.
pub(crate) fn renewed(l: &Line, best: Best, number: u32, h: (u32, Frac)) -> Best
    requires limit { IsLimit l.now.whole best.hit best.most.at }
    requires begun { pos 0 ≤ℤ h.1.num }
    requires ended { h.1.num ≤ℤ h.1.den }
    requires parts { (best.hit ≡ Some h) ⊎ (h.0 ≡ number) }
    ensures hit { result.hit ≡ Some h }
    ensures limit { IsReach l.now.whole h result.most.at }
{
    if h.0 == number {
        return Best {
            hit: Some(h),
            most: reach(l, &h.1),
        };
    }
    Best {
        hit: Some(h),
        most: best.most,
    }
}

/// Whether a box is missed, or entered behind the best hit. One that is entered just at the hit is not shut: it may
/// hold a triangle of a lower number that is hit as near.
#[inline]
pub(crate) fn is_shut(way: &Passage, best: &Best) -> bool
    ensures { IsTrue result → IsShut way.now best.now.most.at }
{
    if way.leave.at < way.enter.at {
        return true;
    }
    if best.most.at < way.enter.at {
        return true;
    }
    false
}
