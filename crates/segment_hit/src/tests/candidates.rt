//! A second way to an entry, for small numbers: of 0 and all fractions at which the segment is at a side of the box, the
//! least at which it is in the box. Nothing wraps: coordinates are from 0 to 7.

use fixed_box::{Box3, Point};

/// The way on one axis, and the sides of the box there.
#[derive(Clone, Copy, Drop)]
struct Axis {
    from: i64,
    to: i64,
    lo: i64,
    hi: i64,
}

impl Axis {
    fn new(from: i32, to: i32, lo: i32, hi: i32) -> Axis {
        Axis {
            from: i64::from(from),
            to: i64::from(to),
            lo: i64::from(lo),
            hi: i64::from(hi),
        }
    }

    fn way(&self) -> i64 {
        self.to.wrapping_sub(self.from)
    }

    /// Whether it is between the sides at `time / whole` of the way.
    fn is_between(&self, time: i64, whole: i64) -> bool {
        let there = self
            .from
            .wrapping_mul(whole)
            .wrapping_add(self.way().wrapping_mul(time));
        self.lo.wrapping_mul(whole) <= there && there <= self.hi.wrapping_mul(whole)
    }

    /// Where it is at that side, over a number that is not below 0.
    fn reaches(&self, side: i64) -> (i64, i64) {
        let time = side.wrapping_sub(self.from);
        let whole = self.way();
        if whole < 0 {
            (time.wrapping_neg(), whole.wrapping_neg())
        } else {
            (time, whole)
        }
    }
}

/// The fraction of the way at which the segment enters the box, not in lowest terms.
pub fn entered(p: &Point, q: &Point, b: &Box3) -> Option<(i64, i64)> {
    let axes = [
        Axis::new(p.x, q.x, b.lo.x, b.hi.x),
        Axis::new(p.y, q.y, b.lo.y, b.hi.y),
        Axis::new(p.z, q.z, b.lo.z, b.hi.z),
    ];
    let candidates = [
        (0, 1),
        axes[0].reaches(axes[0].lo),
        axes[0].reaches(axes[0].hi),
        axes[1].reaches(axes[1].lo),
        axes[1].reaches(axes[1].hi),
        axes[2].reaches(axes[2].lo),
        axes[2].reaches(axes[2].hi),
    ];
    let mut least: Option<(i64, i64)> = None;
    for (time, whole) in candidates {
        let on_the_way = 0 < whole && 0 <= time && time <= whole;
        let inside = axes[0].is_between(time, whole)
            && axes[1].is_between(time, whole)
            && axes[2].is_between(time, whole);
        let first = match least {
            Some((before, all)) => time.wrapping_mul(all) < before.wrapping_mul(whole),
            None => true,
        };
        if on_the_way && inside && first {
            least = Some((time, whole));
        }
    }
    least
}
