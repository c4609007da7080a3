//! How far a position's neighbours share more than so many bits with it.
//! A prefix never grows with the distance, so doubling and then halving finds the last one that is long enough.

ghost use Rattle.std.specs.Prelude.{◌<◌, ◌+◌, ◌↔◌, IsTrue, length};
ghost use Rattle.morton_key.specs.Keys.{IsLawful};
ghost use Rattle.karras_build.specs.Reaching.{Reaches};

use crate::ways::Way;
use morton_key::{Key, common_prefix};

/// Whether the position so far from `at` is in the list and shares more than `floor` bits with it.
fn reaches(keys: &[Key], at: usize, way: Way, distance: usize, floor: u32) -> bool
    requires lawful { IsLawful keys.now }
    requires within { at < length keys.now }
    ensures { IsTrue result ↔ Reaches keys.now at way distance floor }
{
    match way {
        Way::Up => distance < keys.len() - at && common_prefix(keys, at, at + distance) > floor,
        Way::Down => distance <= at && common_prefix(keys, at - distance, at) > floor,
    }
}

/// The greatest distance that reaches, where a distance of 1 does.
pub(crate) fn furthest(keys: &[Key], at: usize, way: Way, floor: u32) -> usize
    requires lawful { IsLawful keys.now }
    requires within { at < length keys.now }
    requires next { Reaches keys.now at way 1 floor }
    ensures some { 0 < result }
    ensures reaches { Reaches keys.now at way result floor }
    ensures ends { Reaches keys.now at way (result + 1) floor → ⊥ }
{
    let mut near = 1;
    let mut far = 2;
    'doubling: while reaches(keys, at, way, far, floor) {
        near = far;
        far *= 2;
    }
    'halving: while near + 1 < far {
        let middle = near + (far - near) / 2;
        if reaches(keys, at, way, middle, floor) {
            near = middle;
        } else {
            far = middle;
        }
    }
    near
}
