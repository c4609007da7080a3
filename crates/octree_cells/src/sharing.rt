//! How far down the octree two keys stay together.
//! Each level takes three bits of a code, so the place of the first bit in which two codes differ tells it.

ghost use Rattle.std.specs.Prelude.{◌≡◌, ◌<◌, ◌≤◌, length};
ghost use Rattle.morton_key.specs.Keys.{IsLawful};
ghost use Rattle.octree_cells.specs.Levels.{shared_level};

use morton_key::{Key, LEVELS, WIDTH};

/// The greatest level at which the keys at two positions have one prefix: `LEVELS` where their codes are equal.
pub(crate) fn shared_level(keys: &[Key], i: usize, j: usize) -> u32
    requires lawful { IsLawful keys.now }
    requires first { i < length keys.now }
    requires second { j < length keys.now }
    ensures value { result ≡ shared_level keys.now i j }
    ensures most { result ≤ LEVELS }
{
    let apart = keys[i].code ^ keys[j].code;
    (apart.leading_zeros() - (u64::BITS - WIDTH)) / 3
}
