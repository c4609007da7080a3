//! The way up from a range by what its ends share with their neighbours outside.

ghost use Rattle.std.specs.Prelude.{◌≡◌, ℕ, ◌+◌, ◌<◌, ◌≤◌, length, true, false, IfOk};
ghost use Rattle.morton_key.specs.Keys.{IsLawful};
ghost use Rattle.radix_tree.specs.Ranges.{IsRange};
ghost use Rattle.apetrei_build.specs.Parents.{NearerIsAbove};
ghost use Rattle.apetrei_build.specs.Measures.{AreMeasures};
ghost use Rattle.apetrei_build.specs.Neighbours.{IsNearerBehind};

use box_handoff::{Side, Up, Ways};
use morton_key::{Key, common_prefix};
use outside::Memory;
use std::alloc::{AllocError, Global};

/// The measure of each key and the next one: how long a prefix they share. It has one byte, since no measure is above
/// `WIDTH + POSITION_WIDTH`.
#[derive(Drop)]
pub struct Deltas {
    pub(crate) measures: Vec<u8>,
}

/// The measures of all neighbours, in order.
fn listed(alloc: Global, keys: &[Key]) -> Result<Vec<u8>, AllocError>
    requires lawful { IsLawful keys.now }
    requires some { 0 < length keys.now }
    ensures { IfOk result (λ measures. AreMeasures keys.now measures.items) }
{
    let count = keys.len() - 1;
    let mut measures = Vec::with_capacity(alloc, count)?;
    for i in 0..count {
        measures.push(common_prefix(keys, i, i + 1) as u8)?;
    }
    Ok(measures)
}

impl Deltas {
    /// The way up in the tree of the keys, of which there is at least one. It takes memory for one byte a key.
    ///
    /// Two neighbours are the nearer the longer the prefix that they share. The nearer neighbour of a range names its
    /// parent: the one behind it the node that is parted at the range's end, the one before it the node that is parted
    /// before its first position. The whole has no parent (Apetrei, 2014).
    pub fn new(alloc: Global, keys: &[Key]) -> Result<Deltas, Memory>
        requires lawful { IsLawful keys.now }
        requires some { 0 < length keys.now }
        ensures measures { IfOk result (λ d. AreMeasures keys.now d.measures.items) }
        ensures law { (a b : ℕ) → IsRange keys.now a b → NearerIsAbove keys.now a b }
    {
        let measures = listed(alloc, keys).map_err(|_| Memory)?;
        Ok(Deltas { measures })
    }
}

/// Whether the key behind a range is nearer to it than the one before it: where there is one behind, and none before
/// that shares as much.
fn is_nearer_behind(measures: &Vec<u8>, first: usize, last: usize) -> bool
    requires { first ≤ last }
    ensures yes { result ≡ true → IsNearerBehind measures.now.items first last }
    ensures no { result ≡ false → IsNearerBehind measures.now.items first last → ⊥ }
{
    last < measures.len() && (first == 0 || measures[first - 1] < measures[last])
}

impl Ways for Deltas {
    ghost stands = { λ d keys. AreMeasures keys d.measures.items };

    fn parent(&self, first: u32, last: u32) -> Option<Up> {
        if is_nearer_behind(&self.measures, first as usize, last as usize) {
            return Some(Up {
                split: last,
                side: Side::Left,
            });
        }
        if first == 0 {
            return None;
        }
        Some(Up {
            split: first - 1,
            side: Side::Right,
        })
    }
}
