//! The way up in a tree that is there already. A range [a, b] is a left child of the node with split b, if that begins
//! at a, or a right child of the one with split a - 1, if that ends at b: two looks at a list tell its parent.
ghost use Rattle.std.specs.Prelude.{◌≡◌, ◌<◌, ◌-◌, ℕ, length, IfOk, true, false, slice_index_or};
ghost use Rattle.box_handoff.specs.Ends.{AreEnds};

use crate::ways::Ways;
use arrival_core::{Side, Up};
use outside::Memory;
use radix_tree::Tree;
use std::alloc::Global;

/// The first and the last position of each inner node, by its split. Of the two nodes that may stand above a range, at
/// most one has it for a child.
#[derive(Drop)]
pub struct TreeWays {
    pub(crate) first: Vec<u32>,
    pub(crate) last: Vec<u32>,
}

impl Ways for TreeWays {
    ghost stands = { λ w keys. AreEnds keys w.first.items w.last.items };

    fn parent(&self, first: u32, last: u32) -> Option<Up> {
        if stands_at(&self.first, last as usize, first) {
            return Some(Up {
                split: last,
                side: Side::Left,
            });
        }
        if first == 0 {
            return None;
        }
        if stands_at(&self.last, first as usize - 1, last) {
            return Some(Up {
                split: first - 1,
                side: Side::Right,
            });
        }
        None
    }
}

/// Whether that end stands at a place.
fn stands_at(ends: &Vec<u32>, place: usize, end: u32) -> bool
    ensures yes { result ≡ true → (place < length ends.now.items) × (slice_index_or ends.now.items place 0 ≡ end) }
    ensures no { result ≡ false → place < length ends.now.items → slice_index_or ends.now.items place 0 ≡ end → ⊥ }
{
    place < ends.len() && ends[place] == end
}

/// So many zeros.
fn blank(alloc: Global, count: usize) -> Result<Vec<u32>, Memory>
    ensures { IfOk result (λ v. length v.items ≡ count) }
{
    vec![in alloc; 0u32; count].map_err(|_| Memory)
}

impl TreeWays {
    /// The way up in the tree of which these are the first and the last position of each inner node, by its split. It
    /// takes no memory.
    pub fn by_split(first: Vec<u32>, last: Vec<u32>) -> TreeWays
        ensures first { result.first.items ≡ first.items }
        ensures last { result.last.items ≡ last.items }
    {
        TreeWays { first, last }
    }

    /// The way up in a tree. It takes memory for two numbers a node.
    pub fn of(alloc: Global, tree: &Tree) -> Result<TreeWays, Memory>
        ensures { IfOk result (λ w. AreEnds tree.now.keys w.first.items w.last.items) }
    {
        let nodes = tree.nodes();
        let mut first = blank(alloc, nodes.len())?;
        let mut last = blank(alloc, nodes.len())?;
        for i in 0..nodes.len() {
            let node = nodes[i];
            first[node.split as usize] = node.first;
            last[node.split as usize] = node.last;
        }
        Ok(TreeWays { first, last })
    }
}
