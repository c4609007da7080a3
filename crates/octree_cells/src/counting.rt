//! The count of all cells, read from neighbouring keys.
//! At a key a cell begins at each level that it shares with the next key and not with the one before it.

ghost use Rattle.std.specs.Prelude.{◌≡◌};
ghost use Rattle.octree_cells.specs.CellsOf.{cell_count_of};

use crate::sharing::shared_level;
use radix_tree::Tree;

/// The count of the cells of all levels, 0 to `LEVELS`, in one pass over the keys. It takes no memory.
pub fn count(t: &Tree) -> u64
    ensures { result ≡ cell_count_of t.now.keys }
{
    let keys = t.keys();
    let mut total = 0;
    let mut before = 0;
    for i in 1..keys.len() {
        // the levels from 0 to the shared one
        let levels = shared_level(keys, i - 1, i) + 1;
        total += u64::from(levels.saturating_sub(before));
        before = levels;
    }
    total
}
