//! Where each triangle stands in the order of a tree: the order turned round, in one pass over it.

ghost use Rattle.std.specs.Prelude.{IfOk};
ghost use Rattle.morton_key.specs.Keys.{IsLawful};
ghost use Rattle.world_index.specs.Live.{ArePositions};

use morton_key::Key;
use outside::Memory;
use std::alloc::{AllocError, Global};

/// The position of each triangle in the order of the keys: that of triangle `t` stands at `t - 1`.
pub fn positions_of(alloc: Global, keys: &[Key]) -> Result<Vec<u32>, Memory>
    requires { IsLawful keys.now }
    ensures { IfOk result (λ positions. ArePositions positions.items keys.now) }
{
    placed(alloc, keys).map_err(|_| Memory)
}

fn placed(alloc: Global, keys: &[Key]) -> Result<Vec<u32>, AllocError>
    requires { IsLawful keys.now }
    ensures { IfOk result (λ positions. ArePositions positions.items keys.now) }
{
    let mut positions = vec![in alloc; 0_u32; keys.len()]?;
    for position in 0..keys.len() {
        positions[keys[position].tri as usize - 1] = position as u32;
    }
    Ok(positions)
}
