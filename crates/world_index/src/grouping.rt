//! How many triangles each group of a mesh has, counted in one pass over the triangles.

ghost use Rattle.std.specs.Prelude.{◌≡◌, ◌≤◌, length, replicate, IfOk, All};
ghost use Rattle.obj_text.specs.Meshes.{IsPlaceIn};
ghost use Rattle.world_index.specs.Worlds.{groups_of};
ghost use Rattle.world_index.specs.Grouping.{counts_from, side_by_side};

use obj_text::{MOST_FACES, Mesh};
use outside::{Memory, Name};
use query_script::{GroupCount, GroupList};
use std::alloc::Global;

/// The names of the mesh's groups in their order, each with its count of triangles.
pub fn group_list(alloc: Global, mesh: &Mesh) -> Result<GroupList, Memory>
    ensures { IfOk result (λ list. list ≡ groups_of mesh.now) }
{
    let names = mesh.groups().as_slice();
    let counts = count_faces(alloc, mesh.group_of(), names.len())?;
    let list = with_counts(alloc, names, &counts)?;
    Ok(GroupList::new(list))
}

/// How many of the triangles are in each of so many groups.
fn count_faces(alloc: Global, group_of: &[u32], groups: usize) -> Result<Vec<u32>, Memory>
    requires places { All (IsPlaceIn groups) group_of.now }
    requires few { length group_of.now ≤ MOST_FACES }
    ensures { IfOk result (λ counts. counts.items ≡ counts_from 0 groups group_of.now) }
{
    let mut counts = zeros(alloc, groups)?;
    for place in group_of {
        counts[*place as usize] += 1;
    }
    Ok(counts)
}

fn zeros(alloc: Global, count: usize) -> Result<Vec<u32>, Memory>
    ensures { IfOk result (λ zeros. zeros.items ≡ replicate count 0) }
{
    vec![in alloc; 0_u32; count].map_err(|_| Memory)
}

fn with_counts(alloc: Global, names: &[Name], counts: &[u32]) -> Result<Vec<GroupCount>, Memory>
    requires { length counts.now ≡ length names.now }
    ensures { IfOk result (λ list. list.items ≡ side_by_side names.now counts.now) }
{
    let mut list = Vec::with_capacity(alloc, names.len()).map_err(|_| Memory)?;
    for (i, name) in names.iter().enumerate() {
        let name = name.copy(alloc)?;
        let count = counts[i];
        list.push(GroupCount { name, count }).map_err(|_| Memory)?;
    }
    Ok(list)
}
