//! Which leaves a fit has to look at: the positions of the triangles that use a vertex that was moved. Where few
//! vertices were moved they are found from these, so that the time grows with what moved alone; where many were, by one
//! pass over all leaves.

ghost use Rattle.std.specs.Prelude.{◌≡◌, ◌<◌, true, false, [], All, length, IfOk, IfSome, OnOk};
ghost use Rattle.morton_key.specs.Keys.{IsLawful};
ghost use Rattle.obj_text.specs.Meshes.{IsFaceOf};
ghost use Rattle.world_index.specs.Fans.{AreFans};
ghost use Rattle.world_index.specs.Live.{
  IsStill,
  AreLive,
  ArePositions,
  AddsFan,
  AreSortedFans,
};

use crate::fans::Fans;
use crate::marks::Marks;
use crate::positions::positions_of;
use morton_key::Key;
use obj_text::Face;
use outside::Memory;
use std::alloc::{AllocError, Global};

/// Few vertices are moved where there are fewer of them than one in so many triangles.
const FEW: usize = 64;

/// The positions, rising, of the triangles that use a marked vertex: triangle `t` has `faces[t - 1]`, and stands where
/// its key does. The positions of all triangles are found when they are first wanted. It takes memory for those, and
/// for the answer.
pub fn live_of(
    alloc: Global,
    faces: &[Face],
    keys: &[Key],
    marks: &Marks,
    fans: &Option<Fans>,
    positions: &mut Option<Vec<u32>>,
) -> Result<Vec<u32>, Memory>
    requires lawful { IsLawful keys.now }
    requires faces { length keys.now ≡ length faces.now }
    requires named { All (IsFaceOf marks.now.vertices) faces.now }
    requires fans { IfSome fans.now (λ fans. AreFans fans faces.now marks.now.vertices) }
    requires positions { IfSome positions.old (λ known. ArePositions known.items keys.now) }
    ensures live { IfOk result (λ live. AreLive faces.now keys.now marks.now.moved live.items) }
    ensures positions { IfSome positions.new (λ known. ArePositions known.items keys.now) }
{
    match fans {
        Some(fans) if marks.moved().len() < faces.len() / FEW => {
            let known = match positions.take() {
                Some(known) => known,
                None => positions_of(alloc, keys)?,
            };
            let live = by_fans(alloc, faces, fans, &known, marks.moved());
            *positions = Some(known);
            Ok(live?)
        }
        _ => by_pass(alloc, faces, keys, marks).map_err(|_| Memory),
    }
}

/// Adds the positions of the triangles that use the vertex.
fn add_fan(
    faces: &[Face],
    fans: &Fans,
    positions: &[u32],
    vertex: u32,
    live: &mut Vec<u32>,
) -> Result<(), AllocError>
    requires fans { AreFans fans.now faces.now (length fans.now.latest.items) }
    requires within { vertex < length fans.now.latest.items }
    requires positions { length positions.now ≡ length faces.now }
    ensures { OnOk result (AddsFan faces.now positions.now vertex 0 live.old.items live.new.items) }
{
    let mut next = fans.latest[vertex as usize];
    while next > 0 {
        let triangle = next as usize - 1;
        live.push(positions[triangle])?;
        next = fans.before(triangle, &faces[triangle], vertex);
    }
    Ok(())
}

/// The positions of the triangles that use one of the vertices, rising.
fn by_fans(
    alloc: Global,
    faces: &[Face],
    fans: &Fans,
    positions: &[u32],
    moved: &[u32],
) -> Result<Vec<u32>, Memory>
    requires fans { AreFans fans.now faces.now (length fans.now.latest.items) }
    requires within { All (λ v. v < length fans.now.latest.items) moved.now }
    requires positions { length positions.now ≡ length faces.now }
    ensures { IfOk result (λ live. AreSortedFans faces.now positions.now moved.now live.items) }
{
    gathered(alloc, faces, fans, positions, moved).map_err(|_| Memory)
}

fn gathered(
    alloc: Global,
    faces: &[Face],
    fans: &Fans,
    positions: &[u32],
    moved: &[u32],
) -> Result<Vec<u32>, AllocError>
    requires fans { AreFans fans.now faces.now (length fans.now.latest.items) }
    requires within { All (λ v. v < length fans.now.latest.items) moved.now }
    requires positions { length positions.now ≡ length faces.now }
    ensures { IfOk result (λ live. AreSortedFans faces.now positions.now moved.now live.items) }
{
    let mut live = Vec::new(alloc);
    for vertex in moved {
        add_fan(faces, fans, positions, *vertex, &mut live)?;
    }
    live.sort_unstable();
    live.dedup();
    Ok(live)
}

/// Whether the face has a marked vertex at a corner.
fn uses_marked(marks: &Marks, face: &Face) -> bool
    requires { IsFaceOf marks.now.vertices face.now }
    ensures moved { result ≡ true → IsStill marks.now.moved face.now → ⊥ }
    ensures still { result ≡ false → IsStill marks.now.moved face.now }
{
    if marks.has(face.a) {
        return true;
    }
    if marks.has(face.b) {
        return true;
    }
    marks.has(face.c)
}

/// The positions of the triangles that use a marked vertex, rising.
fn by_pass(
    alloc: Global,
    faces: &[Face],
    keys: &[Key],
    marks: &Marks,
) -> Result<Vec<u32>, AllocError>
    requires lawful { IsLawful keys.now }
    requires faces { length keys.now ≡ length faces.now }
    requires named { All (IsFaceOf marks.now.vertices) faces.now }
    ensures { IfOk result (λ live. AreLive faces.now keys.now marks.now.moved live.items) }
{
    let mut live = Vec::new(alloc);
    for position in 0..keys.len() {
        if uses_marked(marks, &faces[keys[position].tri as usize - 1]) {
            live.push(position as u32)?;
        }
    }
    Ok(live)
}
