//! The triangles that use a vertex, as a chain: the last triangle at each vertex, and from each triangle, at each of
//! its corners, the last one before it. It is made in one pass, and has a number for each corner and each vertex.

ghost use Rattle.std.specs.Prelude.{◌≡◌, ℕ, ◌<◌, ◌≤◌, length, IfOk, All};
ghost use Rattle.obj_text.specs.Meshes.{IsFaceOf};
ghost use Rattle.world_index.specs.Fans.{HasVertex, face_at, latest_at, links_at, link_at, AreFans};

use obj_text::{Face, MOST_FACES};
use outside::Memory;
use std::alloc::{AllocError, Global};

/// For each corner of a triangle one more than the last triangle before it at that vertex, or 0.
#[derive(Clone, Copy, Drop)]
pub struct Links {
    pub a: u32,
    pub b: u32,
    pub c: u32,
}

/// The chains of all vertices.
#[derive(Drop)]
pub struct Fans {
    /// For each vertex one more than the last triangle at it, or 0.
    pub latest: Vec<u32>,
    /// For each triangle its links.
    pub earlier: Vec<Links>,
}

impl Fans {
    /// The chains of so many vertices over these faces.
    pub fn of(alloc: Global, vertices: usize, faces: &[Face]) -> Result<Fans, Memory>
        requires named { All (IsFaceOf vertices) faces.now }
        requires few { length faces.now ≤ MOST_FACES }
        ensures { IfOk result (λ fans. AreFans fans faces.now vertices) }
    {
        chained(alloc, vertices, faces).map_err(|_| Memory)
    }

    /// One more than the last triangle before this one that uses the vertex, or 0; `face` is this one's.
    pub fn before(&self, triangle: usize, face: &Face, vertex: u32) -> u32
        requires { triangle < length self.now.earlier.items }
        ensures { result ≡ link_at (links_at self.now.earlier.items triangle) face.now vertex }
    {
        let links = self.earlier[triangle];
        if face.a == vertex {
            links.a
        } else if face.b == vertex {
            links.b
        } else {
            links.c
        }
    }
}

/// Puts a number for each vertex of the face, and answers what stood there.
fn relink(latest: &mut [u32], face: &Face, number: u32) -> Links
    requires { IsFaceOf (length latest.old) face.now }
    ensures links { (v : ℕ) → HasVertex face.now v → link_at result face.now v ≡ latest_at latest.old v }
    ensures here { (v : ℕ) → HasVertex face.now v → latest_at latest.new v ≡ number }
    ensures elsewhere { (v : ℕ) → ¬ HasVertex face.now v → latest_at latest.new v ≡ latest_at latest.old v }
{
    let links = Links {
        a: latest[face.a as usize],
        b: latest[face.b as usize],
        c: latest[face.c as usize],
    };
    latest[face.a as usize] = number;
    latest[face.b as usize] = number;
    latest[face.c as usize] = number;
    links
}

fn chained(alloc: Global, vertices: usize, faces: &[Face]) -> Result<Fans, AllocError>
    requires named { All (IsFaceOf vertices) faces.now }
    requires few { length faces.now ≤ MOST_FACES }
    ensures { IfOk result (λ fans. AreFans fans faces.now vertices) }
{
    let mut latest = vec![in alloc; 0_u32; vertices]?;
    let mut earlier = Vec::with_capacity(alloc, faces.len())?;
    for (triangle, face) in faces.iter().enumerate() {
        let links = relink(&mut latest, face, triangle as u32 + 1);
        earlier.push(links)?;
    }
    Ok(Fans { latest, earlier })
}
