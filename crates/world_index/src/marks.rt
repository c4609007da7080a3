//! Which vertices were moved since boxes were fitted to them: a flag for each vertex, and a list of those flagged, with
//! room for all from the start, so that a mark takes no memory.

ghost use Rattle.std.specs.Prelude.{◌≡◌, ◌<◌, ℕ, true, false, All, length, slice_index_or};
ghost use Rattle.std.specs.List.{Contains};

use outside::Memory;
use std::alloc::Global;
use std::marker::Model;

/// The marks of so many vertices. Contracts see their count, and the list of those marked.
#[derive(Drop)]
pub struct Marks {
    flags: Vec<bool>,
    list: Vec<u32>,
}

impl Model for Marks {
    ghost use Rattle.std.specs.Prelude.{length};
    ghost use Rattle.world_index.specs.Marks.{Marked, IsMarking};

    ghost Value = { Marked };

    ghost view = { λ m. record { vertices = length m.flags.items; moved = m.list.items } };

    ghost invariant = { λ m. IsMarking m.flags.items m.list };
}

impl Marks {
    ghost use Rattle.std.specs.Prelude.{◌≡◌, ◌<◌, ◌==◌, ◌↔◌, ℕ, [], All, length, IfOk, IsTrue};
    ghost use Rattle.std.specs.List.{Contains};

    /// Marks for so many vertices, and none of them marked.
    pub fn none(alloc: Global, vertices: usize) -> Result<Marks, Memory>
        ensures vertices { IfOk result (λ marks. marks.vertices ≡ vertices) }
        ensures moved { IfOk result (λ marks. marks.moved ≡ []) }
    {
        let flags = vec![in alloc; false; vertices].map_err(|_| Memory)?;
        let list = Vec::with_capacity(alloc, vertices).map_err(|_| Memory)?;
        Ok(Marks { flags, list })
    }

    /// Whether no vertex is marked.
    pub fn is_empty(&self) -> bool
        ensures { result ≡ (length self.now.moved == 0) }
    {
        self.list.is_empty()
    }

    /// The vertices that are marked, each once.
    pub fn moved(&self) -> &[u32]
        ensures moved { result.now ≡ self.now.moved }
        ensures within { All (λ v. v < self.now.vertices) self.now.moved }
    {
        &self.list
    }

    /// Whether the vertex is marked.
    pub fn has(&self, vertex: u32) -> bool
        requires { vertex < self.now.vertices }
        ensures { IsTrue result ↔ Contains self.now.moved vertex }
    {
        self.flags[vertex as usize]
    }

    /// Marks the vertex. It takes no memory.
    pub fn mark(&mut self, vertex: u32)
        requires { vertex < self.old.vertices }
        ensures vertices { self.new.vertices ≡ self.old.vertices }
        ensures marked { Contains self.new.moved vertex }
        ensures kept { (v : ℕ) → Contains self.old.moved v → Contains self.new.moved v }
    {
        if self.flags[vertex as usize] {
            return;
        }
        self.flags[vertex as usize] = true;
        let Ok(()) = self.list.push(vertex) else {
            unreachable!("there is room for each vertex");
        };
    }

    /// Takes all marks away.
    pub fn clear(&mut self)
        ensures vertices { self.new.vertices ≡ self.old.vertices }
        ensures moved { self.new.moved ≡ [] }
    {
        unflag(&mut self.flags, &self.list);
        self.list.clear();
    }
}

/// Takes the flags of these vertices away, which are all that are flagged.
fn unflag(flags: &mut [bool], list: &[u32])
    requires within { All (λ v. v < length flags.old) list.now }
    requires listed { (v : ℕ) → slice_index_or flags.old v false ≡ true → Contains list.now v }
    ensures { (v : ℕ) → slice_index_or flags.new v false ≡ false }
{
    for vertex in list {
        flags[*vertex as usize] = false;
    }
}
