//! Triangles by their numbers. A walk looks up the few that it comes to, so they may be kept in a list, or made from
//! points and faces at each look.

ghost use Rattle.std.specs.Prelude.{◌≡◌, ◌<◌, ◌≤◌, List, length};
ghost use Rattle.fixed_box.specs.declared.shapes.Tri.{Tri};
ghost use Rattle.traversal.specs.Nearest.{triangle_of};

use fixed_box::Tri;

/// Triangles that are numbered from 1.
pub trait Triangles {
    // All of them, the first of which has the number 1.
    ghost list: { Self → List Tri };

    /// The triangle of that number.
    fn triangle(&self, number: u32) -> Tri
        requires from_one { 0 < number }
        requires to_count { number ≤ length (list self.now) }
        ensures { result ≡ triangle_of (list self.now) number };
}

/// Triangles that stand in a list.
#[derive(Clone, Copy)]
pub(crate) struct Listed<'a> {
    pub(crate) tris: &'a [Tri],
}

impl<'a> Triangles for Listed<'a> {
    ghost list = { λ l. l.tris.now };

    #[tactic(auto, unfolding(crate::specs::Nearest::triangle_of, crate::specs::Nearest::no_tri, crate::specs::Nearest::no_point))]
    fn triangle(&self, number: u32) -> Tri {
        self.tris[number as usize - 1]
    }
}
