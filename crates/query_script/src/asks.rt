//! What a line of a script asks.

use fixed_box::{Box3, Point};

/// What a line of a script asks.
#[derive(Clone, Copy, Debug, PartialEq, Eq, Drop)]
pub enum Ask {
    /// Nothing: the line has no words, or is a comment.
    Nothing,
    /// Which triangles' boxes meet the box.
    Overlap { around: Box3 },
    /// Which triangle the segment from `p` to `q` strikes first. Both points are in the world.
    Seg { p: Point, q: Point },
    /// That the vertex of this number stands at `to`, which is in the world; numbers above 2^40 stand for 2^40.
    Move { vertex: u64, to: Point },
    /// That the boxes are fitted to the points now.
    Refit,
    /// That the tree is built anew over the points now.
    Rebuild,
    /// The inner node of this number; numbers above 2^40 stand for 2^40.
    NodeOf { number: u64 },
    /// The octree's cells of this level; levels above 2^40 stand for 2^40.
    Cells { level: u64 },
    /// The names of the mesh's groups, each with its count of triangles.
    Groups,
    /// How many triangles, nodes and cells there are, and how high the tree is.
    Stat,
    /// How many boxes the last box query looked at.
    Work,
}
