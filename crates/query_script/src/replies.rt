//! What a line of a script is answered.

use crate::faults::LineFault;
use crate::fractions::HitFraction;
use crate::groups::GroupList;
use octree_cells::CellList;
use radix_tree::Node;
use traversal::Numbers;

/// What a line of a script is answered.
#[derive(Debug, Drop)]
pub enum Reply {
    /// To a line that asks nothing.
    Nothing,
    /// The numbers of the triangles whose boxes meet the box, rising.
    Overlaps(Numbers),
    /// The triangle of that number is struck first, at that fraction of the way.
    Hit {
        tri: u32,
        at: HitFraction,
    },
    /// No triangle is struck.
    Miss,
    /// The vertex of that number was moved.
    Moved(u64),
    /// The boxes are fitted to the points now.
    Refitted,
    /// The tree is built over the points now.
    Rebuilt,
    /// The inner node of that number.
    NodeIs {
        number: u64,
        node: Node,
    },
    /// The octree's cells of that level, rising.
    CellsAre {
        level: u64,
        list: CellList,
    },
    /// The names of the mesh's groups in their order, each with its count of triangles.
    GroupsAre(GroupList),
    /// The counts of triangles and inner nodes, the height of the tree, and the count of cells of all levels.
    StatIs {
        triangles: u32,
        nodes: u32,
        height: u32,
        cells: u64,
    },
    /// How many boxes the last box query looked at.
    WorkIs(u64),
    /// The line was refused, for this.
    Refused(LineFault),
}
