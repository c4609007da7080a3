//! A triangle of a mesh, as the three points that it names.

/// A triangle: the positions of its corners in the mesh's points, from 0. Two or all three may be one.
#[derive(Clone, Copy, Debug, PartialEq, Eq, Drop)]
pub struct Face {
    pub a: u32,
    pub b: u32,
    pub c: u32,
}
