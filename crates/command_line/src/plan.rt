//! What a run is asked to do.

/// What the world is made of.
#[derive(Clone, Copy, Debug, PartialEq, Eq, Drop)]
pub enum Input {
    /// The mesh file that the word at this place names; places are counted from 0.
    File(u32),
    /// The height field of the large workload, of so many squares along each side: `obj_text::LEAST_GRID` to
    /// `obj_text::MOST_GRID`.
    Grid(u32),
}

/// How the world's tree is built. Whichever is named, the tree is the same.
#[derive(Clone, Copy, Debug, PartialEq, Eq, Drop)]
pub enum Build {
    /// Each inner node alone, found from its place in the list of keys (Karras, 2012).
    Karras,
    /// From the leaves up in one pass, in which a node finds its parent when it is done (Apetrei, 2014).
    Apetrei,
}

/// What a run is asked to do.
#[derive(Clone, Copy, Debug, PartialEq, Eq, Drop)]
pub struct Plan {
    pub input: Input,
    /// 1 to 64.
    pub workers: u32,
    pub build: Build,
    /// Grid steps to one unit of the mesh and of the script, 1 to `fixed_box::UNIT_MAX`.
    pub unit: u32,
}
