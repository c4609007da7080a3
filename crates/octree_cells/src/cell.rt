//! A cell of the octree, and a list of them. Contracts see the list as a list; it is made from a `Vec` and lent without
//! taking memory.

ghost use Rattle.std.specs.Prelude.{◌≡◌};

use std::marker::Model;

/// A cube of the world: the prefix that the codes of two or more keys have at a level.
#[derive(Clone, Copy, Debug, PartialEq, Eq, Drop)]
pub struct Cell {
    /// How often the world is halved on each axis to reach the cell: 0, for the whole world, to `LEVELS`.
    pub level: u32,
    /// The codes' first `3 * level` bits of `WIDTH`.
    pub prefix: u64,
    /// The first position of a key that has the prefix.
    pub first: u32,
    /// The last position of one.
    pub last: u32,
}

/// Cells. Contracts see it as their list.
#[derive(Debug, Drop)]
pub struct CellList {
    items: Vec<Cell>,
}

impl Model for CellList {
    ghost use Rattle.std.specs.Prelude.{List};
    ghost use Rattle.octree_cells.specs.declared.cell.Cell.{Cell};

    ghost Value = { List Cell };

    ghost view = { λ cells. cells.items.items };
}

impl CellList {
    /// The list of these cells.
    pub fn new(items: Vec<Cell>) -> CellList
        ensures { result ≡ items.items }
    {
        CellList { items }
    }

    /// Lends the cells.
    pub fn items(&self) -> &[Cell]
        ensures { result.now ≡ self.now }
    {
        self.items.as_slice()
    }
}
