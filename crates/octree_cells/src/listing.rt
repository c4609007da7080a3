//! The cells of one level, by a walk from the root that goes no further than the level.
//! Where a node's keys share a prefix of the level it is a cell, and all below it is that cell.

ghost use Rattle.std.specs.Prelude.{◌≡◌, ℕ, ◌-◌, ◌<◌, ◌≤◌, ◌++◌, length, IfOk, OnOk, IfSome};
ghost use Rattle.morton_key.specs.Keys.{IsLawful};
ghost use Rattle.radix_tree.specs.Ranges.{HasRange};
ghost use Rattle.radix_tree.specs.Table.{IsTable, node_at};
ghost use Rattle.radix_tree.specs.Filling.{IsChild};
ghost use Rattle.octree_cells.specs.Cells.{prefix_of, AreCells};
ghost use Rattle.octree_cells.specs.CellsOf.{cells_of};
ghost use Rattle.octree_cells.specs.Levels.{cell_over, cells_in, IsApart, shared_level};

use crate::sharing::shared_level;
use crate::{Cell, CellList};
use morton_key::{LEVELS, WIDTH};
use outside::Memory;
use radix_tree::{Child, Tree, left, right};
use std::alloc::{AllocError, Global};

/// The prefix of a level of a code.
fn prefix(code: u64, level: u32) -> u64
    requires { level ≤ LEVELS }
    ensures { result ≡ prefix_of level code }
{
    code >> (WIDTH - 3 * level)
}

/// The cell of a level that has the keys of the node of that number, if these share a prefix of the level.
fn cell_of(t: &Tree, level: u32, number: u32) -> Option<Cell>
    requires level { level ≤ LEVELS }
    requires number { number < length t.now.nodes }
    ensures none { let node = node_at t.now.nodes number in
        result ≡ None → shared_level t.now.keys node.first node.last < level }
    ensures some { let node = node_at t.now.nodes number in
        IfSome result (λ _. level ≤ shared_level t.now.keys node.first node.last) }
    ensures cell { let node = node_at t.now.nodes number in
        IfSome result (λ cell. cell ≡ cell_over t.now.keys level node.first node.last) }
{
    let keys = t.keys();
    let node = t.nodes()[number as usize];
    let first = node.first as usize;
    if shared_level(keys, first, node.last as usize) < level {
        return None;
    }
    Some(Cell {
        level,
        prefix: prefix(keys[first].code, level),
        first: node.first,
        last: node.last,
    })
}

/// Adds the cells of a level below a child.
fn collect(t: &Tree, level: u32, child: Child, found: &mut Vec<Cell>) -> Result<(), AllocError>
    requires table { IsTable t.now }
    requires level { level ≤ LEVELS }
    requires child { IsChild t.now child }
    requires apart { (a b : ℕ) → HasRange t.now.keys child a b → IsApart t.now.keys level a b }
    ensures { OnOk result ((a b : ℕ) → HasRange t.now.keys child a b →
        found.new.items ≡ found.old.items ++ cells_in t.now.keys level a b) }
{
    let Child::Inner(number) = child else {
        return Ok(());
    };
    if let Some(cell) = cell_of(t, level, number) {
        found.push(cell)?;
        return Ok(());
    }
    collect(t, level, left(t, number), found)?;
    collect(t, level, right(t, number), found)
}

/// Adds the cells of a level.
fn collect_all(t: &Tree, level: u32, found: &mut Vec<Cell>) -> Result<(), AllocError>
    requires { level ≤ LEVELS }
    ensures cells { OnOk result (found.new.items ≡ found.old.items ++ cells_of t.now.keys level) }
    ensures lawful { IsLawful t.now.keys }
{
    if t.nodes().is_empty() {
        return Ok(());
    }
    collect(t, level, Child::Inner(0), found)
}

/// The cells of a level, from 0 for the whole world to `LEVELS` for single codes, rising by prefix.
///
/// A cell is a prefix of that level that two or more keys have; a prefix that one key alone has is none. The walk stops
/// below each cell, so it takes time in proportion to the cells and the nodes above them, and no memory but for the
/// answer's list. It is at most one call deeper than the tree is high (Karras, HPG 2012, section 5).
pub fn cells(alloc: Global, t: &Tree, level: u32) -> Result<CellList, Memory>
    requires { level ≤ LEVELS }
    ensures cells { IfOk result (AreCells t.now.keys level) }
    ensures value { IfOk result (λ list. list ≡ cells_of t.now.keys level) }
{
    let mut found = Vec::new(alloc);
    collect_all(t, level, &mut found).map_err(|_| Memory)?;
    Ok(CellList::new(found))
}
