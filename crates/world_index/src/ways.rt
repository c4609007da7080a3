//! The way up in the tree of the last build, as that build finds it.

ghost use Rattle.std.specs.Prelude.{◌≡◌, IfOk};
ghost use Rattle.world_index.specs.WaysUp.{IsWayUp};

use apetrei_build::Deltas;
use box_handoff::{TreeWays, Up, Ways};
use command_line::Build;
use outside::Memory;
use radix_tree::Tree;
use std::alloc::Global;

/// Which node stands above each range.
#[derive(Drop)]
pub enum BuiltWays {
    /// By the ends of each node's range.
    Karras(TreeWays),
    /// By what each key shares with the next one.
    Apetrei(Deltas),
}

impl Ways for BuiltWays {
    ghost stands = { IsWayUp };

    fn parent(&self, first: u32, last: u32) -> Option<Up> {
        match self {
            BuiltWays::Karras(ways) => ways.parent(first, last),
            BuiltWays::Apetrei(deltas) => deltas.parent(first, last),
        }
    }
}

impl BuiltWays {
    /// The way up in a tree, by that build. A tree without nodes has none, so nothing is kept of it.
    pub fn of(alloc: Global, build: Build, tree: &Tree) -> Result<BuiltWays, Memory>
        ensures { IfOk result (λ ways. IsWayUp ways tree.now.keys) }
    {
        match build {
            Build::Apetrei if !tree.nodes().is_empty() => {
                Ok(BuiltWays::Apetrei(Deltas::new(alloc, tree.keys())?))
            }
            _ => Ok(BuiltWays::Karras(TreeWays::of(alloc, tree)?)),
        }
    }
}
